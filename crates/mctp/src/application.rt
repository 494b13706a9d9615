// Application data: one byte, whose top bit is E-IC and whose low seven bits are the encapsulated
// type, and then the body.
ghost use Rattle.std.specs.Prelude.{◌≡◌, ◌≤◌};
ghost use Rattle.mctp.specs.Kind.{largest, byte_of, integrity_of, kind_of};
ghost use Rattle.mctp.specs.Led.{as_wrote};
ghost use Rattle.mctp.specs.Application.{as_data, wrap_data, read_data, body_of};

use crate::kind::Kind;
use crate::led;
use answers::Refusal;

// What the byte before the body holds.
#[derive(Clone, Copy, PartialEq, Eq, Debug)]
pub struct Header {
    pub integrity: bool,
    pub kind: u8,
}

// The byte of E-IC and a type.
#[tactic(auto, unfolding(crate::specs::Kind::byte_of))]
fn byte_of(integrity: bool, kind: u8) -> u8
    requires { kind ≤ largest }
    ensures { result ≡ byte_of integrity kind }
{
    if integrity {
        kind | Kind::INTEGRITY
    } else {
        kind
    }
}

// E-IC, the top bit of the byte.
#[tactic(auto, unfolding(crate::specs::Kind::integrity_of))]
fn integrity_of(byte: u8) -> bool
    ensures { result ≡ integrity_of byte }
{
    byte >> Kind::BITS == 1
}

// The type, the low seven bits of the byte.
#[tactic(auto, unfolding(crate::specs::Kind::kind_of))]
fn kind_of(byte: u8) -> u8
    ensures { result ≡ kind_of byte }
{
    byte & Kind::LARGEST
}

// The application data of a body at the start of `out`, and its length. The checks 20 and 17.
#[tactic(auto, unfolding(crate::specs::Led::writes, crate::specs::Application::wrap_rows))]
pub fn wrap_data(integrity: bool, kind: u8, body: &[u8], out: &mut [u8]) -> Result<u64, Refusal>
    ensures { (as_wrote result, out.new) ≡ wrap_data integrity kind body.now out.old }
{
    if kind == Kind::BARRED || Kind::LARGEST < kind {
        return Err(Refusal::Wrapped);
    }
    led::put_led(byte_of(integrity, kind), body, out)
}

// E-IC and the type of application data. The check 20.
#[tactic(auto, unfolding(crate::specs::Application::read_data, crate::specs::Application::unwrap_rows))]
pub fn read_data(app: &[u8]) -> Result<Header, Refusal>
    ensures { as_data result ≡ read_data app.now }
{
    let Some(&byte) = app.first() else {
        return Err(Refusal::Wrapped);
    };
    let kind = kind_of(byte);
    if kind == Kind::BARRED {
        return Err(Refusal::Wrapped);
    }
    Ok(Header {
        integrity: integrity_of(byte),
        kind,
    })
}

// The body of application data, or an empty part of it where `read_data` refuses it: what C is handed
// lies in the buffer that it lent, and it asks the reader why. No Result, since C takes a part in each case.
#[tactic(auto, unfolding(crate::specs::Application::read_data, crate::specs::Application::unwrap_rows, crate::specs::Led::behind))]
pub fn body_of(app: &[u8]) -> &[u8]
    ensures { result.now ≡ body_of app.now }
{
    match read_data(app) {
        Ok(_) => &app[1..],
        Err(_) => &app[..0],
    }
}
