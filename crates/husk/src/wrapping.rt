// The wrapping.
ghost use Rattle.std.specs.Prelude.{◌≡◌, eqb};
ghost use Rattle.mctp.specs.Application.{wrap_data, read_data, body_of};
ghost use Rattle.mctp.specs.Message.{wrap_record, read_message, record_of};

use mctp::{Data, Wrote};

#[unsafe(no_mangle)]
pub extern "C" fn husk_wrap_data(integrity: u8, kind: u8, body: &[u8], out: &mut [u8]) -> Wrote
    ensures { (result, out.new) ≡ wrap_data (eqb integrity 1) kind body.now out.old }
{
    mctp::wrap_data(integrity == 1, kind, body, out).into()
}

#[unsafe(no_mangle)]
pub extern "C" fn husk_read_data(app: &[u8]) -> Data
    ensures { result ≡ read_data app.now }
{
    mctp::read_data(app).into()
}

#[unsafe(no_mangle)]
pub extern "C" fn husk_body_of<'a>(app: &'a [u8], out: &mut &'a [u8])
    ensures { out.new.now ≡ body_of app.now }
{
    *out = mctp::body_of(app);
}

#[unsafe(no_mangle)]
pub extern "C" fn husk_wrap_record(rec: &[u8], out: &mut [u8]) -> Wrote
    ensures { (result, out.new) ≡ wrap_record rec.now out.old }
{
    mctp::wrap_record(rec, out).into()
}

#[unsafe(no_mangle)]
pub extern "C" fn husk_read_message(message: &[u8]) -> u8
    ensures { result ≡ read_message message.now }
{
    answers::code(mctp::read_message(message))
}

#[unsafe(no_mangle)]
pub extern "C" fn husk_record_of<'a>(message: &'a [u8], out: &mut &'a [u8])
    ensures { out.new.now ≡ record_of message.now }
{
    *out = mctp::record_of(message);
}
