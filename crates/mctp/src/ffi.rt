// What C is told of a result: the refusal's number or 0, and then what was handed out or zeros. The
// structs are those of include/hazelhusk.h.
ghost use Rattle.std.specs.Prelude.{◌≡◌};
ghost use Rattle.mctp.specs.Led.{as_wrote};
ghost use Rattle.mctp.specs.Application.{as_data};

use crate::application::Header;
use answers::Refusal;

// What C is told of a writer: how many bytes it wrote.
#[repr(C)]
#[derive(Clone, Copy)]
pub struct Wrote {
    pub answer: u8,
    pub length: u64,
}

impl From<Result<u64, Refusal>> for Wrote {
    ghost from_gives = { λ r w. w ≡ as_wrote r };

    fn from(written: Result<u64, Refusal>) -> Wrote {
        let (answer, length) = answers::told(written, 0);
        Wrote { answer, length }
    }
}

// What C is told of application data: what the byte before its body holds.
#[repr(C)]
#[derive(Clone, Copy)]
pub struct Data {
    pub answer: u8,
    pub integrity: bool,
    pub kind: u8,
}

impl From<Result<Header, Refusal>> for Data {
    ghost from_gives = { λ r d. d ≡ as_data r };

    fn from(read: Result<Header, Refusal>) -> Data {
        let none = Header {
            integrity: false,
            kind: 0,
        };
        let (answer, header) = answers::told(read, none);
        Data {
            answer,
            integrity: header.integrity,
            kind: header.kind,
        }
    }
}
