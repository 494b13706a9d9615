// What C is told of the table's own calls: the refusal's number or 0, and then what was handed out or
// zeros. The structs are those of include/hazelhusk.h; the rest is told as a channel's calls are.
ghost use Rattle.std.specs.Prelude.{◌≡◌};
ghost use Rattle.controller.specs.Answers.{as_opened, opened, as_taken, as_sent};

use answers::Refusal;
use channel::{Draft, Span};

// row is that of the new channel.
#[repr(C)]
#[derive(Clone, Copy)]
pub struct Opened {
    pub answer: u8,
    pub row: u8,
}

// place and length are those of the application data.
#[repr(C)]
#[derive(Clone, Copy)]
pub struct Taken {
    pub answer: u8,
    pub place: u64,
    pub length: u64,
}

// assoc, text and total are the ends of the associated data, of the text and of the record.
#[repr(C)]
#[derive(Clone, Copy)]
pub struct Sent {
    pub answer: u8,
    pub number: u64,
    pub nonce: [u8; 12],
    pub assoc: u64,
    pub text: u64,
    pub total: u64,
}

impl From<Result<u8, Refusal>> for Opened {
    ghost from_gives = { λ r o. o ≡ opened (as_opened r) };

    fn from(opened: Result<u8, Refusal>) -> Opened {
        let (answer, row) = answers::told(opened, 0);
        Opened { answer, row }
    }
}

impl From<Result<Span, Refusal>> for Taken {
    ghost from_gives = { λ r t. t ≡ as_taken r };

    fn from(taken: Result<Span, Refusal>) -> Taken {
        let (answer, data) = answers::told(taken, Span::none());
        Taken {
            answer,
            place: data.place,
            length: data.length,
        }
    }
}

impl From<Result<Draft, Refusal>> for Sent {
    ghost from_gives = { λ r s. s ≡ as_sent r };

    fn from(sent: Result<Draft, Refusal>) -> Sent {
        let (answer, draft) = answers::told(sent, Draft::none());
        let nonce = draft.nonce;
        Sent {
            answer,
            number: draft.number,
            nonce,
            assoc: draft.form.assoc,
            text: draft.form.text,
            total: draft.form.total,
        }
    }
}
