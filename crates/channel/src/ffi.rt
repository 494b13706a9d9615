// What C is told of each call: the byte of the answer, 0 or a refusal's number, and beside it what is
// handed out, or zeros and the state as it was. Its structs are those of include/hazelhusk.h, so each
// has its own byte and no two are one generic struct, which no exported function can answer.
ghost use Rattle.std.specs.Prelude.{◌≡◌};
ghost use Rattle.channel.specs.Told.{as_counted, as_offered, as_settled, receiver_step, sender_step, as_built};

use crate::delivery::{Offer, Span};
use crate::receiver::Receiver;
use crate::sender::{Draft, Sender};
use answers::Refusal;

#[repr(C)]
#[derive(Clone, Copy)]
pub struct Counted {
    pub answer: u8,
    pub gaps: u32,
}

// assoc and text are the ends of the associated data and of the text.
#[repr(C)]
#[derive(Clone, Copy)]
pub struct Offered {
    pub answer: u8,
    pub count: u32,
    pub number: u64,
    pub nonce: [u8; 12],
    pub assoc: u64,
    pub text: u64,
}

// place and length are those of the application data.
#[repr(C)]
#[derive(Clone, Copy)]
pub struct Settled {
    pub answer: u8,
    pub place: u64,
    pub length: u64,
    pub next: Receiver,
}

// The answer to a call that gives the next state back and nothing else.
#[repr(C)]
#[derive(Clone, Copy)]
pub struct ReceiverStep {
    pub answer: u8,
    pub next: Receiver,
}

// The same of a sender.
#[repr(C)]
#[derive(Clone, Copy)]
pub struct SenderStep {
    pub answer: u8,
    pub next: Sender,
}

// assoc, text and total are the ends of the associated data, of the text and of the record.
#[repr(C)]
#[derive(Clone, Copy)]
pub struct Built {
    pub answer: u8,
    pub number: u64,
    pub nonce: [u8; 12],
    pub assoc: u64,
    pub text: u64,
    pub total: u64,
    pub next: Sender,
}

impl From<Result<u32, Refusal>> for Counted {
    ghost from_gives = { λ r c. c ≡ as_counted r };

    fn from(counted: Result<u32, Refusal>) -> Counted {
        let (answer, gaps) = answers::told(counted, 0);
        Counted { answer, gaps }
    }
}

impl From<Result<Offer, Refusal>> for Offered {
    ghost from_gives = { λ r o. o ≡ as_offered r };

    fn from(offered: Result<Offer, Refusal>) -> Offered {
        let (answer, offer) = answers::told(offered, Offer::none());
        let nonce = offer.nonce;
        Offered {
            answer,
            count: offer.count,
            number: offer.number,
            nonce,
            assoc: offer.assoc,
            text: offer.text,
        }
    }
}

impl From<(Result<Span, Refusal>, Receiver)> for Settled {
    ghost from_gives = { λ r s. s ≡ as_settled r };

    fn from(settled: (Result<Span, Refusal>, Receiver)) -> Settled {
        let (settled, next) = settled;
        let (answer, data) = answers::told(settled, Span::none());
        Settled {
            answer,
            place: data.place,
            length: data.length,
            next,
        }
    }
}

impl ReceiverStep {
    // From this state, which stays where the step is refused.
    pub fn after(receiver: Receiver, step: Result<Receiver, Refusal>) -> ReceiverStep
        ensures { result ≡ receiver_step receiver step }
    {
        let (answer, next) = answers::told(step, receiver);
        ReceiverStep { answer, next }
    }
}

impl SenderStep {
    // From this state, which stays where the step is refused.
    pub fn after(sender: Sender, step: Result<Sender, Refusal>) -> SenderStep
        ensures { result ≡ sender_step sender step }
    {
        let (answer, next) = answers::told(step, sender);
        SenderStep { answer, next }
    }
}

impl Built {
    // From this state, which stays where the build is refused.
    pub fn after(sender: Sender, built: Result<(Draft, Sender), Refusal>) -> Built
        ensures { result ≡ as_built sender built }
    {
        let (answer, (draft, next)) = answers::told(built, (Draft::none(), sender));
        let nonce = draft.nonce;
        Built {
            answer,
            number: draft.number,
            nonce,
            assoc: draft.form.assoc,
            text: draft.form.text,
            total: draft.form.total,
            next,
        }
    }
}
