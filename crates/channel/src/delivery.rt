// The receiver's calls that take a record: Offer and Settle.
ghost use Rattle.std.specs.Prelude.{◌≡◌};
ghost use Rattle.channel.specs.Call.{marking};
ghost use Rattle.channel.specs.Receiver.{change, offer_of, settled, answer_to, state_after};
ghost use Rattle.channel.specs.Look.{as_looked, look_of, passed_by};
ghost use Rattle.channel.specs.Told.{no_offer, no_data, as_offered, as_settled, settle_call};

use crate::receiver::Receiver;
use answers::Refusal;
use record::{Incoming, Record};

// Which key count, number, nonce and bytes the cipher is to check: assoc and text are the ends of the
// associated data and of the text.
#[derive(Clone, Copy)]
pub struct Offer {
    pub count: u32,
    pub number: u64,
    pub nonce: [u8; 12],
    pub assoc: u64,
    pub text: u64,
}

// What the cipher said of an offered record: the record and the key slot, the key count and the number
// that it was checked with, whether it passed, and the text made plain.
#[derive(Clone, Copy)]
pub struct Verdict<'a> {
    pub rec: &'a [u8],
    pub slot: u8,
    pub count: u32,
    pub number: u64,
    pub passed: bool,
    pub plain: &'a [u8],
}

// Where the application data is, and how long.
#[derive(Clone, Copy)]
pub struct Span {
    pub place: u64,
    pub length: u64,
}

// What the checks that Offer and Settle share find.
#[derive(Clone, Copy)]
struct Look {
    iv: [u8; 12],
    number: u64,
    read: Record,
}

impl Offer {
    pub(crate) fn none() -> Offer
        ensures { result ≡ no_offer }
    {
        Offer {
            count: 0,
            number: 0,
            nonce: [0; 12],
            assoc: 0,
            text: 0,
        }
    }
}

impl Span {
    pub fn none() -> Span
        ensures { result ≡ no_data }
    {
        Span {
            place: 0,
            length: 0,
        }
    }
}

impl Receiver {
    // The checks that Offer and Settle share: 1, 3 to 10.
    fn look(self, rec: &[u8], slot: u8) -> Result<Look, Refusal>
        ensures { as_looked result ≡ look_of self rec.now slot }
    {
        if self.is_bad() {
            return Err(Refusal::State);
        }
        let key = self.key_at(slot)?;
        let setting = self.setting;
        let incoming = Incoming { setting, rec };
        let read = incoming.read()?;
        let number = incoming.place(key.window)?;
        let iv = key.iv;
        Ok(Look { iv, number, read })
    }

    // Which key, number, nonce and bytes the cipher is to check. The checks 1, 3 to 10; it answers no
    // state, so nothing is marked before the cipher said yes.
    pub fn offer(self, rec: &[u8], slot: u8) -> Result<Offer, Refusal>
        ensures { as_offered result ≡ offer_of self rec.now slot }
    {
        let seen = self.look(rec, slot)?;
        let iv = seen.iv;
        Ok(Offer {
            count: self.count_at(slot),
            number: seen.number,
            nonce: record::nonce(self.setting, iv, seen.number),
            assoc: seen.read.assoc,
            text: seen.read.text,
        })
    }

    // With the number n marked under the slot's key.
    #[tactic(auto, unfolding(crate::specs::Receiver::change))]
    fn marked(mut self, slot: u8, n: u64) -> Receiver
        ensures { result ≡ change self (marking slot n) }
    {
        let rule = self.setting.rule();
        if slot == 0 {
            self.current.window = self.current.window.mark(rule, n);
        } else {
            self.old.window = self.old.window.mark(rule, n);
        }
        self
    }

    // The checks of Settle that mark nothing: 1, 3 to 13, made on this state and not on the one that
    // was offered to, since the window may have moved between.
    fn check(self, verdict: Verdict) -> Result<Look, Refusal>
        ensures { as_looked result ≡ passed_by self verdict.entry }
    {
        let seen = self.look(verdict.rec, verdict.slot)?;
        if (verdict.count != self.count_at(verdict.slot)) | (verdict.number != seen.number) {
            return Err(Refusal::Stale);
        }
        if verdict.plain.len() as u64 != seen.read.plain {
            return Err(Refusal::Plain);
        }
        if !verdict.passed {
            return Err(Refusal::Mac);
        }
        Ok(seen)
    }

    // What the cipher's verdict on an offered record comes to, and the state after it. The checks 1, 3 to
    // 14: only from Inner on is the record authentic, and its number marked.
    pub fn settle(self, verdict: Verdict) -> (Result<Span, Refusal>, Receiver)
        ensures { as_settled result ≡ settled (answer_to self (settle_call verdict.entry)) (state_after self (settle_call verdict.entry)) }
    {
        let seen = match self.check(verdict) {
            Ok(seen) => seen,
            Err(why) => return (Err(why), self),
        };
        let next = self.marked(verdict.slot, verdict.number);
        let incoming = Incoming {
            setting: self.setting,
            rec: verdict.rec,
        };
        if incoming.inner_bad(verdict.plain) {
            return (Err(Refusal::Inner), next);
        }
        let data = Span {
            place: seen.read.place,
            length: incoming.data_len(verdict.plain),
        };
        (Ok(data), next)
    }
}
