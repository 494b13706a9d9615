// Reading a record, and finding its number.
#![tactic(auto, unfolding(crate::specs::Read::read_of, crate::specs::Read::record_rows, crate::specs::Read::place_of, crate::specs::Read::place_rows, crate::specs::Header::number_of, numbers::specs::Contract::placed, numbers::specs::Contract::judged))]

ghost use Rattle.std.specs.Prelude.{◌≡◌};
ghost use Rattle.record.specs.Read.{read_of, place_of};
ghost use Rattle.record.specs.Told.{as_reading};
ghost use Rattle.numbers.specs.Contract.{as_placed};

use crate::incoming::Incoming;
use answers::Refusal;
use numbers::Window;

// Lengths and places are u64 in every answer, so that C's structs have one layout on every machine: hence
// the casts from usize and to it, which no `From` has.
// What is read of a record before any key is looked at: the ends of the associated data and of the
// text, the length of the plaintext buffer, and the place of the data.
#[derive(Clone, Copy)]
pub struct Record {
    pub assoc: u64,
    pub text: u64,
    pub plain: u64,
    pub place: u64,
}

impl Record {
    // The header's length, and without a partial number.
    pub const HEADER: u64 = 8;

    pub const BARE_HEADER: u64 = 6;

    // The longest MAC.
    pub const MAC: u64 = 16;

    // The length of the field before the data in mode 1.
    pub const INNER: u64 = 2;

    // The largest Length.
    pub const MOST: u64 = 65535;
}

impl<'a> Incoming<'a> {
    // The checks that take no key: 4 to 7.
    pub fn read(self) -> Result<Record, Refusal>
        ensures { as_reading result ≡ read_of self.entry.setting self.entry.rec.now }
    {
        let size = self.rec.len() as u64;
        if size < self.setting.head_len() {
            return Err(Refusal::Short);
        }
        if self.session() != self.setting.session {
            return Err(Refusal::Session);
        }
        if size != self.total() {
            return Err(Refusal::Length);
        }
        if u64::from(self.length()) < self.setting.least() {
            return Err(Refusal::Small);
        }
        Ok(Record {
            assoc: self.assoc_end(),
            text: self.text_end(),
            plain: self.plain_len(),
            place: self.data_place(),
        })
    }

    // Its number for the key with this window, or why it is refused: 8 to 10.
    pub fn place(self, window: Window) -> Result<u64, Refusal>
        ensures { as_placed result ≡ place_of self.entry.setting window self.entry.rec.now }
    {
        let rule = self.setting.rule();
        if self.setting.has_partial() {
            window.place(rule, self.partial())
        } else {
            window.judge(rule, window.next)
        }
    }
}
