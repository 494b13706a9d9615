// A record that came in, seen as its channel's setting has it: its fields, and where its parts are.
#![tactic(auto, unfolding(crate::specs::Header::session_of, crate::specs::Header::partial_of, crate::specs::Header::length_of, crate::specs::Shape::total_of, crate::specs::Shape::start_of, crate::specs::Shape::text_end, crate::specs::Shape::assoc_end, crate::specs::Shape::plain_len, crate::specs::Shape::data_place, crate::specs::Shape::data_len, crate::specs::Shape::inner_bad, crate::specs::Shape::inner_len))]

ghost use Rattle.std.specs.Prelude.{◌≡◌, ◌-◌};
ghost use Rattle.record.specs.Header.{session_of, partial_of, length_of};
ghost use Rattle.record.specs.Shape.{total_of, start_of, text_end, assoc_end, plain_len, data_place, data_len, inner_bad};

use crate::header;
use crate::setting::Setting;

#[derive(Clone, Copy)]
pub struct Incoming<'a> {
    pub setting: Setting,
    pub rec: &'a [u8],
}

impl<'a> Incoming<'a> {
    pub(crate) fn session(self) -> u32
        ensures { result ≡ session_of self.entry.setting self.entry.rec.now }
    {
        octets::little32(self.rec, header::SESSION_AT)
    }

    // The low 16 bits of the number, where the profile has them.
    pub(crate) fn partial(self) -> u16
        ensures { result ≡ partial_of self.entry.setting self.entry.rec.now }
    {
        octets::little16(self.rec, header::PARTIAL_AT)
    }

    // The field Length.
    pub(crate) fn length(self) -> u32
        ensures { result ≡ length_of self.entry.setting self.entry.rec.now }
    {
        u32::from(octets::little16(self.rec, header::length_at(self.setting)))
    }

    // How long the record says that it is.
    #[tactic(auto, using(crate::proofs::Heads::head_most), unfolding(crate::specs::Shape::total_of))]
    pub(crate) fn total(self) -> u64
        ensures { result ≡ total_of self.entry.setting self.entry.rec.now }
    {
        self.setting.head_len() + u64::from(self.length())
    }

    // Where the payload starts.
    pub(crate) fn start(self) -> u64
        ensures { result ≡ start_of self.entry.setting self.entry.rec.now }
    {
        self.setting.head_len()
    }

    pub(crate) fn text_end(self) -> u64
        ensures { result ≡ text_end self.entry.setting self.entry.rec.now }
    {
        (self.rec.len() as u64).saturating_sub(self.setting.mac_len())
    }

    // How long the payload is, up to the MAC.
    fn inside(self) -> u64
        ensures { result ≡ text_end self.entry.setting self.entry.rec.now - start_of self.entry.setting self.entry.rec.now }
    {
        self.text_end().saturating_sub(self.start())
    }

    pub(crate) fn assoc_end(self) -> u64
        ensures { result ≡ assoc_end self.entry.setting self.entry.rec.now }
    {
        if self.setting.auth_only() {
            self.text_end()
        } else {
            self.start()
        }
    }

    pub(crate) fn plain_len(self) -> u64
        ensures { result ≡ plain_len self.entry.setting self.entry.rec.now }
    {
        if self.setting.auth_only() {
            0
        } else {
            self.inside()
        }
    }

    pub(crate) fn data_place(self) -> u64
        ensures { result ≡ data_place self.entry.setting self.entry.rec.now }
    {
        if self.setting.auth_only() {
            self.start()
        } else {
            self.setting.inner_len()
        }
    }

    // How long the application data is.
    pub fn data_len(self, plain: &[u8]) -> u64
        ensures { result ≡ data_len self.entry.setting self.entry.rec.now plain.now }
    {
        if self.setting.auth_only() {
            self.inside()
        } else {
            u64::from(octets::little16(plain, 0))
        }
    }

    // Whether the data is said to be longer than what is there.
    pub fn inner_bad(self, plain: &[u8]) -> bool
        ensures { result ≡ inner_bad self.entry.setting self.entry.rec.now plain.now }
    {
        let room = self.plain_len().saturating_sub(self.setting.inner_len());
        !self.setting.auth_only() && room < self.data_len(plain)
    }
}
