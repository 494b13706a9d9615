// How a channel is set.
ghost use Rattle.std.specs.Prelude.{◌≡◌};
ghost use Rattle.record.specs.Setting.{zero_setting, auth_only, number_first, has_partial, bad_setting, rule_of};

use numbers::Rule;

// Mode 0 is message authentication only, mode 1 encryption and authentication. Layout 0 has the
// number in the first bytes of a nonce, layout 1 in the last. The MAC has 8, 12 or 16 bytes. Profile 0
// sends the low 16 bits of the number, profile 1 none of it. A window remembers 64, 128, 192 or 256
// numbers. Usable numbers are those below the limit. The kinds are numbers and no enums, since C holds
// the setting and every value has to be answered for.
#[repr(C)]
#[derive(Clone, Copy, PartialEq, Eq)]
pub struct Setting {
    pub mode: u8,
    pub layout: u8,
    pub mac: u8,
    pub profile: u8,
    pub width: u16,
    pub session: u32,
    pub limit: u64,
}

impl Setting {
    pub fn zeros() -> Setting
        ensures { result ≡ zero_setting }
    {
        Setting {
            mode: 0,
            layout: 0,
            mac: 0,
            profile: 0,
            width: 0,
            session: 0,
            limit: 0,
        }
    }

    pub fn auth_only(self) -> bool
        ensures { result ≡ auth_only self }
    {
        self.mode == 0
    }

    // Whether the number is little-endian in the first bytes of a nonce.
    pub fn number_first(self) -> bool
        ensures { result ≡ number_first self }
    {
        self.layout == 0
    }

    // Whether a record's header has a partial number.
    pub fn has_partial(self) -> bool
        ensures { result ≡ has_partial self }
    {
        self.profile == 0
    }

    // Whether Open refuses it.
    pub fn is_bad(self) -> bool
        ensures { result ≡ bad_setting self }
    {
        let odd = !matches!(self.mac, 8 | 12 | 16);
        let uneven = !matches!(self.width, 64 | 128 | 192 | 256);
        (1 < self.mode) | (1 < self.layout) | odd | (1 < self.profile) | uneven | (self.limit == 0)
    }

    // The rule of its keys.
    #[tactic(auto, unfolding(crate::specs::Setting::window_width))]
    pub fn rule(self) -> Rule
        ensures { result ≡ rule_of self }
    {
        Rule {
            width: u64::from(self.width),
            limit: self.limit,
        }
    }
}
