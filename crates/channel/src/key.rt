// A receive key.
ghost use Rattle.std.specs.Prelude.{◌≡◌};
ghost use Rattle.numbers.specs.Contract.{sound_window};
ghost use Rattle.channel.specs.Key.{new_key, zero_key, is_zero_key};

use numbers::{Rule, Window};

// Its IV and its window.
#[repr(C)]
#[derive(Clone, Copy, PartialEq, Eq)]
pub struct Key {
    pub iv: [u8; 12],
    pub window: Window,
}

impl Key {
    // The highest key count.
    pub const LAST: u32 = u32::MAX;

    pub(crate) fn fresh(iv: [u8; 12]) -> Key
        ensures { result ≡ new_key iv }
    {
        Key {
            iv,
            window: Window::empty(),
        }
    }

    pub(crate) fn zeros() -> Key
        ensures { result ≡ zero_key }
    {
        Key::fresh([0; 12])
    }

    pub(crate) fn is_zero(self) -> bool
        ensures { result ≡ is_zero_key self }
    {
        self == Key::zeros()
    }

    pub(crate) fn sound(self, rule: Rule) -> bool
        ensures { result ≡ sound_window rule self.window }
    {
        self.window.sound(rule)
    }
}
