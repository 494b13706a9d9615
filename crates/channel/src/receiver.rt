// The receiver: its state, its key slots, and the calls that take no record.
ghost use Rattle.std.specs.Prelude.{◌≡◌};
ghost use Rattle.channel.specs.View.{count_at};
ghost use Rattle.channel.specs.Receiver.{zero_receiver, new_receiver, bad_receiver, look, open_receiver, gaps_of, change_receiver, drop_of};
ghost use Rattle.channel.specs.Look.{key_there};
ghost use Rattle.channel.specs.Told.{as_counted, receiver_step};

use crate::key::Key;
use answers::Refusal;
use record::Setting;

// count is the key count. The old key is there where held is true, else its fields are zeros: two
// fields in place of an Option, since C holds the state.
#[repr(C)]
#[derive(Clone, Copy, PartialEq, Eq)]
pub struct Receiver {
    pub setting: Setting,
    pub count: u32,
    pub current: Key,
    pub held: bool,
    pub old: Key,
}

impl Receiver {
    fn fresh(setting: Setting, iv: [u8; 12]) -> Receiver
        ensures { result ≡ new_receiver setting iv }
    {
        Receiver {
            setting,
            count: 0,
            current: Key::fresh(iv),
            held: false,
            old: Key::zeros(),
        }
    }

    // No receiver of a channel: every call refuses it.
    pub fn zeros() -> Receiver
        ensures { result ≡ zero_receiver }
    {
        Receiver::fresh(Setting::zeros(), [0; 12])
    }

    // A new channel. The check 2.
    #[tactic(auto, unfolding(record::specs::Setting::open_rows))]
    pub fn open(setting: Setting, iv: [u8; 12]) -> Result<Receiver, Refusal>
        ensures { receiver_step zero_receiver result ≡ open_receiver setting iv }
    {
        if setting.is_bad() {
            return Err(Refusal::Setting);
        }
        Ok(Receiver::fresh(setting, iv))
    }

    // Whether State is given for it.
    pub(crate) fn is_bad(self) -> bool
        ensures { result ≡ bad_receiver self }
    {
        let rule = self.setting.rule();
        if self.setting.is_bad() | !self.current.sound(rule) {
            return true;
        }
        if self.held {
            return !self.old.sound(rule) | (self.count == 0);
        }
        // Zeros have a sound window, so that it need not be asked.
        !self.old.is_zero()
    }

    // The key of a slot, where there is one: the check 3. A slot is a number here and below and no enum,
    // since C names it and any number has to be answered for.
    #[tactic(auto, unfolding(crate::specs::Look::key_there, crate::specs::Receiver::look, crate::specs::View::no_key))]
    pub(crate) fn key_at(self, slot: u8) -> Result<Key, Refusal>
        ensures { result ≡ key_there self slot }
    {
        match slot {
            0 => Ok(self.current),
            1 if self.held => Ok(self.old),
            _ => Err(Refusal::Key),
        }
    }

    #[tactic(auto, unfolding(crate::specs::Receiver::look))]
    pub(crate) fn count_at(self, slot: u8) -> u32
        ensures { result ≡ count_at (look self) slot }
    {
        if slot == 0 {
            self.count
        } else {
            self.count.saturating_sub(1)
        }
    }

    // How many of the last numbers are missing under the slot's key. The checks 1, 3.
    pub fn gaps(self, slot: u8) -> Result<u32, Refusal>
        ensures { as_counted result ≡ gaps_of self slot }
    {
        if self.is_bad() {
            return Err(Refusal::State);
        }
        let key = self.key_at(slot)?;
        Ok(key.window.gaps(self.setting.rule()))
    }

    // A new IV: the current key becomes the old one, with its window. The checks 1, 18, 19.
    #[tactic(auto, unfolding(crate::specs::Receiver::answer_to, crate::specs::Receiver::state_after, crate::specs::Receiver::look, crate::specs::Receiver::change, crate::specs::Rules::outcome, crate::specs::Rules::rows, crate::specs::Rules::state_rows, crate::specs::Rules::granted, crate::specs::Rules::refused, crate::specs::Rules::effect_of, answers::specs::Refusal::marks))]
    pub fn change_key(self, iv: [u8; 12]) -> Result<Receiver, Refusal>
        ensures { receiver_step self result ≡ change_receiver self iv }
    {
        if self.is_bad() {
            return Err(Refusal::State);
        }
        if self.held {
            return Err(Refusal::Held);
        }
        if self.count == Key::LAST {
            return Err(Refusal::Epochs);
        }
        Ok(Receiver {
            count: self.count + 1,
            current: Key::fresh(iv),
            held: true,
            old: self.current,
            ..self
        })
    }

    // The old key is forgotten. The checks 1, 3.
    #[tactic(auto, unfolding(crate::specs::Receiver::answer_to, crate::specs::Receiver::state_after, crate::specs::Receiver::look, crate::specs::Receiver::change, crate::specs::Rules::outcome, crate::specs::Rules::rows, crate::specs::Rules::state_rows, crate::specs::Rules::granted, crate::specs::Rules::refused, crate::specs::Rules::effect_of, answers::specs::Refusal::marks))]
    pub fn drop(self) -> Result<Receiver, Refusal>
        ensures { receiver_step self result ≡ drop_of self }
    {
        if self.is_bad() {
            return Err(Refusal::State);
        }
        if !self.held {
            return Err(Refusal::Key);
        }
        Ok(Receiver {
            held: false,
            old: Key::zeros(),
            ..self
        })
    }
}
