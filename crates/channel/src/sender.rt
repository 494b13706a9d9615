// The sender.
ghost use Rattle.std.specs.Prelude.{◌≡◌, length};
ghost use Rattle.channel.specs.Sender.{zero_sender, new_sender, bad_sender, open_sender, build_of, build_out, change_sender};
ghost use Rattle.channel.specs.Told.{no_draft, sender_step, as_built};

use crate::key::Key;
use answers::Refusal;
use record::{Form, Setting};

// count is the key count, next the number of the next record.
#[repr(C)]
#[derive(Clone, Copy, PartialEq, Eq)]
pub struct Sender {
    pub setting: Setting,
    pub count: u32,
    pub next: u64,
    pub iv: [u8; 12],
}

// A record that is built but for its MAC: its number, its nonce and its form.
#[derive(Clone, Copy)]
pub struct Draft {
    pub number: u64,
    pub nonce: [u8; 12],
    pub form: Form,
}

impl Draft {
    pub fn none() -> Draft
        ensures { result ≡ no_draft }
    {
        Draft {
            number: 0,
            nonce: [0; 12],
            form: Form {
                assoc: 0,
                text: 0,
                total: 0,
            },
        }
    }
}

impl Sender {
    fn fresh(setting: Setting, iv: [u8; 12]) -> Sender
        ensures { result ≡ new_sender setting iv }
    {
        Sender {
            setting,
            count: 0,
            next: 0,
            iv,
        }
    }

    // No sender of a channel: every call refuses it.
    pub fn zeros() -> Sender
        ensures { result ≡ zero_sender }
    {
        Sender::fresh(Setting::zeros(), [0; 12])
    }

    // A new channel. The check 2. Written out here and for the receiver: a trait over the two ends, with
    // what each makes of a setting, would be longer than both.
    #[tactic(auto, unfolding(record::specs::Setting::open_rows))]
    pub fn open(setting: Setting, iv: [u8; 12]) -> Result<Sender, Refusal>
        ensures { sender_step zero_sender result ≡ open_sender setting iv }
    {
        if setting.is_bad() {
            return Err(Refusal::Setting);
        }
        Ok(Sender::fresh(setting, iv))
    }

    // Whether State is given for it.
    #[tactic(auto, unfolding(crate::specs::Sender::bad_sender))]
    fn is_bad(self) -> bool
        ensures { result ≡ bad_sender self }
    {
        self.setting.is_bad() | (self.setting.limit < self.next)
    }

    // All of a record but its MAC, at the start of `out`, and the sender after it. The checks 1, 8, 15 to
    // 17. The number is spent with it, whatever the host's cipher then does.
    pub fn build(
        self,
        app: &[u8],
        random: &[u8],
        out: &mut [u8],
    ) -> Result<(Draft, Sender), Refusal>
        ensures { (as_built self result ≡ build_of self (length app.now) (length random.now) (length out.old)) × (out.new ≡ build_out self app.now random.now out.old) }
    {
        let number = self.next;
        if self.is_bad() {
            return Err(Refusal::State);
        }
        if number == self.setting.limit {
            return Err(Refusal::Spent);
        }
        let form = record::write(self.setting, number, app, random, out)?;
        let iv = self.iv;
        let mut next = self;
        next.next = number + 1;
        let draft = Draft {
            number,
            nonce: record::nonce(self.setting, iv, number),
            form,
        };
        Ok((draft, next))
    }

    // A new IV, and the numbers from 0 again. The checks 1, 19.
    #[tactic(auto, unfolding(crate::specs::Sender::sender_rows, crate::specs::Sender::change_rows, crate::specs::Sender::change_sender))]
    pub fn change_key(self, iv: [u8; 12]) -> Result<Sender, Refusal>
        ensures { sender_step self result ≡ change_sender self iv }
    {
        if self.is_bad() {
            return Err(Refusal::State);
        }
        if self.count == Key::LAST {
            return Err(Refusal::Epochs);
        }
        Ok(Sender {
            count: self.count + 1,
            next: 0,
            iv,
            ..self
        })
    }
}
