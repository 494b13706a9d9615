// A row, by value.
ghost use Rattle.std.specs.Prelude.{◌≡◌};
ghost use Rattle.rows.specs.Ends.{receiver_of, sender_of, ends_of, is_free, with_receiver, with_sender, put_receiver, put_sender};

use crate::part;
use channel::{Receiver, Sender};

// Nineteen words of the receiver, then seven of the sender.
#[derive(Clone, Copy)]
pub struct Row {
    pub words: [u64; 26],
}

impl Row {
    pub const WORDS: usize = 26;

    // The places of the receiver's Session ID and limit, and of the sender's Session ID.
    pub const ID: usize = 1;

    pub const LIMIT: usize = 2;

    pub const PEER_ID: usize = 20;

    #[tactic(auto, unfolding(crate::specs::Ends::receiver_of))]
    pub fn receiver(self) -> Receiver
        ensures { result ≡ receiver_of self.words }
    {
        let w = self.words;
        Receiver {
            setting: part::setting_of(w[0], w[1], w[2]),
            count: part::count_of(w[3]),
            current: part::key_of(w[4], w[5], w[6], [w[7], w[8], w[9], w[10]]),
            held: w[11] % 2 == 1,
            old: part::key_of(w[12], w[13], w[14], [w[15], w[16], w[17], w[18]]),
        }
    }

    #[tactic(auto, unfolding(crate::specs::Ends::sender_of))]
    pub fn sender(self) -> Sender
        ensures { result ≡ sender_of self.words }
    {
        let w = self.words;
        Sender {
            setting: part::setting_of(w[19], w[20], w[21]),
            count: part::count_of(w[22]),
            next: w[23],
            iv: part::iv_of(w[24], w[25]),
        }
    }

    // The row with another receiver.
    pub fn with_receiver(self, receiver: Receiver) -> Row
        ensures { (result.words ≡ put_receiver self.words receiver) × (ends_of result.words ≡ with_receiver (ends_of self.words) receiver) }
    {
        let mut words = self.words;
        words[..3].copy_from_slice(&part::setting_words(receiver.setting));
        words[3] = u64::from(receiver.count);
        words[4..11].copy_from_slice(&part::key_words(receiver.current));
        words[11] = u64::from(receiver.held);
        words[12..19].copy_from_slice(&part::key_words(receiver.old));
        Row { words }
    }

    // The row with another sender.
    pub fn with_sender(self, sender: Sender) -> Row
        ensures { (result.words ≡ put_sender self.words sender) × (ends_of result.words ≡ with_sender (ends_of self.words) sender) }
    {
        let mut words = self.words;
        words[19..22].copy_from_slice(&part::setting_words(sender.setting));
        words[22] = u64::from(sender.count);
        words[23] = sender.next;
        words[24..].copy_from_slice(&part::iv_words(sender.iv));
        Row { words }
    }

    // Whether it is all zeros, but for what padding holds. A row in use has a limit, so one look mostly tells.
    #[tactic(auto, unfolding(crate::specs::Ends::is_free, crate::specs::Ends::receiver_of, crate::specs::Ends::sender_of, channel::specs::Receiver::is_zero_receiver, channel::specs::Sender::is_zero_sender))]
    pub fn is_free(self) -> bool
        ensures { result ≡ is_free (ends_of self.words) }
    {
        let w = self.words;
        if w[2] != 0 {
            return false;
        }
        let receiver = part::is_zero_setting(w[0], w[1], w[2])
            & (part::count_of(w[3]) == 0)
            & part::is_zero_key(w[4], w[5], w[6], [w[7], w[8], w[9], w[10]])
            & (w[11] % 2 != 1)
            & part::is_zero_key(w[12], w[13], w[14], [w[15], w[16], w[17], w[18]]);
        let sender = part::is_zero_setting(w[19], w[20], w[21])
            & (part::count_of(w[22]) == 0)
            & (w[23] == 0)
            & part::is_zero_iv(w[24], w[25]);
        receiver & sender
    }
}
