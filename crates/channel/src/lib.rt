// The two ends of a channel.
#![tactic(auto)]

mod delivery;
mod ffi;
mod key;
mod receiver;
mod sender;

pub use delivery::{Offer, Span, Verdict};
pub use ffi::{Built, Counted, Offered, ReceiverStep, SenderStep, Settled};
pub use key::Key;
pub use receiver::Receiver;
pub use sender::{Draft, Sender};
