// The setting of a channel, and the shape that it gives a record.
#![tactic(auto)]

mod header;
mod incoming;
mod lengths;
mod nonces;
mod reader;
mod setting;
mod views;
mod writer;

pub use incoming::Incoming;
pub use nonces::nonce;
pub use reader::Record;
pub use setting::Setting;
pub use views::view;
pub use writer::{Form, write};
