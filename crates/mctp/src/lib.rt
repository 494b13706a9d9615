// The wrapping around a record: the byte before it that makes it an MCTP message, and the byte before
// the body inside it that makes that application data.
#![tactic(auto)]

mod application;
mod ffi;
mod kind;
mod led;
mod message;

pub use application::{Header, body_of, read_data, wrap_data};
pub use ffi::{Data, Wrote};
pub use kind::Kind;
pub use message::{read_message, record_of, wrap_record};
