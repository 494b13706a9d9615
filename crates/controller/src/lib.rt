// The controller's table: sixteen rows, each free or holding one receiver and one sender. It is lent,
// since copies of it would cost more than all else.
#![tactic(auto)]

mod door;
mod ffi;
mod opening;
mod receiving;
mod scan;
mod sending;
mod table;

pub use ffi::{Opened, Sent, Taken};
pub use opening::{close, open};
pub use receiving::{change_receiver, drop, gaps, offer, settle};
pub use sending::{build, change_sender};
pub use table::Table;
