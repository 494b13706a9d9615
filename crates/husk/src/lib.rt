// The C boundary: one thin function for each call, with the types of include/hazelhusk.h. A yes from
// the host is the byte 1, since a bool that is neither 0 nor 1 would be changed on its way in; any other
// byte is no. A channel's calls and a row's stay apart, since their names are exported, and those that
// hand out nothing answer the byte alone.
#![tactic(auto)]

mod receiver;
mod sender;
mod table;
mod wrapping;

pub use receiver::{
    husk_change_receiver, husk_drop, husk_gaps, husk_offer, husk_open_receiver, husk_settle,
    husk_view,
};
pub use sender::{Iv, husk_build, husk_change_sender, husk_open_sender};
pub use table::{
    husk_table_build, husk_table_change_receiver, husk_table_change_sender, husk_table_close,
    husk_table_drop, husk_table_gaps, husk_table_offer, husk_table_open, husk_table_settle,
};
pub use wrapping::{
    husk_body_of, husk_read_data, husk_read_message, husk_record_of, husk_wrap_data,
    husk_wrap_record,
};
