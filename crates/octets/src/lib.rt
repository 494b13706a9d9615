// Bytes of a slice: fields, parts, and bytes put into it. A missing byte reads as 0, and what does
// not fit is not put.
#![tactic(auto)]

mod fields;
mod parts;

pub use fields::{blank12, bytes_of, little16, little32, word_of};
pub use parts::{part, put, put_little16, put_little32};
