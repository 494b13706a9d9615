// The numbers of one receive key: which number a record has, and which numbers are marked.
#![tactic(auto)]

mod marks;
mod window;

pub use marks::Marks;
pub use window::{Rule, Window};
