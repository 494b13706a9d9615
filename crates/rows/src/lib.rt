// A row of the controller's table: the words that it lies in, and the two ends that they are.
#![tactic(auto)]

mod part;
mod row;

pub use row::Row;
