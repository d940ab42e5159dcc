// What the glass part and the pane part of a job file have in common: document 01, "The job file" and "What each cause gives".
#![tactic(auto)]

mod between;
mod entry;
mod part;

pub use between::is_between;
pub use entry::{Entry, find_by_id};
pub use part::read_part;
