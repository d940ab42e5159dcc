// Ids from the lowest up: documents 01 and 02, "The placing". A set of ids is filled one by one, and listed word by word.
#![tactic(auto)]

mod list;
mod marks;

pub use list::list_ids;
pub use marks::mark_low;
