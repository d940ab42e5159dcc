// Ids of glasses and panes: sets of them, and in specs/ the place of one in a list.
#![tactic(auto)]

mod sets;

pub use sets::IdSet;
