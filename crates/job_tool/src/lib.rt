// What the programs share: reading a job, from standard input or from the file that an argument names, and the words that they
// write.
#![tactic(auto)]

mod argument;
mod input;
mod pieces;
mod words;

pub use argument::{
    Unread, argument_count, read_argument, with_file, write_argument, write_name, write_unread,
};
pub use input::{JobBytes, read_input, with_input};
pub use pieces::Pieces;
pub use words::{StandardError, write_refusal};
