//! Commands to a volume and its answers, as they stand in text: a command is a name and its words, each behind a blank.
#![tactic(auto)]

mod answers;
mod commands;
mod digits;
mod words;

pub use answers::{write_answer, write_reply};
pub use commands::parse_command;
pub use digits::attributes;
pub use snapshot::{Answer, Command, Reply};
pub use words::{
    first_part, first_word, is_one_word, leading_numbers, number, three_numbers, two_numbers,
};
