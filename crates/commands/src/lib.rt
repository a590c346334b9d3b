// The text of a dispatcher's commands, and of the answers to them.
#![tactic(auto)]

mod answer;
mod command;
mod lines;
mod parts;
#[cfg(test)]
mod tests;

pub use answer::{Answer, write_answer};
pub use command::{Command, read_command};
pub use lines::{Line, next_line};
pub use parts::{Parts, parted};
