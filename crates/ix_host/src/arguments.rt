//! The command words.

pub mod command;
pub mod command_line;
pub mod words;
