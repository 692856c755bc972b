//! Session scripts both ways: the reader, with the fault of every input, and the writer of the one text of a script.
#![tactic(auto)]

mod body;
mod draft;
mod fail;
mod form;
mod header;
mod index;
pub mod laws;
mod line;
mod packed;
mod paths;
mod payload;
mod places;
mod plan;
mod reading;
mod role;
mod rules;
mod schedule;
mod script;
mod values;
mod words;
mod writing;

pub use fail::{ReadFail, ScriptFault, rule_text};
pub use line::{FdWord, KeepWord, Line, What};
pub use paths::{MadePath, PathWord};
pub use payload::Payload;
pub use reading::read;
pub use role::Role;
pub use schedule::Stretch;
pub use script::{Script, need};
pub use values::{LabelWord, NameWord, PolicyText};
pub use writing::{write, write_part};
