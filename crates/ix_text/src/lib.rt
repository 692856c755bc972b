//! How values are spelled, in scripts, policies and reports alike, and which name, label or set of privileges a word is.
#![tactic(auto)]

mod bytes;
mod labels;
mod names;
mod privs;
mod spelling;

pub use bytes::{begins, is, is_digit};
pub use labels::{label_in, push_label};
pub use names::{is_reserved, is_script_name, name_of};
pub use privs::{privs_of, set_of_bits};
pub use spelling::{hex_pair, mode_word, privs_text, state_word};
