//! An image of the tree of files, with its labels, frozen marks, privileges, names and bytes: written, read and listed.
#![tactic(auto)]

mod contents;
mod fault;
mod fields;
mod fitting;
mod labels;
pub mod laws;
mod leading;
mod lines;
mod links;
mod listing;
mod marks;
mod memory;
mod named;
mod naming;
mod node;
mod nodes;
mod part;
mod parts;
mod places;
mod reaching;
mod reading;
mod rules;
mod saving;
mod systems;
mod telling;
mod tree;
mod writing;
mod written;

pub use fault::ReadImage;
pub use listing::list;
pub use reading::read;
pub use rules::rule_text;
pub use saving::save;
pub use telling::Listing;
pub use tree::Tree;
pub use written::Saving;

#[cfg(test)]
mod tests;
