//! What is said to a script, and of an image, that breaks a rule.

pub mod rules;
