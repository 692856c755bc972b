//! What is read to its end, and what is written.

pub mod input;
pub mod outlet;
pub mod sending;
pub mod stream;
pub mod teller;
pub mod text;
pub mod tracer;
