//! Policies: the reader of their JSON text, with the fault of every text, and what their rules decide on requests.
#![tactic(auto)]

mod fault;
mod fields;
mod policy;
mod reading;
mod request;
mod rule;
mod served;

pub use fault::{Field, PolicyFault};
pub use policy::Policy;
pub use request::{Request, Verdict};
pub use rule::{Act, Rule};
pub use served::Served;
