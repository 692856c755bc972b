//! What policies decide over all requests: which rules never decide, where two policies differ, and who is granted what.
#![tactic(auto)]

mod common;
mod difference;
mod granting;
mod laws;
mod outcome;
mod reach;
mod unnamed;

pub use difference::{Difference, Sought, difference_at, find_allowed, find_difference};
pub use granting::widest_grant;
pub use laws::{
    differences_are_of_rules, grants_are_listed, read_policies_are_spelled,
    rules_that_differ_have_one,
};
pub use outcome::{Outcome, Ruling, ruling_on, session_ruling};
pub use reach::{Reach, reach_at, reach_of};
pub use unnamed::unnamed_user;
