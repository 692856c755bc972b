//! Calls that are asked for one at a time, each by the answers to those before it, and what makes them on a system.
#![tactic(auto)]

mod asks;
mod copying;
mod held;
mod holding;
pub mod laws;
mod making;
mod serving;
mod stop;

pub use asks::{Asks, Step};
pub use copying::Copying;
pub use making::{count_in, make_next, run};
pub use serving::deciding::decided;
pub use serving::ended::served;
pub use serving::fronts::{Requests, bad_at};
pub use serving::outcome::Outcome;
pub use serving::telling::{Telling, tell, untold};
pub use stop::{Stop, given};
