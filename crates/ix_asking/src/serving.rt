//! What both servers share: how serving comes out, what a client is told, and how it is told.

pub mod deciding;
pub mod ended;
pub mod fronts;
pub mod outcome;
pub mod spelling;
pub mod telling;
pub mod text;
