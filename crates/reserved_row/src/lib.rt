//! A row of so many places, of which only those up to the last one that was set take memory of the system.
//! May touch: memory.
#![tactic(auto)]

mod row;

pub use row::ReservedRow;
