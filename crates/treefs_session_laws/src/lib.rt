//! What the calls of a session make of the files of its volume, however often they are made until they have room: laws, without code.
//! May touch: nothing.
#![tactic(auto)]

pub mod bytes;
pub mod law;
pub mod orphans;
pub mod puts;
