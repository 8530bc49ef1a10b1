//! The verifier of metadata programs. It accepts programs that run on every block without a trap and within a
//! budget, and says of any other which word breaks which rule.
//! May touch: memory.
#![tactic(auto)]

mod check;
pub mod checked;
mod claims;
pub mod counts;
pub mod fault;
pub mod interval;
pub mod law;
mod merge;
mod open;
mod rows;
mod split;
mod survey;
pub mod verifier;
mod written;

pub use checked::Checked;
pub use counts::Counts;
pub use fault::{FaultKind, Role, VerifyFault};
pub use verifier::{judge, verify};
