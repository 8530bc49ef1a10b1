//! What calls make of the files of a volume of trees, in the words of POSIX: laws of what the calls do, without code.
//! May touch: nothing.
#![tactic(auto)]

pub mod law;
pub mod marks;
pub mod orphans;
pub mod sizes;
pub mod space;
