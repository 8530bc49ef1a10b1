//! What edits make of the files of a volume: laws, without code.
//! May touch: nothing.
#![tactic(auto)]

pub mod law;
