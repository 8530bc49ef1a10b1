// The state of a store without its disk: what each block has been since it was last free, and the types; the calls that change it, with their answers, and
// the trait `Store`.
// May touch: memory.
#![tactic(auto)]

mod answer;
mod call;
mod event;
mod found;
mod installed;
pub mod law;
mod lives;
mod reply;
mod root;
mod state;
mod store;

pub use answer::{Answer, Landed, Stopped};
pub use call::Call;
pub use edit_list::{Edit, EditId, Fs, Patch};
pub use event::Event;
pub use found::Found;
pub use installed::Installed;
pub use reply::Reply;
pub use state::State;
pub use store::Store;
pub use store_types::{Refusal, Status};
