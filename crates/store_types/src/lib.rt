//! Plain types and numbers that the definitions of a store and its code share: refusals, faults of an image, who owns a block, how long a block is.
//! May touch: nothing.
#![tactic(auto)]

mod image_fault;
mod limits;
mod place;
mod refusal;
mod status;

pub use image_fault::ImageFault;
pub use limits::{
    BLOCK_LEN, DATA_TYPE, MAX_BLOCKS, MAX_FORMAT_BLOCKS, MAX_PENDING, MAX_PENDING_IN_BLOCK,
    MIN_BLOCKS,
};
pub use place::Place;
pub use refusal::Refusal;
pub use status::Status;
