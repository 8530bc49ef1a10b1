//! What teaches a type: two programs, the block that spells them, the table of all types, the fields of block 0, and fresh images.
//! May touch: memory.
#![tactic(auto)]

pub mod block;
pub mod built_ins;
mod code;
pub mod fault;
pub mod format;
pub mod law;
pub mod root;
pub mod table;
pub mod template;
mod words;

pub use block::{read_block, write_block};
pub use built_ins::builtin;
pub use fault::{FormatFault, TemplateFault};
pub use format::format_image;
pub use root::{
    CATALOGUE_PLACES, ROOT_SLOTS, count_of, empty_place, mark_is_right, pointer, pointer_start,
    root_bytes, root_slot, slot_start, with_pointer, with_root_slot,
};
pub use table::{FIRST_INSTALLED_TYPE, TEMPLATE_TYPE, Table};
pub use template::Template;
