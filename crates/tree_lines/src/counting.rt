// How many blocks a store has.

use edit_list::Fs;
use store_types::Refusal;
use xn_state::Store;

/// A disk has at most so many blocks.
const MOST_BLOCKS: u32 = 1_048_576;

/// Whether a store has a block of a number, free or not.
fn has_block<S: Store>(store: &S, fs: Fs, block: u32) -> bool {
    match store.read(fs, block) {
        Err(Refusal::NoSuchBlock) => false,
        _ => true,
    }
}

/// How many blocks a store has.
pub fn block_count<S: Store>(store: &S, fs: Fs) -> u32 {
    let (mut least, mut most) = (0u32, MOST_BLOCKS);
    for _half in 0..32 {
        if least >= most {
            break;
        }
        let middle = least.saturating_add(most.saturating_sub(least) / 2);
        if has_block(store, fs, middle) {
            least = middle.saturating_add(1);
        } else {
            most = middle;
        }
    }
    least
}
