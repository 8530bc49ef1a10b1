// The head of an image: its length, and the mark and the count in block 0.

ghost use Rattle.std.specs.Prelude.{◌≡◌, ◌<◌, ◌≤◌, ◌*◌, length, None};
ghost use Rattle.xn_model.specs.Images.{most_blocks};
ghost use Rattle.image_model.specs.Walk.{count_of, head_fault};

use crate::blocks::block;
use store_types::{BLOCK_LEN, ImageFault, MAX_BLOCKS, MIN_BLOCKS};
use templates::{count_of, mark_is_right};

/// What is wrong with the length, the mark or the count.
#[tactic(auto, unfolding(image_model::specs::Walk::head_fault, image_model::specs::Walk::has_length))]
pub fn head_fault(image: &[u8]) -> Option<ImageFault>
    ensures value { result ≡ head_fault image.now }
    ensures blocks { result ≡ None → 0 < count_of image.now }
    ensures long { result ≡ None → 16384 ≤ length image.now }
    ensures small { result ≡ None → length image.now ≤ 512 * most_blocks }
{
    let length = image.len();
    let least = BLOCK_LEN * MIN_BLOCKS as usize;
    let greatest = BLOCK_LEN * MAX_BLOCKS as usize;
    if length % BLOCK_LEN != 0 || length < least || greatest < length {
        return Some(ImageFault::BadLength);
    }
    let (blocks, _) = image.as_chunks::<BLOCK_LEN>();
    let root = block(blocks, 0);
    if !mark_is_right(root) {
        return Some(ImageFault::BadMark);
    }
    if count_of(root) as usize != blocks.len() {
        return Some(ImageFault::BadCount);
    }
    None
}
