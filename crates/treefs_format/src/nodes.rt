// Node blocks: the type of what they point to, and 127 pointers.

ghost use Rattle.std.specs.Prelude.{◌≡◌};
ghost use Rattle.treefs_format.specs.Nodes.{child_type_of, node_bytes};

use store_types::BLOCK_LEN;

/// How many pointers a node has.
pub const NODE_POINTERS: usize = 127;

/// The block of a new node, which points to nothing.
pub fn new_node(child_type: u8) -> [u8; BLOCK_LEN]
    ensures { result ≡ node_bytes child_type }
{
    let mut block = [0; BLOCK_LEN];
    block[0] = child_type;
    block
}

/// The type of the blocks to which a node points.
pub fn child_type(block: &[u8; BLOCK_LEN]) -> u8
    ensures { result ≡ child_type_of block.now }
{
    block[0]
}
