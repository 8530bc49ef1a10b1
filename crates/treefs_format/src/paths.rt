// Where the pointers stand that lead from an inode to a leaf.

ghost use Rattle.std.specs.Prelude.{◌≡◌, ◌<◌, ◌≤◌, ◌++◌, ◌+◌, length, map};
ghost use Rattle.treefs_format.specs.Paths.{first_leaf, height_of, last_beside, leaf_count, node_offset, place_in_tree, places, steps};

use arrayvec::ArrayVec;

/// How many leaves an inode may have.
pub const LEAVES: u32 = 262_209_296;

/// How many pointers to leaves stand in the inode itself.
const OWN_LEAVES: u32 = 16;

/// The height of the tree in which a leaf stands: 0 for one of the 16 to which the inode points itself, else 1 to 4.
pub fn height(leaf: u32) -> u32
    ensures { result ≡ height_of leaf }
{
    match leaf {
        0..16 => 0,
        16..143 => 1,
        143..16_272 => 2,
        16_272..2_064_655 => 3,
        _ => 4,
    }
}

/// The first leaf of the tree of a height, 0 to 4.
pub fn first_leaf(height: u32) -> u32
    requires { height ≤ 4 }
    ensures { result ≡ first_leaf height }
{
    match height {
        0 => 0,
        1 => 16,
        2 => 143,
        3 => 16_272,
        _ => 2_064_655,
    }
}

/// The offsets of the pointers that lead from an inode to a leaf, the last one first: the last one here stands in the inode, each
/// other in the node to which the one behind it points.
pub fn path(leaf: u32) -> ArrayVec<u16, 5>
    requires { leaf < leaf_count }
    ensures { result.items ≡ steps leaf }
{
    let mut offsets = ArrayVec::new();
    if leaf < OWN_LEAVES {
        offsets.push((48 + 4 * leaf) as u16);
        return offsets;
    }
    let height = height(leaf);
    let mut place = leaf - first_leaf(height);
    for _level in 0..height {
        offsets.push((4 + 4 * (place % 127)) as u16);
        place /= 127;
    }
    offsets.push((108 + 4 * height) as u16);
    offsets
}

/// The last leaf whose pointer stands in the same block as that of a leaf.
pub fn last_beside(leaf: u32) -> u32
    requires { leaf < leaf_count }
    ensures { result ≡ last_beside leaf }
{
    if leaf < OWN_LEAVES {
        OWN_LEAVES - 1
    } else {
        let place = leaf - first_leaf(height(leaf));
        leaf + (126 - place % 127)
    }
}
