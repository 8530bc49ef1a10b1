// Which pointers of the trees of an inode are dropped next.

ghost use Rattle.std.specs.Prelude.{◌≡◌, ◌<◌, ◌≤◌, ◌^◌, ◌+◌, ◌*◌};
ghost use Rattle.treefs_byte_plans.specs.Cuts.{cut_in, cut_place, kept_below, next_cut, own_cut, tree_cut};
ghost use Rattle.treefs_lookup.specs.Readable.{readable};
ghost use Rattle.treefs_model.specs.Reading.{pointed};

use edit_list::Fs;
use treefs_format::paths::first_leaf;
use treefs_lookup::pointer_at;
use xn_state::Store;

/// How many pointers a node has.
pub(crate) const POINTERS: u32 = 127;

/// Pointers of a node that are dropped: all from a place on.
#[derive(Clone, Copy)]
pub struct Cut {
    /// The node's block.
    pub block: u32,
    /// The place of the first of them.
    pub place: u8,
}

/// How many leaves stand below a block of a height, 0 for a leaf.
fn leaves_below(height: u32) -> u32
    requires { height ≤ 3 }
    ensures leaves { result ≡ 127 ^ height }
    ensures some { 0 < result }
{
    match height {
        0 => 1,
        1 => 127,
        2 => 16_129,
        _ => 2_048_383,
    }
}

/// The pointer at a place of a node.
pub(crate) fn child<S: Store>(store: &S, fs: Fs, block: u32, place: u32) -> u32
    requires { place < 127 }
    ensures { result ≡ pointed (readable (S.state_of store.now) fs.number) block (4 + 4 * place) }
{
    pointer_at(store, fs, block, (4 + 4 * place) as u16)
}

/// The pointers of a node from a place on, if there are any.
fn own_cut<S: Store>(store: &S, fs: Fs, block: u32, place: u32) -> Option<Cut>
    ensures { result ≡ own_cut (readable (S.state_of store.now) fs.number) block place }
{
    for other in place..POINTERS {
        if child(store, fs, block, other) != 0 {
            return Some(Cut {
                block,
                place: place as u8,
            });
        }
    }
    None
}

/// The place of the first pointer that goes, of a node that keeps so many leaves, and has so many below each child.
fn cut_place(keep: u32, span: u32) -> u32
    requires { 0 < span }
    ensures { result ≡ cut_place keep span }
{
    if keep % span == 0 {
        keep / span
    } else {
        keep / span + 1
    }
}

/// How many leaves a child keeps.
fn kept_below(keep: u32, span: u32, place: u32) -> u32
    requires { 0 < span }
    ensures { result ≡ kept_below keep span place }
{
    if place == keep / span { keep % span } else { 0 }
}

/// The next pointers that are dropped of a tree of a height, 0 for a leaf, so that so many of its leaves are kept.
fn cut_in<S: Store>(store: &S, fs: Fs, height: u32, block: u32, keep: u32) -> Option<Cut>
    requires { height ≤ 4 }
    ensures { result ≡ cut_in (readable (S.state_of store.now) fs.number) height block keep }
{
    if height == 0 {
        return None;
    }
    let span = leaves_below(height - 1);
    for place in keep / span..POINTERS {
        let below = child(store, fs, block, place);
        if below == 0 {
            continue;
        }
        let kept = kept_below(keep, span, place);
        if let Some(cut) = cut_in(store, fs, height - 1, below, kept) {
            return Some(cut);
        }
    }
    own_cut(store, fs, block, cut_place(keep, span))
}

/// The next pointers that are dropped of the tree of a height of an inode that keeps so many leaves.
fn tree_cut<S: Store>(store: &S, fs: Fs, inode: u32, keep: u32, height: u32) -> Option<Cut>
    requires low { 1 ≤ height }
    requires high { height ≤ 4 }
    ensures { result ≡ tree_cut (readable (S.state_of store.now) fs.number) inode keep height }
{
    let tree = pointer_at(store, fs, inode, (108 + 4 * height) as u16);
    if tree == 0 {
        return None;
    }
    let kept = keep.saturating_sub(first_leaf(height));
    cut_in(store, fs, height, tree, kept)
}

/// The next pointers that are dropped of the trees of an inode that keeps so many leaves: those of the lowest nodes first, from the first leaf on, in
/// the highest tree first.
pub fn next_cut<S: Store>(store: &S, fs: Fs, inode: u32, keep: u32) -> Option<Cut>
    ensures { result ≡ next_cut (readable (S.state_of store.now) fs.number) inode keep }
{
    if let Some(cut) = tree_cut(store, fs, inode, keep, 4) {
        return Some(cut);
    }
    if let Some(cut) = tree_cut(store, fs, inode, keep, 3) {
        return Some(cut);
    }
    if let Some(cut) = tree_cut(store, fs, inode, keep, 2) {
        return Some(cut);
    }
    tree_cut(store, fs, inode, keep, 1)
}
