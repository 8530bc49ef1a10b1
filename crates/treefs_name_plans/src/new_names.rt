// A new name in a directory.

ghost use Rattle.std.specs.Prelude.{◌≡◌, ◌<◌, ◌≤◌, ◌-◌, ℕ, List, Ok, length, true, IfOk, OnOk};
ghost use Rattle.xn_model.specs.Lives.{StoreState};
ghost use Rattle.treefs_model.specs.Files.{and_then};
ghost use Rattle.treefs_lookup.specs.Names.{place_of};
ghost use Rattle.treefs_format.specs.Names.{is_name};
ghost use Rattle.treefs_format.specs.Paths.{leaf_count, steps};
ghost use Rattle.treefs_lookup.specs.Readable.{readable};
ghost use Rattle.treefs_lookup.specs.Walks.{reach};
ghost use Rattle.treefs_lookup.specs.declared.places.NamePlace.{NamePlace};
ghost use Rattle.treefs_name_plans.specs.NewNames.{IsWithinBlocks, addition_at, addition_for, addition_parts, directory_for, free_name, made_at, place_in, taken_in};

use crate::addition::{Addition, NewBucket, OldBucket};
use crate::slots::narrow;
use store_types::BLOCK_LEN;
use treefs_edits::Tree;
use treefs_format::inodes::CONTENT;
use treefs_format::is_name;
use treefs_lookup::{
    Found, NamePlace, Slot, find_directory, find_leaf, look_for_name, read_block, read_key,
};
use treefs_model::Fault;
use xn_state::Store;

/// The place of a new name begins within its block, or is a leaf that is to be made.
pub fn places_are_within()
    ensures { (state : StoreState) (fs : ℕ) (key : List ℕ) (inode : ℕ) (name : List ℕ) (place : NamePlace) → place_of state fs key inode name ≡ Ok place →
        IsWithinBlocks (readable state fs) place }
{}

/// A name has at most 255 bytes.
pub fn names_are_short()
    ensures { (name : List ℕ) → is_name name ≡ true → length name ≤ 255 }
{}

/// The directory that is to have a name. The faults are those of the directory, and `BadName`.
pub fn find_directory_for<S: Store>(
    store: &S,
    tree: Tree,
    directory: u32,
    name: &[u8],
) -> Result<Found, Fault>
    ensures found { result ≡ directory_for (readable (S.state_of store.now) tree.fs.number) tree.top directory name.now }
    ensures short { OnOk result (length name.now ≤ 255) }
{
    names_are_short();
    let found = find_directory(store, tree.fs, tree.top, directory)?;
    if !is_name(name) {
        return Err(Fault::BadName);
    }
    Ok(found)
}

/// A name of a directory, which has it or not.
#[derive(Clone, Copy)]
pub struct LookedUp {
    /// The inode block of the directory.
    pub directory: u32,
    /// The record that has the name.
    pub taken: Option<Slot>,
    /// Where it would go as a new one. The faults are `Full`, and `TooLarge`.
    pub place: Result<NamePlace, Fault>,
}

/// A name of a directory. The faults are those of the directory, and `BadName`.
pub fn look_up<S: Store>(
    store: &S,
    tree: Tree,
    directory: u32,
    name: &[u8],
) -> Result<LookedUp, Fault>
    ensures directory { and_then result (λ found. Ok found.directory)
        ≡ and_then (directory_for (readable (S.state_of store.now) tree.fs.number) tree.top directory name.now) (λ found. Ok found.block) }
    ensures taken { IfOk result (λ found. taken_in (readable (S.state_of store.now) tree.fs.number) tree.top directory name.now ≡ Ok found.taken) }
    ensures place { IfOk result (λ found. found.place ≡ place_in (S.state_of store.now) tree.fs.number tree.top directory name.now) }
    ensures within { IfOk result (λ found. IfOk found.place (IsWithinBlocks (readable (S.state_of store.now) tree.fs.number))) }
    ensures short { OnOk result (length name.now ≤ 255) }
{
    places_are_within();
    let block = find_directory_for(store, tree, directory, name)?.block;
    let Some(key) = read_key(store, tree.fs, tree.top) else {
        unreachable!();
    };
    let look = look_for_name(store, tree.fs, &key, block, name);
    Ok(LookedUp {
        directory: block,
        taken: look.taken,
        place: look.place,
    })
}

/// A name that a directory does not have yet. The faults are those of the directory, `BadName`, and `Exists`.
pub fn find_free_name<S: Store>(
    store: &S,
    tree: Tree,
    directory: u32,
    name: &[u8],
) -> Result<LookedUp, Fault>
    ensures free { and_then result (λ found. Ok found.directory) ≡ free_name (readable (S.state_of store.now) tree.fs.number) tree.top directory name.now }
    ensures place { IfOk result (λ found. found.place ≡ place_in (S.state_of store.now) tree.fs.number tree.top directory name.now) }
    ensures within { IfOk result (λ found. IfOk found.place (IsWithinBlocks (readable (S.state_of store.now) tree.fs.number))) }
    ensures short { OnOk result (length name.now ≤ 255) }
{
    let found = look_up(store, tree, directory, name)?;
    match found.taken {
        None => Ok(found),
        Some(_) => Err(Fault::Exists),
    }
}

/// The bytes of a block that may be read; of another zeros.
fn bytes_of<S: Store>(store: &S, tree: Tree, block: u32) -> [u8; BLOCK_LEN]
    requires { 0 < length (readable (S.state_of store.now) tree.fs.number block) }
    ensures { result ≡ readable (S.state_of store.now) tree.fs.number block }
{
    match read_block(store, tree.fs, block) {
        Some(bytes) => *bytes,
        None => unreachable!(),
    }
}

/// The bucket of a directory that is to be made, and what its path lacks.
fn new_bucket<S: Store>(store: &S, tree: Tree, directory: u32, bucket: u32) -> NewBucket
    requires { bucket ≤ leaf_count }
    ensures { Addition.Made result ≡ made_at tree.node_type (bucket - 1)
        (reach (readable (S.state_of store.now) tree.fs.number) directory (steps (bucket - 1))) }
{
    let leaf = bucket.saturating_sub(1);
    let reach = find_leaf(store, tree.fs, directory, leaf);
    NewBucket {
        owner: reach.block,
        leaf,
        missing: reach.missing,
        node_type: tree.node_type,
    }
}

/// What a place for a record takes, in the directory with this inode block.
fn addition_at<S: Store>(store: &S, tree: Tree, directory: u32, place: NamePlace) -> Addition
    requires { IsWithinBlocks (readable (S.state_of store.now) tree.fs.number) place }
    ensures { result ≡ addition_at (readable (S.state_of store.now) tree.fs.number) tree.node_type directory place }
{
    match place {
        NamePlace::DeadRecord { block, offset } | NamePlace::Behind { block, offset } => {
            Addition::Behind(block, narrow(store, tree.fs, block, offset))
        }
        NamePlace::Rewritten {
            block,
            start,
            offset,
        } => Addition::Rewritten(OldBucket {
            block,
            in_inode: start == CONTENT,
            bytes: bytes_of(store, tree, block),
            offset: narrow(store, tree.fs, block, offset),
        }),
        NamePlace::NewBucket { bucket } => {
            Addition::Made(new_bucket(store, tree, directory, bucket))
        }
    }
}

/// Where the record of a new name goes in the directory with this inode block, by the place that was found for it. The faults are `Full`, and
/// `TooLarge`.
pub fn find_addition<S: Store>(
    store: &S,
    tree: Tree,
    directory: u32,
    place: Result<NamePlace, Fault>,
) -> Result<Addition, Fault>
    requires { IfOk place (IsWithinBlocks (readable (S.state_of store.now) tree.fs.number)) }
    ensures { result ≡ addition_for (readable (S.state_of store.now) tree.fs.number) tree.node_type directory place }
{
    Ok(addition_at(store, tree, directory, place?))
}

/// In which blocks how many entries may come to be pending for an addition to the directory with this inode block.
pub fn addition_parts(addition: &Addition, directory: u32) -> [(u32, u32); 2]
    ensures { result ≡ addition_parts addition.now directory }
{
    match addition {
        Addition::Behind(block, _) => [(*block, 3), (directory, 3)],
        Addition::Rewritten(old) => [(old.block, 3), (directory, 3)],
        Addition::Made(made) => [(made.owner, 2), (directory, 4)],
    }
}
