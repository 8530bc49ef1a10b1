// One step of a path.

ghost use Rattle.std.specs.Prelude.{◌≡◌, ◌<◌, ◌≤◌, IfOk, Ok, length};
ghost use Rattle.treefs_lookup.specs.Readable.{readable};
ghost use Rattle.treefs_paths.specs.Ways.{Answers, IsFurther, IsShorter, followed, met, stepped, target_of};

use crate::names::{begins_with_slash, name_end, number_named, start_of};
use crate::way::Way;
use std::alloc::{AllocError, Global};
use treefs_edits::{Tree, lacks_memory};
use treefs_format::Kind;
use treefs_lookup::{Found, find_directory, find_inode, read_bytes};
use treefs_model::Fault;
use xn_state::Store;

/// How many bytes the target of a symbolic link has at most.
const TARGET_LEN: u64 = 4096;

/// The target of a symbolic link, and what stands behind the link.
fn target_of<S: Store>(
    alloc: Global,
    store: &S,
    tree: Tree,
    link: &Found,
    rest: &[u8],
) -> Result<Vec<u8>, AllocError>
    requires { link.now.fields.size ≤ 4096 }
    ensures { IfOk result (λ path. path.items ≡ target_of (readable (S.state_of store.now) tree.fs.number) link.now rest.now) }
{
    let mut path = vec![in alloc; 0u8; link.fields.size as usize]?;
    let _count = read_bytes(store, tree.fs, link, 0, &mut path);
    path.extend_from_slice(rest)?;
    Ok(path)
}

/// A path goes on with the target of a symbolic link. The faults are `Cycle` where it went through too many, and `TooLarge` where the target is too long.
fn follow<S: Store>(
    alloc: Global,
    store: &S,
    tree: Tree,
    way: &Way,
    link: &Found,
    rest: &[u8],
) -> Result<Way, Fault>
    ensures answers { Answers (followed (readable (S.state_of store.now) tree.fs.number) way.now link.now rest.now) result }
    ensures fewer { IfOk result (λ next. next.links < way.now.links) }
{
    if way.links == 0 {
        return Err(Fault::Cycle);
    }
    if link.fields.size > TARGET_LEN {
        return Err(Fault::TooLarge);
    }
    match target_of(alloc, store, tree, link, rest) {
        Ok(path) => Ok(Way {
            number: start_of(way.number, &path),
            rest: path,
            links: way.links - 1,
        }),
        Err(error) => Err(lacks_memory(error)),
    }
}

/// A path goes on with what is left of it.
fn go_on(alloc: Global, number: u32, rest: &[u8], links: u32) -> Result<Way, Fault>
    ensures answers { Answers (Ok (record { number = number; rest = rest.now; links = links })) result }
    ensures same { IfOk result (λ next. (next.links ≡ links) × (next.rest ≡ rest.now)) }
{
    match rest.to_vec(alloc) {
        Ok(rest) => Ok(Way {
            number,
            rest,
            links,
        }),
        Err(error) => Err(lacks_memory(error)),
    }
}

/// A path has come to the inode of a number. The fault is `NoEntry` where there is none; else those of `follow`.
fn meet<S: Store>(
    alloc: Global,
    store: &S,
    tree: Tree,
    way: &Way,
    number: u32,
    rest: &[u8],
    is_last_followed: bool,
) -> Result<Way, Fault>
    ensures further { IfOk result (λ next. IsFurther way.now rest.now next) }
    ensures answers { Answers (met (readable (S.state_of store.now) tree.fs.number) tree.top is_last_followed way.now number rest.now) result }
{
    let found = match find_inode(store, tree.fs, tree.top, number) {
        Ok(found) => found,
        Err(fault) => return Err(fault),
    };
    match found.kind {
        Kind::SymbolicLink if is_last_followed || !rest.is_empty() => {
            follow(alloc, store, tree, way, &found, rest)
        }
        Kind::SymbolicLink | Kind::Directory | Kind::File => go_on(alloc, number, rest, way.links),
    }
}

/// A path goes one slash or one name further. The faults are those of the directory, `BadName`, `NoEntry`; those of `follow`; and `Kernel` for want of memory.
pub fn step<S: Store>(
    alloc: Global,
    store: &S,
    tree: Tree,
    way: &Way,
    is_last_followed: bool,
) -> Result<Way, Fault>
    requires { 0 < length way.now.rest }
    ensures shorter { IfOk result (λ next. IsShorter way.now next) }
    ensures answers { Answers (stepped (readable (S.state_of store.now) tree.fs.number) tree.top is_last_followed way.now) result }
{
    let path = way.rest.as_slice();
    if begins_with_slash(path) {
        return match find_directory(store, tree.fs, tree.top, way.number) {
            Ok(_) => go_on(alloc, way.number, &path[1..], way.links),
            Err(fault) => Err(fault),
        };
    }
    let end = name_end(path);
    match number_named(store, tree, way.number, &path[..end]) {
        Ok(number) => meet(
            alloc,
            store,
            tree,
            way,
            number,
            &path[end..],
            is_last_followed,
        ),
        Err(fault) => Err(fault),
    }
}
