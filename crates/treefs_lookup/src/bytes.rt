// Bytes of files and symbolic links.

ghost use Rattle.std.specs.Prelude.{◌≡◌, ◌+◌, ◌<◌, ◌≤◌, ◌++◌, [], MatchOption, drop, length, map, slice_index};
ghost use Rattle.std.specs.List.{range_with_len};
ghost use Rattle.treefs_format.specs.Leaves.{greatest_size};
ghost use Rattle.treefs_format.specs.Paths.{leaf_count};
ghost use Rattle.treefs_lookup.specs.Bytes.{bytes_from, count_from, part_left, read_count, read_into};
ghost use Rattle.treefs_lookup.specs.Inodes.{file_found, link_found};
ghost use Rattle.treefs_lookup.specs.Readable.{readable};
ghost use Rattle.treefs_model.specs.Reading.{leaf_block, leaf_byte};

use crate::blocks::read_block;
use crate::inodes::{Found, find_file, find_link};
use crate::paths::{OWN_LEAVES, leaf_block};
use edit_list::Fs;
use store_types::BLOCK_LEN;
use treefs_format::inodes::{CONTENT, CONTENT_LEN};
use treefs_format::pointers;
use treefs_format::sizes::{GREATEST_SIZE, LEAF_LEN};
use treefs_model::Fault;
use xn_state::Store;

/// Copies bytes from one on.
fn copy_bytes(bytes: &[u8; BLOCK_LEN], at: usize, part: &mut [u8])
    requires { at + length part.old ≤ 512 }
    ensures { part.new ≡ map (slice_index bytes.now) (range_with_len at (length part.old)) }
{
    part.copy_from_slice(&bytes[at..at + part.len()]);
}

/// Copies bytes of a block; zeros of one that may not be read.
fn copy_block<S: Store>(store: &S, fs: Fs, block: u32, at: usize, part: &mut [u8])
    requires { at + length part.old ≤ 512 }
    ensures { part.new ≡ map (slice_index (readable (S.state_of store.now) fs.number block)) (range_with_len at (length part.old)) }
{
    match read_block(store, fs, block) {
        Some(bytes) => copy_bytes(bytes, at, part),
        None => part.fill(0),
    }
}

/// Copies bytes of a leaf; zeros where there is none.
fn copy_leaf<S: Store>(store: &S, fs: Fs, block: u32, at: usize, part: &mut [u8])
    requires { at + length part.old ≤ 512 }
    ensures { part.new ≡ map (leaf_byte (readable (S.state_of store.now) fs.number) block) (range_with_len at (length part.old)) }
{
    if block == 0 {
        part.fill(0);
        return;
    }
    copy_block(store, fs, block, at, part);
}

/// How many bytes of a content stand together from one on: in the inode, or in a leaf.
pub fn part_left(byte: u64) -> u64
    ensures { result ≡ part_left byte }
{
    if byte < CONTENT_LEN as u64 {
        CONTENT_LEN as u64 - byte
    } else {
        LEAF_LEN - byte % LEAF_LEN
    }
}

/// The block of a leaf of an inode with these bytes, which are not read again where they have the pointer; 0 for none.
fn leaf_below<S: Store>(
    store: &S,
    fs: Fs,
    inode: u32,
    own: Option<&[u8; BLOCK_LEN]>,
    leaf: u32,
) -> u32
    requires own { MatchOption own (readable (S.state_of store.now) fs.number inode ≡ []) (λ bytes. readable (S.state_of store.now) fs.number inode ≡ bytes.now) }
    requires there { leaf < leaf_count }
    ensures { result ≡ leaf_block (readable (S.state_of store.now) fs.number) inode leaf }
{
    match own {
        Some(bytes) if leaf < OWN_LEAVES && inode != 0 => {
            pointers::pointer_at(bytes, 48 + 4 * leaf as usize)
        }
        _ => leaf_block(store, fs, inode, leaf),
    }
}

/// Copies bytes that stand together of the content of an inode with these bytes.
#[inline(always)]
pub(crate) fn copy_part<S: Store>(
    store: &S,
    fs: Fs,
    inode: u32,
    own: Option<&[u8; BLOCK_LEN]>,
    at: u64,
    part: &mut [u8],
)
    requires own { MatchOption own (readable (S.state_of store.now) fs.number inode ≡ []) (λ bytes. readable (S.state_of store.now) fs.number inode ≡ bytes.now) }
    requires low { at < greatest_size }
    requires within { length part.old ≤ part_left at }
    ensures { part.new ≡ bytes_from (readable (S.state_of store.now) fs.number) inode at (length part.old) }
{
    if at < CONTENT_LEN as u64 {
        copy_block(store, fs, inode, CONTENT + at as usize, part);
    } else {
        let block = leaf_below(store, fs, inode, own, (at / LEAF_LEN) as u32);
        copy_leaf(store, fs, block, (at % LEAF_LEN) as usize, part);
    }
}

/// Reads the bytes of a file or a symbolic link from one on, up to its size, and answers how many there were. Holes are zeros.
pub fn read_bytes<S: Store>(store: &S, fs: Fs, file: &Found, at: u64, bytes: &mut [u8]) -> usize
    ensures count { result ≡ count_from file.now at (length bytes.old) }
    ensures bytes { bytes.new ≡ bytes_from (readable (S.state_of store.now) fs.number) file.now.block at result ++ drop result bytes.old }
{
    let end = file.fields.size.min(GREATEST_SIZE);
    let count = (bytes.len() as u64).min(end.saturating_sub(at)) as usize;
    let own = read_block(store, fs, file.block);
    let mut done = 0;
    while done < count {
        let from = at + done as u64;
        let length = part_left(from).min((count - done) as u64) as usize;
        let part = &mut bytes[done..done + length];
        copy_part(store, fs, file.block, own, from, part);
        done += length;
    }
    count
}

/// Reads the file or symbolic link of a number from a byte on, up to its size, and answers how many bytes there were. The faults are `NoEntry` and
/// `IsDir`; then nothing is read.
pub fn read<S: Store>(
    store: &S,
    fs: Fs,
    top: u32,
    number: u32,
    at: u64,
    bytes: &mut [u8],
) -> Result<usize, Fault>
    ensures count { result ≡ read_count (file_found (readable (S.state_of store.now) fs.number) top number) at (length bytes.old) }
    ensures bytes { bytes.new ≡ read_into (readable (S.state_of store.now) fs.number)
        (file_found (readable (S.state_of store.now) fs.number) top number) at bytes.old }
{
    let file = find_file(store, fs, top, number)?;
    Ok(read_bytes(store, fs, &file, at, bytes))
}

/// Reads the symbolic link of a number, as `read` does. The faults are `NoEntry` and `NotLink`.
pub fn read_link<S: Store>(
    store: &S,
    fs: Fs,
    top: u32,
    number: u32,
    at: u64,
    bytes: &mut [u8],
) -> Result<usize, Fault>
    ensures count { result ≡ read_count (link_found (readable (S.state_of store.now) fs.number) top number) at (length bytes.old) }
    ensures bytes { bytes.new ≡ read_into (readable (S.state_of store.now) fs.number)
        (link_found (readable (S.state_of store.now) fs.number) top number) at bytes.old }
{
    let link = find_link(store, fs, top, number)?;
    Ok(read_bytes(store, fs, &link, at, bytes))
}
