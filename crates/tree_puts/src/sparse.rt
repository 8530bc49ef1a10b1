// Files with holes are put: parts of zeros are left out, and become holes.

ghost use Rattle.std.specs.Prelude.{◌≡◌, ◌≤◌, IfOk, length, take};
ghost use Rattle.tree_puts.specs.Actions.{Calls, Performs};
ghost use Rattle.tree_puts.specs.Actions.Action.{writes};
ghost use Rattle.tree_puts.specs.Arriving.{WritesEach, WritesHoles};
ghost use Rattle.tree_puts.specs.Holes.{are_zeros, end_at, hole_writes, is_open_with, is_piece_open, is_sparse, piece_stretches, stretch_at};

use crate::arriving::{Arriving, Goods};
use crate::pieces::{Incoming, read_piece};
use flush_store::FlushStore;
use host_trees::{Attributes, Host};
use tree_lines::{Fault, Opened, Target, system};
use treefs_format::inodes::CONTENT_LEN;

/// Zeros are left out in parts of so many bytes.
const PART: usize = 4_096;

/// A file of fewer bytes is put as it is.
const LEAST: u64 = 65_536;

/// Whether a file of the system has holes that are worth it.
pub fn is_sparse(attributes: &Attributes) -> bool
    ensures { result ≡ is_sparse attributes.now }
{
    attributes.size >= LEAST && attributes.held.saturating_add(PART as u64) <= attributes.size
}

/// Whether these are zeros alone.
fn are_zeros(bytes: &[u8]) -> bool
    ensures { result ≡ are_zeros bytes.now }
{
    bytes.iter().all(|byte| *byte == 0)
}

/// Writes some of the bytes that stand from one on of an inode that was begun.
fn write_run<H: Host, S: FlushStore + Drop>(
    arriving: &Arriving<H>,
    volume: &mut Opened<S>,
    begun: (Goods, u32),
    written: (u64, &[u8]),
    ends: (usize, usize),
) -> Result<(), Fault>
    ensures types { S.types_of volume.new.session.store ≡ S.types_of volume.old.session.store }
    ensures folder { volume.new.folder ≡ volume.old.folder }
    ensures told { volume.new.told ≡ volume.old.told }
    ensures does { ends.1 ≤ length written.entry.1.now →
        let stretch = stretch_at written.entry.0 written.entry.1.now ends in
        Performs (S.types_of volume.old.session.store) volume.old.folder (Calls (writes begun.entry.1 stretch.0 stretch.1) result)
        (S.state_of volume.old.session.store) (S.state_of volume.new.session.store) volume.old.session.volume volume.new.session.volume }
{
    let ((goods, block), (at, bytes), (from, to)) = (begun, written, ends);
    let run = bytes.get(from..to).unwrap_or(&[]);
    let target = Target::Begun(block, at.saturating_add(from as u64));
    volume.write_all(arriving.alloc, goods.path, target, run)
}

/// Writes the bytes of an inode that was begun which stand from one on, but for its first ones and for parts that are zeros. Answers whether the last part was
/// left out.
fn write_piece<H: Host, S: FlushStore + Drop>(
    arriving: &Arriving<H>,
    volume: &mut Opened<S>,
    begun: (Goods, u32),
    written: (u64, &[u8]),
) -> Result<bool, Fault>
    ensures types { S.types_of volume.new.session.store ≡ S.types_of volume.old.session.store }
    ensures folder { volume.new.folder ≡ volume.old.folder }
    ensures told { volume.new.told ≡ volume.old.told }
    ensures does { Performs (S.types_of volume.old.session.store) volume.old.folder (WritesEach begun.entry.1 (piece_stretches written.entry.0
        written.entry.1.now) result)
        (S.state_of volume.old.session.store) (S.state_of volume.new.session.store) volume.old.session.volume volume.new.session.volume }
    ensures left { IfOk result (λ left. left ≡ is_piece_open written.entry.0 written.entry.1.now) }
{
    let (at, bytes) = written;
    let mut from = if at == 0 { CONTENT_LEN } else { 0 };
    let mut to = 0usize;
    for part in bytes.chunks(PART) {
        let behind = to.saturating_add(part.len());
        if are_zeros(part) {
            write_run(arriving, volume, begun, (at, bytes), (from, to))?;
            from = behind;
        }
        to = behind;
    }
    write_run(arriving, volume, begun, (at, bytes), (from, to))?;
    Ok(from == to)
}

/// Writes the next piece, if it has bytes. Answers whether the last part that has come was left out, of which that is told for those before.
fn write_next<H: Host, S: FlushStore + Drop>(
    arriving: &Arriving<H>,
    volume: &mut Opened<S>,
    begun: (Goods, u32),
    written: (u64, &[u8]),
    was_open: bool,
) -> Result<bool, Fault>
    ensures types { S.types_of volume.new.session.store ≡ S.types_of volume.old.session.store }
    ensures folder { volume.new.folder ≡ volume.old.folder }
    ensures told { volume.new.told ≡ volume.old.told }
    ensures does { Performs (S.types_of volume.old.session.store) volume.old.folder
        (WritesEach begun.entry.1 (hole_writes written.entry.0 written.entry.1.now) result)
        (S.state_of volume.old.session.store) (S.state_of volume.new.session.store) volume.old.session.volume volume.new.session.volume }
    ensures left { IfOk result (λ left. left ≡ is_open_with was_open written.entry.0 written.entry.1.now) }
{
    let (_, bytes) = written;
    if bytes.is_empty() {
        return Ok(was_open);
    }
    write_piece(arriving, volume, begun, written)
}

/// Lets an inode that was begun have so many bytes, where zeros at its end were left out.
fn end_at<H: Host, S: FlushStore + Drop>(
    arriving: &Arriving<H>,
    volume: &mut Opened<S>,
    begun: (Goods, u32),
    size: u64,
) -> Result<(), Fault>
    ensures types { S.types_of volume.new.session.store ≡ S.types_of volume.old.session.store }
    ensures folder { volume.new.folder ≡ volume.old.folder }
    ensures told { volume.new.told ≡ volume.old.told }
    ensures does { Performs (S.types_of volume.old.session.store) volume.old.folder (WritesEach begun.entry.1 (end_at size) result)
        (S.state_of volume.old.session.store) (S.state_of volume.new.session.store) volume.old.session.volume volume.new.session.volume }
{
    let (goods, block) = begun;
    if size <= CONTENT_LEN as u64 {
        return Ok(());
    }
    let target = Target::Begun(block, size - 1);
    volume.write_all(arriving.alloc, goods.path, target, &[0])
}

/// Writes all bytes of an inode that was begun with the first ones, of which the first piece was read, but for parts that are zeros: these become holes.
pub fn write_parts<H: Host, S: FlushStore + Drop, I: Incoming<H>>(
    arriving: &mut Arriving<H>,
    volume: &mut Opened<S>,
    goods: Goods,
    block: u32,
    incoming: &mut I,
    piece: &mut [u8],
    first: usize,
) -> Result<(), Fault>
    ensures types { S.types_of volume.new.session.store ≡ S.types_of volume.old.session.store }
    ensures folder { volume.new.folder ≡ volume.old.folder }
    ensures told { volume.new.told ≡ volume.old.told }
    ensures linked { arriving.new.linked ≡ arriving.old.linked }
    ensures sources { arriving.new.sources ≡ arriving.old.sources }
    ensures does { 384 ≤ length piece.old → first ≤ length piece.old →
        Performs (S.types_of volume.old.session.store) volume.old.folder (WritesHoles block (length piece.old) (take first piece.old) result)
        (S.state_of volume.old.session.store) (S.state_of volume.new.session.store) volume.old.session.volume volume.new.session.volume }
{
    let alloc = arriving.alloc;
    let (mut at, mut count, mut is_open) = (0u64, first, false);
    for _turn in 0..u64::MAX {
        let bytes = piece.get(..count).unwrap_or(&[]);
        is_open = write_next(arriving, volume, (goods, block), (at, bytes), is_open)?;
        arriving.progress.add_bytes(arriving.host, alloc, count);
        at = at.saturating_add(count as u64);
        if count < piece.len() {
            break;
        }
        count = match read_piece(arriving.host, incoming, piece) {
            Ok(count) => count,
            Err(error) => return Err(system(alloc, goods.source.as_bytes(), error)),
        };
    }
    if is_open {
        end_at(arriving, volume, (goods, block), at)?;
    }
    Ok(())
}
