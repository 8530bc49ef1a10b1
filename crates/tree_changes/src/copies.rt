// One file or symbolic link is copied.

ghost use Rattle.std.specs.Prelude.{◌≡◌, ◌≤◌, [], IfOk, MatchResult, OnErr, OnOk, length, true, take, vec_len};
ghost use Rattle.tree_lines.specs.Answers.{Answers};
ghost use Rattle.tree_lines.specs.Contents.{bytes_seen};
ghost use Rattle.tree_lines.specs.declared.reason.Reason.{Reason};
ghost use Rattle.tree_changes.specs.CopiedFiles.{CopiesFile, LeavesFile};
ghost use Rattle.tree_changes.specs.Copies.{Copies, CopiesAll, CopiesBytes, CopiesContent, CopiesLink, CopiesNext, IsUncopied};
ghost use Rattle.tree_changes.specs.Copies.{LeavesBytes, LeavesContent, LeavesCopy, LeavesSome, LeavesStretch, NamesCopy};
ghost use Rattle.tree_changes.specs.Files.{MtimeIn};
ghost use Rattle.tree_changes.specs.KeptCopies.{Forgets, Keeps, KeepsSame, LacksRoom, copy_kept, is_kept};
ghost use Rattle.tree_changes.specs.Paths.{IsRefused};

use crate::attributes::attributes_of;
use crate::linking::put_name;
use flush_store::FlushStore;
use std::alloc::{AllocError, Global};
use std::collections::BTreeMap;
use tree_lines::{Begin, Change, Commit, Fault, Node, Opened, Place, Put, Target, View, at_bytes};
use treefs_edits::fronts::front;
use treefs_format::Kind;

/// So many bytes are copied at once.
const PIECE: usize = 262_144;

/// How many bytes of a content stand in its inode's block.
const HEAD: usize = 384;

/// A copy under way.
#[derive(Drop)]
pub struct Copying {
    /// Bytes of the piece that is being copied.
    pub piece: Vec<u8>,
    /// By the numbers of what has several names, those of their copies.
    copied: BTreeMap<u32, u32>,
    /// By the numbers of these copies, those of what they are copies of.
    sources: BTreeMap<u32, u32>,
    /// Whether times are kept, and links among what is copied.
    pub is_recursive: bool,
}

/// A node that is copied, with its path; and the place where its copy goes, with that path.
#[derive(Clone, Copy, Debug)]
pub struct Copied<'a> {
    pub node: Node,
    pub path: &'a [u8],
    pub place: Place<'a>,
    pub to: &'a [u8],
}

impl Copying {
    /// Nothing is copied yet.
    pub fn begin(alloc: Global, is_recursive: bool) -> Result<Copying, AllocError>
        ensures piece { IfOk result (λ copying. vec_len copying.piece ≡ 262144) }
        ensures none { IfOk result (λ copying. (copying.copied.entries ≡ []) × (copying.sources.entries ≡ [])) }
        ensures recursive { IfOk result (λ copying. copying.is_recursive ≡ is_recursive) }
    {
        Ok(Copying {
            piece: vec![in alloc; 0u8; PIECE]?,
            copied: BTreeMap::new(alloc),
            sources: BTreeMap::new(alloc),
            is_recursive,
        })
    }

    /// The number of the copy of a node that has several names, if it was copied under another one.
    fn copy_of(&self, node: &Node) -> Option<u32>
        ensures { result ≡ copy_kept self.now node.now }
    {
        if self.is_recursive && node.links > 1 {
            self.copied.get(&node.number).copied()
        } else {
            None
        }
    }

    /// Keeps the number of a copy, to link it where its node is met again.
    fn note(&mut self, node: &Node, number: u32) -> Result<(), AllocError>
        ensures ok { OnOk result (Keeps self.old self.new node.now number) }
        ensures err { OnErr result ((is_kept self.old node.now ≡ true) × LacksRoom self.old self.new node.now number) }
        ensures piece { self.new.piece ≡ self.old.piece }
        ensures recursive { self.new.is_recursive ≡ self.old.is_recursive }
    {
        if self.is_recursive && node.links > 1 {
            let _before = self.copied.insert(node.number, number)?;
            let _before = self.sources.insert(number, node.number)?;
        }
        Ok(())
    }

    /// Forgets a copy of which a name is taken by something else: it may have no other, so that it can't be linked.
    pub fn forget(&mut self, number: u32)
        ensures forgets { Forgets self.old self.new number }
        ensures piece { self.new.piece ≡ self.old.piece }
        ensures recursive { self.new.is_recursive ≡ self.old.is_recursive }
    {
        if let Some(source) = self.sources.remove(&number) {
            let _number = self.copied.remove(&source);
        }
    }
}

/// The first bytes of a content, as many as stand in its inode's block.
fn head_of(bytes: &[u8]) -> &[u8]
    ensures short { length result.now ≤ 384 }
    ensures first { result.now ≡ take 384 bytes.now }
{
    &bytes[..bytes.len().min(HEAD)]
}

/// Reads bytes of a file from one on, as many as there is room for, and answers those that there were.
fn read_from<'p, S: FlushStore + Drop>(
    opened: &Opened<S>,
    alloc: Global,
    copied: &Copied,
    at: u64,
    room: &'p mut [u8],
) -> Result<&'p [u8], Fault>
    ensures few { IfOk result (λ bytes. length bytes.now ≤ length room.old) }
    ensures read { MatchResult result
        (λ bytes. bytes_seen (S.state_of opened.now.session.store) opened.now.session.volume copied.now.node.number at (length room.old) ≡ Ok bytes.now)
        (λ fault. (reason : Reason)
        × (bytes_seen (S.state_of opened.now.session.store) opened.now.session.volume copied.now.node.number at (length room.old) ≡ Err reason)) }
{
    match View::read(&opened.session, copied.node.number, at, room) {
        Ok(count) => Ok(front(room, count)),
        Err(reason) => Err(at_bytes(alloc, copied.path, reason)),
    }
}

/// Copies the bytes of a file that stand in blocks from one on, at most a piece, to an inode that was begun, and answers the place behind them; nothing where
/// only a hole follows, or the file ends.
fn copy_stretch<S: FlushStore + Drop>(
    opened: &mut Opened<S>,
    alloc: Global,
    copied: &Copied,
    place: (u32, u64),
    piece: &mut [u8],
) -> Result<Option<u64>, Fault>
    ensures types { S.types_of opened.new.session.store ≡ S.types_of opened.old.session.store }
    ensures folder { opened.new.folder ≡ opened.old.folder }
    ensures told { opened.new.told ≡ opened.old.told }
    ensures does { MatchResult result
        (λ behind. CopiesNext (S.types_of opened.old.session.store) opened.old.folder (length piece.old) copied.now.node.number place.0 place.1
        (S.state_of opened.old.session.store) (S.state_of opened.new.session.store) opened.old.session.volume opened.new.session.volume behind)
        (λ fault. LeavesStretch (S.types_of opened.old.session.store) opened.old.folder (length piece.old) copied.now.node.number place.0 place.1
        (S.state_of opened.old.session.store) (S.state_of opened.new.session.store) opened.old.session.volume opened.new.session.volume) }
{
    let (block, at) = place;
    let (source, most) = (copied.node.number, piece.len() as u64);
    let stretch = match View::stretch(&opened.session, source, at, most) {
        Ok(Some(stretch)) => stretch,
        Ok(None) => return Ok(None),
        Err(reason) => return Err(at_bytes(alloc, copied.path, reason)),
    };
    let length = usize::try_from(stretch.length).unwrap_or(piece.len());
    let Some(room) = piece.get_mut(..length) else {
        return Ok(None);
    };
    let bytes = read_from(opened, alloc, copied, stretch.at, room)?;
    let target = Target::Begun(block, stretch.at);
    opened.write_all(alloc, copied.to, target, bytes)?;
    Ok(Some(stretch.at.saturating_add(stretch.length)))
}

/// Copies all bytes of a file that stand in blocks, behind the first ones, to one that was begun, and answers the place behind them: what lies between stays a
/// hole.
fn copy_stretches<S: FlushStore + Drop>(
    opened: &mut Opened<S>,
    alloc: Global,
    copied: &Copied,
    block: u32,
    piece: &mut [u8],
) -> Result<u64, Fault>
    ensures types { S.types_of opened.new.session.store ≡ S.types_of opened.old.session.store }
    ensures folder { opened.new.folder ≡ opened.old.folder }
    ensures told { opened.new.told ≡ opened.old.told }
    ensures does { MatchResult result
        (λ at. CopiesAll (S.types_of opened.old.session.store) opened.old.folder (length piece.old) copied.now.node block
        (S.state_of opened.old.session.store) (S.state_of opened.new.session.store) opened.old.session.volume opened.new.session.volume at)
        (λ fault. LeavesSome (S.types_of opened.old.session.store) opened.old.folder (length piece.old) copied.now.node block
        (S.state_of opened.old.session.store) (S.state_of opened.new.session.store) opened.old.session.volume opened.new.session.volume) }
{
    let mut at = HEAD as u64;
    for _stretch in 0..copied.node.size {
        match copy_stretch(opened, alloc, copied, (block, at), piece)? {
            Some(behind) if behind > at => at = behind,
            _ => return Ok(at),
        }
    }
    Ok(at)
}

/// Copies all bytes of a file, behind the first ones, to one that was begun. Holes stay; one at its end has a last byte.
fn copy_rest<S: FlushStore + Drop>(
    opened: &mut Opened<S>,
    alloc: Global,
    copied: &Copied,
    block: u32,
    piece: &mut [u8],
) -> Result<(), Fault>
    ensures types { S.types_of opened.new.session.store ≡ S.types_of opened.old.session.store }
    ensures folder { opened.new.folder ≡ opened.old.folder }
    ensures told { opened.new.told ≡ opened.old.told }
    ensures does { MatchResult result
        (λ done. CopiesBytes (S.types_of opened.old.session.store) opened.old.folder (length piece.old) copied.now.node block
        (S.state_of opened.old.session.store) (S.state_of opened.new.session.store) opened.old.session.volume opened.new.session.volume (Ok tt))
        (λ fault. LeavesBytes (S.types_of opened.old.session.store) opened.old.folder (length piece.old) copied.now.node block
        (S.state_of opened.old.session.store) (S.state_of opened.new.session.store) opened.old.session.volume opened.new.session.volume) }
{
    let size = copied.node.size;
    let at = copy_stretches(opened, alloc, copied, block, piece)?;
    if at >= size {
        return Ok(());
    }
    opened.write_all(alloc, copied.to, Target::Begun(block, size - 1), &[0])
}

/// Writes all bytes of a copy that was begun, and gives it its name.
fn finish<S: FlushStore + Drop>(
    opened: &mut Opened<S>,
    alloc: Global,
    copied: &Copied,
    block: u32,
    piece: &mut [u8],
) -> Result<u32, Fault>
    ensures types { S.types_of opened.new.session.store ≡ S.types_of opened.old.session.store }
    ensures folder { opened.new.folder ≡ opened.old.folder }
    ensures told { opened.new.told ≡ opened.old.told }
    ensures does { MatchResult result
        (λ number. NamesCopy (S.types_of opened.old.session.store) opened.old.folder (length piece.old) copied.now.node block
        copied.now.place.folder copied.now.place.name.now
        (S.state_of opened.old.session.store) (S.state_of opened.new.session.store) opened.old.session.volume opened.new.session.volume (Ok number))
        (λ fault. LeavesCopy (S.types_of opened.old.session.store) opened.old.folder (length piece.old) copied.now.node block
        copied.now.place.folder copied.now.place.name.now
        (S.state_of opened.old.session.store) (S.state_of opened.new.session.store) opened.old.session.volume opened.new.session.volume) }
{
    copy_rest(opened, alloc, copied, block, piece)?;
    let commit = Commit {
        block,
        directory: copied.place.folder,
        name: copied.place.name,
        replace: true,
    };
    opened.make_name(alloc, copied.to, &commit)
}

/// Copies the bytes of a file: the copy has its name once all are written. Holes stay. Answers the number of the copy.
fn copy_content<S: FlushStore + Drop>(
    opened: &mut Opened<S>,
    alloc: Global,
    copied: &Copied,
    piece: &mut [u8],
) -> Result<u32, Fault>
    ensures types { S.types_of opened.new.session.store ≡ S.types_of opened.old.session.store }
    ensures folder { opened.new.folder ≡ opened.old.folder }
    ensures told { opened.new.told ≡ opened.old.told }
    ensures does { MatchResult result
        (λ number. CopiesContent (S.types_of opened.old.session.store) opened.old.folder (length piece.old) copied.now.node
        copied.now.place.folder copied.now.place.name.now
        (S.state_of opened.old.session.store) (S.state_of opened.new.session.store) opened.old.session.volume opened.new.session.volume number)
        (λ fault. LeavesContent (S.types_of opened.old.session.store) opened.old.folder (length piece.old) copied.now.node
        copied.now.place.folder copied.now.place.name.now
        (S.state_of opened.old.session.store) (S.state_of opened.new.session.store) opened.old.session.volume opened.new.session.volume) }
{
    let mut head = [0u8; HEAD];
    let head = read_from(opened, alloc, copied, 0, &mut head)?;
    let begin = Begin {
        kind: Kind::File,
        attributes: attributes_of(opened, &copied.node),
        head: head_of(head),
    };
    let block = opened.make(alloc, copied.to, &begin)?;
    match finish(opened, alloc, copied, block, piece) {
        Ok(number) => Ok(number),
        Err(fault) => {
            opened.give_up(alloc, block);
            Err(fault)
        }
    }
}

/// Copies a symbolic link.
fn copy_link<S: FlushStore + Drop>(
    opened: &mut Opened<S>,
    alloc: Global,
    copied: &Copied,
) -> Result<u32, Fault>
    ensures types { S.types_of opened.new.session.store ≡ S.types_of opened.old.session.store }
    ensures folder { opened.new.folder ≡ opened.old.folder }
    ensures told { opened.new.told ≡ opened.old.told }
    ensures does { MatchResult result
        (λ number. CopiesLink (S.types_of opened.old.session.store) opened.old.folder copied.now.node copied.now.place.folder copied.now.place.name.now
        (S.state_of opened.old.session.store) (S.state_of opened.new.session.store) opened.old.session.volume opened.new.session.volume (Ok number))
        (λ fault. IsRefused (CopiesLink (S.types_of opened.old.session.store) opened.old.folder copied.now.node
        copied.now.place.folder copied.now.place.name.now
        (S.state_of opened.old.session.store) (S.state_of opened.new.session.store) opened.old.session.volume opened.new.session.volume)
        (S.state_of opened.old.session.store) (S.state_of opened.new.session.store) opened.old.session.volume opened.new.session.volume) }
{
    let target = match opened.session.target(alloc, copied.node.number) {
        Ok(target) => target,
        Err(reason) => return Err(at_bytes(alloc, copied.path, reason)),
    };
    let put = Put {
        directory: copied.place.folder,
        name: copied.place.name,
        kind: Kind::SymbolicLink,
        attributes: attributes_of(opened, &copied.node),
        bytes: &target,
        replace: true,
    };
    opened.put(alloc, copied.to, &put)
}

/// Copies a file or a symbolic link in the place of what has the name, and answers the number of the copy.
fn copy_new<S: FlushStore + Drop>(
    opened: &mut Opened<S>,
    alloc: Global,
    copying: &mut Copying,
    copied: &Copied,
) -> Result<u32, Fault>
    ensures types { S.types_of opened.new.session.store ≡ S.types_of opened.old.session.store }
    ensures folder { opened.new.folder ≡ opened.old.folder }
    ensures told { opened.new.told ≡ opened.old.told }
    ensures piece { vec_len copying.new.piece ≡ vec_len copying.old.piece }
    ensures recursive { copying.new.is_recursive ≡ copying.old.is_recursive }
    ensures kept { KeepsSame copying.old copying.new }
    ensures does { MatchResult result
        (λ number. Copies (S.types_of opened.old.session.store) opened.old.folder (vec_len copying.old.piece) copied.now.node
        copied.now.place.folder copied.now.place.name.now
        (S.state_of opened.old.session.store) (S.state_of opened.new.session.store) opened.old.session.volume opened.new.session.volume number)
        (λ fault. IsUncopied (S.types_of opened.old.session.store) opened.old.folder (vec_len copying.old.piece) copied.now.node
        copied.now.place.folder copied.now.place.name.now
        (S.state_of opened.old.session.store) (S.state_of opened.new.session.store) opened.old.session.volume opened.new.session.volume) }
{
    if copied.node.is_link() {
        copy_link(opened, alloc, copied)
    } else {
        copy_content(opened, alloc, copied, &mut copying.piece)
    }
}

/// Copies a file or a symbolic link in the place of what has the name, if something has. Where folders are copied its time is kept, and what was copied under
/// another name gets one more.
pub fn copy_file<S: FlushStore + Drop>(
    opened: &mut Opened<S>,
    alloc: Global,
    copying: &mut Copying,
    copied: &Copied,
) -> Result<(), Fault>
    ensures types { S.types_of opened.new.session.store ≡ S.types_of opened.old.session.store }
    ensures folder { opened.new.folder ≡ opened.old.folder }
    ensures told { opened.new.told ≡ opened.old.told }
    ensures piece { vec_len copying.new.piece ≡ vec_len copying.old.piece }
    ensures recursive { copying.new.is_recursive ≡ copying.old.is_recursive }
    ensures does { MatchResult result
        (λ done. CopiesFile (S.types_of opened.old.session.store) opened.old.folder (vec_len copying.old.piece) copying.old copying.new copied.now.node
        copied.now.place.folder copied.now.place.name.now
        (S.state_of opened.old.session.store) (S.state_of opened.new.session.store) opened.old.session.volume opened.new.session.volume)
        (λ fault. LeavesFile (S.types_of opened.old.session.store) opened.old.folder (vec_len copying.old.piece) copying.old copying.new copied.now.node
        copied.now.place.folder copied.now.place.name.now
        (S.state_of opened.old.session.store) (S.state_of opened.new.session.store) opened.old.session.volume opened.new.session.volume) }
{
    if let Some(number) = copying.copy_of(&copied.node) {
        return put_name(opened, alloc, copied, number);
    }
    let number = copy_new(opened, alloc, copying, copied)?;
    copying.note(&copied.node, number)?;
    if copying.is_recursive {
        keep_time(opened, alloc, copied, number)?;
    }
    Ok(())
}

/// Gives a copy the time of its node.
pub fn keep_time<S: FlushStore + Drop>(
    opened: &mut Opened<S>,
    alloc: Global,
    copied: &Copied,
    number: u32,
) -> Result<(), Fault>
    ensures types { S.types_of opened.new.session.store ≡ S.types_of opened.old.session.store }
    ensures folder { opened.new.folder ≡ opened.old.folder }
    ensures told { opened.new.told ≡ opened.old.told }
    ensures does { Answers (MtimeIn (S.types_of opened.old.session.store) opened.old.folder number copied.now.node.modified
        (S.state_of opened.old.session.store) (S.state_of opened.new.session.store) opened.old.session.volume opened.new.session.volume) result }
{
    let mtime = copied.node.modified;
    opened.make(alloc, copied.to, &Change::SetMtime { number, mtime })
}
