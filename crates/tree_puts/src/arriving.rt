// One file or symbolic link of the system that is brought in.

ghost use Rattle.std.specs.Prelude.{◌≡◌, ◌<◌, ◌≤◌, IfOk, OnErr, OnOk, [], length, take, vec_len};
ghost use Rattle.tree_puts.specs.Actions.{OrElse, Performs};
ghost use Rattle.tree_puts.specs.Linked.{Forgets, IsUnnoted, Notes, number_kept};
ghost use Rattle.tree_puts.specs.Arriving.{BeginsFile, Finishes, HasRights, IsGivenUp, PutsArrived, PutsFile, PutsLink, PutsLong, PutsWhole, SetsAll};
ghost use Rattle.tree_puts.specs.Arriving.{SetsTime, WritesPieces, WritesWhole};
ghost use Rattle.tree_puts.specs.Holes.{is_sparse};

use crate::pieces::{Incoming, read_piece};
use crate::sparse::{is_sparse, write_parts};
use flush_store::FlushStore;
use host_trees::{Attributes as HostAttributes, Host, PIECE, Progress};
use std::alloc::{AllocError, Global};
use std::collections::BTreeMap;
use tree_lines::{
    Attributes, Begin, Change, Commit, Fault, Opened, Owner, Place, Put, Reason, Settings, Target,
    at_bytes, system, there,
};
use treefs_format::Kind;
use treefs_format::inodes::CONTENT_LEN;
use treefs_format::sizes::{GREATEST_SIZE, LEAF_LEN};

/// What a line that brings files in keeps.
pub struct Arriving<'a, H: Host> {
    pub host: &'a H,
    pub alloc: Global,
    pub progress: Progress,
    /// The file of the system that is the disk itself.
    pub disk: Option<HostAttributes>,
    /// The numbers of files of the system with several names, by device and inode.
    linked: BTreeMap<(u64, u64), u32>,
    /// Their devices and inodes, by these numbers.
    sources: BTreeMap<u32, (u64, u64)>,
}

impl<'a, H: Host> Drop for Arriving<'a, H> {
    fn drop(self) {
        let Arriving {
            host: _,
            alloc: _,
            progress: _,
            disk: _,
            linked: _,
            sources: _,
        } = self;
    }
}

/// What is put: where it goes, by which path that is told, and what the system tells of it.
#[derive(Clone, Copy, Debug)]
pub struct Goods<'g> {
    pub place: Place<'g>,
    pub path: &'g [u8],
    /// Its path in the system.
    pub source: &'g str,
    pub attributes: &'g HostAttributes,
}

impl<'a, H: Host> Arriving<'a, H> {
    /// Nothing is brought in yet.
    pub fn begin(host: &'a H, alloc: Global, disk: Option<HostAttributes>) -> Arriving<'a, H>
        ensures { (result.linked.entries ≡ []) × (result.sources.entries ≡ []) }
    {
        Arriving {
            host,
            alloc,
            progress: Progress::begin(host),
            disk,
            linked: BTreeMap::new(alloc),
            sources: BTreeMap::new(alloc),
        }
    }

    /// Takes the line of progress away.
    pub fn end(self) {
        let Arriving {
            host,
            alloc: _,
            progress,
            disk: _,
            linked: _,
            sources: _,
        } = self;
        progress.end(host);
    }

    /// The number under which a file of the system was put that has several names, if it was.
    pub fn number_of(&self, told: &HostAttributes) -> Option<u32>
        ensures { result ≡ number_kept self.now.linked told.now }
    {
        self.linked.get(&(told.device, told.inode)).copied()
    }

    /// Keeps the number under which a file of the system was put, to link it where another of its names is met.
    pub fn note(&mut self, told: &HostAttributes, number: u32) -> Result<(), AllocError>
        ensures ok { OnOk result (Notes told.now number self.old.linked self.new.linked self.old.sources self.new.sources) }
        ensures err { OnErr result (IsUnnoted told.now number self.old.linked self.new.linked self.old.sources self.new.sources) }
    {
        if told.links > 1 {
            let source = (told.device, told.inode);
            let _before = self.linked.insert(source, number)?;
            let _before = self.sources.insert(number, source)?;
        }
        Ok(())
    }

    /// Forgets what has the name of a place, where something else takes that: it may have no other, so that it can't be linked.
    pub fn forget<S: FlushStore + Drop>(&mut self, volume: &Opened<S>, place: Place)
        ensures { Forgets (S.state_of volume.now.session.store) volume.now.session.volume place.entry.folder place.entry.name.now
            self.old.linked self.new.linked self.old.sources self.new.sources }
    {
        if self.linked.is_empty() {
            return;
        }
        if let Ok(Some(node)) = there(&volume.session, place)
            && let Some(source) = self.sources.remove(&node.number)
        {
            let _number = self.linked.remove(&source);
        }
    }

    /// What a new inode gets of what the system tells of a file.
    pub fn new_attributes<S: FlushStore + Drop>(
        &self,
        volume: &Opened<S>,
        told: &HostAttributes,
    ) -> Attributes
        ensures range { result.permissions < 4096 }
        ensures rights { HasRights result told.now }
    {
        Attributes {
            permissions: told.permissions,
            uid: told.uid,
            gid: told.gid,
            generation: volume.generation(),
        }
    }

    /// Sets the time of what was put.
    pub fn set_time<S: FlushStore + Drop>(
        &self,
        volume: &mut Opened<S>,
        path: &[u8],
        number: u32,
        mtime: i64,
    ) -> Result<(), Fault>
        ensures types { S.types_of volume.new.session.store ≡ S.types_of volume.old.session.store }
        ensures folder { volume.new.folder ≡ volume.old.folder }
        ensures told { volume.new.told ≡ volume.old.told }
        ensures does { Performs (S.types_of volume.old.session.store) volume.old.folder (SetsTime number mtime result)
            (S.state_of volume.old.session.store) (S.state_of volume.new.session.store) volume.old.session.volume volume.new.session.volume }
    {
        volume.make(self.alloc, path, &Change::SetMtime { number, mtime })
    }

    /// Sets all that the system tells of a folder that was there.
    pub fn set_all<S: FlushStore + Drop>(
        &self,
        volume: &mut Opened<S>,
        path: &[u8],
        number: u32,
        told: &HostAttributes,
    ) -> Result<(), Fault>
        ensures types { S.types_of volume.new.session.store ≡ S.types_of volume.old.session.store }
        ensures folder { volume.new.folder ≡ volume.old.folder }
        ensures told { volume.new.told ≡ volume.old.told }
        ensures does { Performs (S.types_of volume.old.session.store) volume.old.folder (SetsAll number told.now result)
            (S.state_of volume.old.session.store) (S.state_of volume.new.session.store) volume.old.session.volume volume.new.session.volume }
    {
        let settings = Settings {
            permissions: Some(told.permissions),
            owner: Some(Owner {
                uid: told.uid,
                gid: told.gid,
            }),
            mtime: Some(told.modified),
        };
        volume.make(
            self.alloc,
            path,
            &Change::SetAttributes { number, settings },
        )
    }

    /// That a disk may have so many bytes more: no file is longer than the greatest, and one that has fewer blocks than they take has no space
    /// for them.
    pub fn want_space<S: FlushStore + Drop>(
        &self,
        volume: &Opened<S>,
        goods: Goods,
    ) -> Result<(), Fault>
        ensures { OnOk result (goods.entry.attributes.now.size ≤ GREATEST_SIZE) }
    {
        if goods.attributes.size > GREATEST_SIZE {
            return Err(at_bytes(self.alloc, goods.path, Reason::FileTooLarge));
        }
        let usage = tree_lines::View::usage(&volume.session);
        let size = goods.attributes.size.min(goods.attributes.held);
        if size / LEAF_LEN > u64::from(usage.blocks) {
            let free = usage.free_blocks;
            return Err(at_bytes(self.alloc, goods.path, Reason::NoSpace { free }));
        }
        Ok(())
    }

    /// Puts a whole file or symbolic link in the place of what has the name, and answers its number.
    fn put_whole<S: FlushStore + Drop>(
        &self,
        volume: &mut Opened<S>,
        goods: Goods,
        kind: Kind,
        bytes: &[u8],
    ) -> Result<u32, Fault>
        ensures types { S.types_of volume.new.session.store ≡ S.types_of volume.old.session.store }
        ensures folder { volume.new.folder ≡ volume.old.folder }
        ensures told { volume.new.told ≡ volume.old.told }
        ensures does { Performs (S.types_of volume.old.session.store) volume.old.folder (PutsWhole goods.entry kind bytes.now result)
            (S.state_of volume.old.session.store) (S.state_of volume.new.session.store) volume.old.session.volume volume.new.session.volume }
    {
        let attributes = self.new_attributes(volume, goods.attributes);
        let put = Put {
            directory: goods.place.folder,
            name: goods.place.name,
            kind,
            attributes,
            bytes,
            replace: true,
        };
        volume.put(self.alloc, goods.path, &put)
    }

    /// Writes pieces behind the first bytes of an inode that was begun, the first of them given, up to the last.
    fn write_rest<S: FlushStore + Drop, I: Incoming<H>>(
        &mut self,
        volume: &mut Opened<S>,
        goods: Goods,
        block: u32,
        incoming: &mut I,
        piece: &mut [u8],
        first: usize,
    ) -> Result<(), Fault>
        ensures types { S.types_of volume.new.session.store ≡ S.types_of volume.old.session.store }
        ensures folder { volume.new.folder ≡ volume.old.folder }
        ensures told { volume.new.told ≡ volume.old.told }
        ensures linked { self.new.linked ≡ self.old.linked }
        ensures sources { self.new.sources ≡ self.old.sources }
        ensures does { 384 ≤ length piece.old → first ≤ length piece.old →
            Performs (S.types_of volume.old.session.store) volume.old.folder (WritesWhole block (length piece.old) (take first piece.old) result)
            (S.state_of volume.old.session.store) (S.state_of volume.new.session.store) volume.old.session.volume volume.new.session.volume }
    {
        let alloc = self.alloc;
        let (mut from, mut to) = (CONTENT_LEN, first);
        let mut at = CONTENT_LEN as u64;
        for _turn in 0..u64::MAX {
            let bytes = piece.get(from..to).unwrap_or(&[]);
            volume.write_all(alloc, goods.path, Target::Begun(block, at), bytes)?;
            self.progress.add_bytes(self.host, alloc, bytes.len());
            if to < piece.len() {
                break;
            }
            at = at.saturating_add(bytes.len() as u64);
            from = 0;
            to = match read_piece(self.host, incoming, piece) {
                Ok(count) => count,
                Err(error) => return Err(system(alloc, goods.source.as_bytes(), error)),
            };
        }
        Ok(())
    }

    /// Writes all bytes of an inode that was begun with the first ones: of a file with holes that are worth it not those of its holes.
    fn write_pieces<S: FlushStore + Drop, I: Incoming<H>>(
        &mut self,
        volume: &mut Opened<S>,
        goods: Goods,
        block: u32,
        incoming: &mut I,
        piece: &mut [u8],
        first: usize,
    ) -> Result<(), Fault>
        ensures types { S.types_of volume.new.session.store ≡ S.types_of volume.old.session.store }
        ensures folder { volume.new.folder ≡ volume.old.folder }
        ensures told { volume.new.told ≡ volume.old.told }
        ensures linked { self.new.linked ≡ self.old.linked }
        ensures sources { self.new.sources ≡ self.old.sources }
        ensures does { 384 ≤ length piece.old → first ≤ length piece.old →
            Performs (S.types_of volume.old.session.store) volume.old.folder (WritesPieces (is_sparse goods.entry.attributes.now) block
            (length piece.old) (take first piece.old) result)
            (S.state_of volume.old.session.store) (S.state_of volume.new.session.store) volume.old.session.volume volume.new.session.volume }
    {
        if is_sparse(goods.attributes) {
            return write_parts(self, volume, goods, block, incoming, piece, first);
        }
        self.write_rest(volume, goods, block, incoming, piece, first)
    }

    /// Writes all bytes of an inode that was begun with the first ones, and gives it its name.
    fn finish<S: FlushStore + Drop, I: Incoming<H>>(
        &mut self,
        volume: &mut Opened<S>,
        goods: Goods,
        block: u32,
        incoming: &mut I,
        piece: &mut [u8],
        first: usize,
    ) -> Result<u32, Fault>
        ensures types { S.types_of volume.new.session.store ≡ S.types_of volume.old.session.store }
        ensures folder { volume.new.folder ≡ volume.old.folder }
        ensures told { volume.new.told ≡ volume.old.told }
        ensures linked { self.new.linked ≡ self.old.linked }
        ensures sources { self.new.sources ≡ self.old.sources }
        ensures does { 384 ≤ length piece.old → first ≤ length piece.old →
            Performs (S.types_of volume.old.session.store) volume.old.folder (Finishes goods.entry block (length piece.old) (take first piece.old) result)
            (S.state_of volume.old.session.store) (S.state_of volume.new.session.store) volume.old.session.volume volume.new.session.volume }
    {
        self.write_pieces(volume, goods, block, incoming, piece, first)?;
        let commit = Commit {
            block,
            directory: goods.place.folder,
            name: goods.place.name,
            replace: true,
        };
        volume.make_name(self.alloc, goods.path, &commit)
    }

    /// Begins a file with the first bytes of its first piece, which was read, and answers its block.
    fn begin_file<S: FlushStore + Drop>(
        &self,
        volume: &mut Opened<S>,
        goods: Goods,
        piece: &[u8],
        first: usize,
    ) -> Result<u32, Fault>
        ensures types { S.types_of volume.new.session.store ≡ S.types_of volume.old.session.store }
        ensures folder { volume.new.folder ≡ volume.old.folder }
        ensures told { volume.new.told ≡ volume.old.told }
        ensures does { first ≤ length piece.now →
            Performs (S.types_of volume.old.session.store) volume.old.folder (BeginsFile goods.entry (take first piece.now) result)
            (S.state_of volume.old.session.store) (S.state_of volume.new.session.store) volume.old.session.volume volume.new.session.volume }
    {
        let attributes = self.new_attributes(volume, goods.attributes);
        let head_len = first.min(piece.len()).min(CONTENT_LEN);
        let begin = Begin {
            kind: Kind::File,
            attributes,
            head: &piece[..head_len],
        };
        volume.make(self.alloc, goods.path, &begin)
    }

    /// Writes all bytes of an inode that was begun, and gives it its name; or gives it up.
    fn finish_or_give_up<S: FlushStore + Drop, I: Incoming<H>>(
        &mut self,
        volume: &mut Opened<S>,
        goods: Goods,
        block: u32,
        incoming: &mut I,
        piece: &mut [u8],
        first: usize,
    ) -> Result<u32, Fault>
        ensures types { S.types_of volume.new.session.store ≡ S.types_of volume.old.session.store }
        ensures folder { volume.new.folder ≡ volume.old.folder }
        ensures told { volume.new.told ≡ volume.old.told }
        ensures linked { self.new.linked ≡ self.old.linked }
        ensures sources { self.new.sources ≡ self.old.sources }
        ensures does { 384 ≤ length piece.old → first ≤ length piece.old →
            Performs (S.types_of volume.old.session.store) volume.old.folder (OrElse (Finishes goods.entry block (length piece.old)
            (take first piece.old)) (IsGivenUp block) result)
            (S.state_of volume.old.session.store) (S.state_of volume.new.session.store) volume.old.session.volume volume.new.session.volume }
    {
        let done = self.finish(volume, goods, block, incoming, piece, first);
        if done.is_err() {
            volume.give_up(self.alloc, block);
        }
        done
    }

    /// Puts a file of which the first piece was read, and that may have more. Its name comes behind all its bytes; holes stay where there are many.
    fn put_long<S: FlushStore + Drop, I: Incoming<H>>(
        &mut self,
        volume: &mut Opened<S>,
        goods: Goods,
        incoming: &mut I,
        piece: &mut [u8],
        first: usize,
    ) -> Result<u32, Fault>
        ensures types { S.types_of volume.new.session.store ≡ S.types_of volume.old.session.store }
        ensures folder { volume.new.folder ≡ volume.old.folder }
        ensures told { volume.new.told ≡ volume.old.told }
        ensures linked { self.new.linked ≡ self.old.linked }
        ensures sources { self.new.sources ≡ self.old.sources }
        ensures does { 384 ≤ length piece.old → first ≤ length piece.old →
            Performs (S.types_of volume.old.session.store) volume.old.folder (PutsLong goods.entry (length piece.old) (take first piece.old) result)
            (S.state_of volume.old.session.store) (S.state_of volume.new.session.store) volume.old.session.volume volume.new.session.volume }
    {
        let block = self.begin_file(volume, goods, piece, first)?;
        self.finish_or_give_up(volume, goods, block, incoming, piece, first)
    }

    /// Puts a file of which the first piece was read in the place of what has the name, and answers its number.
    fn put_read<S: FlushStore + Drop, I: Incoming<H>>(
        &mut self,
        volume: &mut Opened<S>,
        goods: Goods,
        incoming: &mut I,
        piece: &mut [u8],
        first: usize,
    ) -> Result<u32, Fault>
        ensures types { S.types_of volume.new.session.store ≡ S.types_of volume.old.session.store }
        ensures folder { volume.new.folder ≡ volume.old.folder }
        ensures told { volume.new.told ≡ volume.old.told }
        ensures linked { self.new.linked ≡ self.old.linked }
        ensures sources { self.new.sources ≡ self.old.sources }
        ensures does { 384 ≤ length piece.old → first ≤ length piece.old →
            Performs (S.types_of volume.old.session.store) volume.old.folder (PutsArrived goods.entry (length piece.old) (take first piece.old) result)
            (S.state_of volume.old.session.store) (S.state_of volume.new.session.store) volume.old.session.volume volume.new.session.volume }
    {
        if is_sparse(goods.attributes) {
            return self.put_long(volume, goods, incoming, piece, first);
        }
        if first < piece.len() {
            self.progress.add_bytes(self.host, self.alloc, first);
            return self.put_whole(volume, goods, Kind::File, &piece[..first]);
        }
        self.put_long(volume, goods, incoming, piece, first)
    }

    /// Puts a file in the place of what has the name, and answers its number.
    pub fn put_file<S: FlushStore + Drop, I: Incoming<H>>(
        &mut self,
        volume: &mut Opened<S>,
        goods: Goods,
        incoming: &mut I,
        piece: &mut [u8],
    ) -> Result<u32, Fault>
        ensures types { S.types_of volume.new.session.store ≡ S.types_of volume.old.session.store }
        ensures folder { volume.new.folder ≡ volume.old.folder }
        ensures told { volume.new.told ≡ volume.old.told }
        ensures kept { Forgets (S.state_of volume.old.session.store) volume.old.session.volume goods.entry.place.folder goods.entry.place.name.now
            self.old.linked self.new.linked self.old.sources self.new.sources }
        ensures does { 384 ≤ length piece.old →
            Performs (S.types_of volume.old.session.store) volume.old.folder (PutsFile goods.entry (length piece.old) result)
            (S.state_of volume.old.session.store) (S.state_of volume.new.session.store) volume.old.session.volume volume.new.session.volume }
    {
        self.want_space(volume, goods)?;
        self.forget(volume, goods.place);
        let count = match read_piece(self.host, incoming, piece) {
            Ok(count) => count,
            Err(error) => return Err(system(self.alloc, goods.source.as_bytes(), error)),
        };
        let done = self.put_read(volume, goods, incoming, piece, count);
        if done.is_ok() {
            self.progress.add_file(self.host, self.alloc);
        }
        done
    }

    /// Puts a symbolic link in the place of what has the name, with its time.
    pub fn put_link<S: FlushStore + Drop>(
        &mut self,
        volume: &mut Opened<S>,
        goods: Goods,
    ) -> Result<(), Fault>
        ensures types { S.types_of volume.new.session.store ≡ S.types_of volume.old.session.store }
        ensures folder { volume.new.folder ≡ volume.old.folder }
        ensures told { volume.new.told ≡ volume.old.told }
        ensures kept { Forgets (S.state_of volume.old.session.store) volume.old.session.volume goods.entry.place.folder goods.entry.place.name.now
            self.old.linked self.new.linked self.old.sources self.new.sources }
        ensures does { Performs (S.types_of volume.old.session.store) volume.old.folder (PutsLink goods.entry result)
            (S.state_of volume.old.session.store) (S.state_of volume.new.session.store) volume.old.session.volume volume.new.session.volume }
    {
        let target = match self.host.target(goods.source) {
            Ok(target) => target,
            Err(error) => return Err(system(self.alloc, goods.source.as_bytes(), error)),
        };
        self.forget(volume, goods.place);
        let number = self.put_whole(volume, goods, Kind::SymbolicLink, target.as_bytes())?;
        self.set_time(volume, goods.path, number, goods.attributes.modified)
    }
}

/// Room for a piece.
pub fn room_for_piece(alloc: Global) -> Result<Vec<u8>, AllocError>
    ensures { IfOk result (λ piece. vec_len piece ≡ PIECE) }
{
    vec![in alloc; 0u8; PIECE]
}
