// A whole file is put: its name comes last, and stands behind all its bytes.

ghost use Rattle.std.specs.Prelude.{◌≡◌};
ghost use Rattle.treefs_session.specs.Puts.{Finishes, PutDoes, WritesAndNames};

use crate::calls::bytes::Target;
use crate::calls::new_inodes::{Begin, Commit};
use crate::put::Put;
use crate::session::Session;
use flush_store::FlushStore;
use std::alloc::Global;
use treefs_edits::fronts::{behind, front};
use treefs_model::Fault;

/// How many bytes of a content stand in its inode's block.
const HEAD: usize = 384;

impl<S: FlushStore> Session<S> {
    /// Writes the bytes of an inode that was begun, behind the first ones, and gives it its name.
    fn write_and_name(
        &mut self,
        alloc: Global,
        held: &[u32],
        put: &Put,
        block: u32,
    ) -> Result<u32, Fault>
        ensures types { S.types_of self.new.store ≡ S.types_of self.old.store }
        ensures does { WritesAndNames (S.types_of self.old.store) held.now put.now block (S.state_of self.old.store) (S.state_of self.new.store)
            self.old.volume self.new.volume result }
    {
        let rest = behind(put.bytes, HEAD);
        let target = Target::Begun(block, HEAD as u64);
        if let Err(fault) = self.write_all(alloc, held, target, rest) {
            return Err(fault);
        }
        let commit = Commit {
            block,
            directory: put.directory,
            name: put.name,
            replace: put.replace,
        };
        self.make(alloc, held, &commit)
    }

    /// Writes the bytes of an inode that was begun, and gives it its name; where that fails the inode is given up.
    fn finish(&mut self, alloc: Global, held: &[u32], put: &Put, block: u32) -> Result<u32, Fault>
        ensures types { S.types_of self.new.store ≡ S.types_of self.old.store }
        ensures does { Finishes (S.types_of self.old.store) held.now put.now block (S.state_of self.old.store) (S.state_of self.new.store)
            self.old.volume self.new.volume result }
    {
        match self.write_and_name(alloc, held, put, block) {
            Ok(number) => Ok(number),
            Err(fault) => {
                let _given_up = self.give_up(alloc, block);
                Err(fault)
            }
        }
    }

    /// Puts a whole file or symbolic link, and answers its number: it is begun, all its bytes are written, and then it gets its name. Where one of these fails,
    /// the inode is given up, and the fault is told.
    pub fn put(&mut self, alloc: Global, held: &[u32], put: &Put) -> Result<u32, Fault>
        ensures types { S.types_of self.new.store ≡ S.types_of self.old.store }
        ensures does { PutDoes (S.types_of self.old.store) held.now put.now (S.state_of self.old.store) (S.state_of self.new.store) self.old.volume
            self.new.volume result }
    {
        let begin = Begin {
            kind: put.kind,
            attributes: put.attributes,
            head: front(put.bytes, HEAD),
        };
        match self.make(alloc, held, &begin) {
            Ok(block) => self.finish(alloc, held, put, block),
            Err(fault) => Err(fault),
        }
    }
}
