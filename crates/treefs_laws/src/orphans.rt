// Laws of inodes without links, and of blocks that nothing points to.

ghost use Rattle.std.specs.Prelude.{◌≡◌, ◌≢◌, ◌+◌, ◌++◌, ◌<◌, ◌≤◌, ℕ, All, Bool, Contains, Err, List, Ok, Result, length, take, true};
ghost use Rattle.xn_model.specs.Types.{Types};
ghost use Rattle.xn_model.specs.Lives.{StoreState};
ghost use Rattle.store_types.specs.declared.refusal.Refusal.{Refusal};
ghost use Rattle.treefs_format.specs.Leaves.{greatest_size};
ghost use Rattle.treefs_model.specs.Changes.{rewritten};
ghost use Rattle.treefs_model.specs.declared.fault.Fault.{Fault};
ghost use Rattle.treefs_model.specs.declared.fault.Fault.TheVariants.{Kernel};
ghost use Rattle.treefs.specs.Reaping.{ReapDoes};
ghost use Rattle.treefs.specs.Trimming.{GiveUpDoes};
ghost use Rattle.treefs.specs.declared.volume.Volume.{Volume};
ghost use Rattle.treefs_model.specs.Files.{Inode, bytes_in};
ghost use Rattle.treefs_model.specs.Reading.{inode_of};
ghost use Rattle.treefs_puts.specs.Writing.{WriteBegunDoes};
ghost use Rattle.treefs_laws.specs.Begun.{IsBegun};
ghost use Rattle.treefs_laws.specs.Kept.{files_in};
ghost use Rattle.treefs_laws.specs.Open.{IsOpen};
ghost use Rattle.treefs_laws.specs.Orphans.{IsReaped, WaitLess, without_orphans};
ghost use Rattle.treefs_laws.specs.Unnamed.{IsReadAlike, IsUnnamed, KeepsUnnamed};

/// `reap` frees inodes without links, of the numbers that it is told, and does nothing else. Whatever it answers, all other inodes are as before, and an inode
/// that it leaves has no links still, and says what it said, but for bytes that are 0 and names that are gone. Once it is done none of them is left. A
/// number that waits to be freed no more leads to no inode. An inode that has no number has none then.
pub fn reap_frees_orphans()
    ensures ever { (T : Types) (old new : StoreState) (volume volume' : Volume) (numbers : List ℕ) (result : Result (Unit {0}) Fault) → IsOpen T old volume →
        ReapDoes T old new volume volume' numbers result →
        IsOpen T new volume' × IsReaped (Contains numbers) (files_in old volume) (files_in new volume')
        × (volume'.tree ≡ volume.tree) × (volume'.memory.clock ≡ volume.memory.clock) × KeepsUnnamed old new volume volume' }
    ensures done { (T : Types) (old new : StoreState) (volume volume' : Volume) (numbers : List ℕ) → IsOpen T old volume →
        ReapDoes T old new volume volume' numbers (Ok tt) → files_in new volume' ≡ without_orphans numbers (files_in old volume) }
    ensures waiting { (T : Types) (old new : StoreState) (volume volume' : Volume) (numbers : List ℕ) (result : Result (Unit {0}) Fault) → IsOpen T old volume →
        ReapDoes T old new volume volume' numbers result → WaitLess volume.memory.orphans volume'.memory.orphans (files_in new volume') }
{}

/// `give_up` of an inode that has no number changes no file, whatever it answers, and leaves it without one where it isn't free then. An inode that was begun
/// has no number.
pub fn give_up_changes_no_file()
    ensures begun { (T : Types) (state : StoreState) (volume : Volume) (block : ℕ) (inode : Inode) → IsOpen T state volume →
        IsBegun state volume block inode → IsUnnamed state volume block }
    ensures given { (T : Types) (old new : StoreState) (volume : Volume) (block : ℕ) (result : Result Bool Fault) → IsOpen T old volume →
        IsUnnamed old volume block → GiveUpDoes T old new volume block result →
        IsOpen T new volume × (files_in new volume ≡ files_in old volume) × (result ≢ Ok true → IsUnnamed new volume block) }
{}

/// `write_begun` of an inode that has no number changes no file, whatever it answers, and leaves it without one.
pub fn begun_writes_change_no_file()
    ensures { (T : Types) (old new : StoreState) (volume : Volume) (block at : ℕ) (bytes : List ℕ) (result : Result ℕ Fault) → IsOpen T old volume →
        IsUnnamed old volume block → All (λ b. b < 256) bytes → WriteBegunDoes T old new volume block at bytes result →
        IsOpen T new volume × (files_in new volume ≡ files_in old volume) × IsUnnamed new volume block }
{}

/// `write_begun` of an inode that was begun, from its end on, writes the first of the bytes behind those that it has, as many as it answers, and sets its times
/// to the caller's. They end within the greatest size. Where it is refused, but for the store's own refusal, the inode says what it said.
pub fn begun_writes_append_bytes()
    ensures done { (T : Types) (old new : StoreState) (volume : Volume) (block : ℕ) (inode : Inode) (was bytes : List ℕ) (taken : ℕ) → IsOpen T old volume →
        IsBegun old volume block inode → bytes_in inode.content ≡ Ok was → All (λ b. b < 256) bytes → 0 < length bytes →
        WriteBegunDoes T old new volume block (length was) bytes (Ok taken) →
        (0 < taken) × (taken ≤ length bytes) × (length was + taken ≤ greatest_size)
        × IsBegun new volume block (rewritten volume.memory.clock (λ was. was ++ take taken bytes) inode) }
    ensures refused { (T : Types) (old new : StoreState) (volume : Volume) (block at : ℕ) (inode : Inode) (bytes : List ℕ) (fault : Fault) →
        IsOpen T old volume → IsBegun old volume block inode → All (λ b. b < 256) bytes → ((reason : Refusal) → fault ≢ Kernel reason) →
        WriteBegunDoes T old new volume block at bytes (Err fault) → IsBegun new volume block inode }
{}

/// An inode that is read alike says what it said, whether it has a number or not.
pub fn inodes_read_alike_say_the_same()
    ensures { (old new : ℕ → List ℕ) (key : List ℕ) (block : ℕ) → IsReadAlike old new block → inode_of new key block ≡ inode_of old key block }
{}
