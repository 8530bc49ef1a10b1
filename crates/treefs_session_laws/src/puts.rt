// Laws of a session's puts and of their parts: an inode is begun, bytes are written into it, and it gets a name, or where it can't it is given up.

ghost use Rattle.std.specs.Prelude.{◌≡◌, ◌≢◌, ◌++◌, ◌<◌, ◌≤◌, ℕ, All, Bool, Err, List, Ok, Result, length};
ghost use Rattle.xn_model.specs.Types.{Types};
ghost use Rattle.xn_model.specs.Lives.{StoreState};
ghost use Rattle.store_types.specs.declared.refusal.Refusal.{Refusal};
ghost use Rattle.treefs_format.specs.declared.kind.Kind.{Kind};
ghost use Rattle.treefs_format.specs.declared.kind.Kind.TheVariants as kinds;
ghost use Rattle.treefs_model.specs.Changes.{rewritten};
ghost use Rattle.treefs_model.specs.Files.{Files, Inode, bytes_in};
ghost use Rattle.treefs_model.specs.declared.fault.Fault.{Fault};
ghost use Rattle.treefs_model.specs.declared.fault.Fault.TheVariants.{Kernel};
ghost use Rattle.treefs.specs.Committing.{CommitDoes};
ghost use Rattle.treefs.specs.Creating.{BeginDoes};
ghost use Rattle.treefs.specs.declared.attributes.Attributes.{Attributes};
ghost use Rattle.treefs.specs.declared.volume.Volume.{Volume};
ghost use Rattle.treefs_values.specs.Attached.{new_content};
ghost use Rattle.treefs_laws.specs.Begun.{IsBegun};
ghost use Rattle.treefs_laws.specs.Kept.{files_in};
ghost use Rattle.treefs_laws.specs.Making.{FitsAttributes, new_inode};
ghost use Rattle.treefs_laws.specs.Open.{IsOpen};
ghost use Rattle.treefs_laws.specs.Orphans.{IsReaped};
ghost use Rattle.treefs_laws.specs.Unnamed.{IsUnnamed};
ghost use Rattle.treefs_session.specs.Freeing.{GivesUp, MakesFreely};
ghost use Rattle.treefs_session.specs.Pieces.{WritesAll};
ghost use Rattle.treefs_session.specs.Puts.{PutDoes};
ghost use Rattle.treefs_session.specs.declared.put.Put.{Put};
ghost use Rattle.treefs_session.specs.declared.calls.bytes.Target.TheVariants.{Begun};
ghost use Rattle.treefs_session_laws.specs.Before.{IsAsBeforeButOrphans, IsUnheld};
ghost use Rattle.treefs_session_laws.specs.Puts.{GetsName};

use treefs_laws::law::{
    begin_changes_no_file, commit_names_an_inode, commit_replaces_a_name,
    refused_commit_answers_the_files,
};
use treefs_laws::orphans::{begun_writes_change_no_file, give_up_changes_no_file};
use treefs_laws::space::want_of_space_changes_no_file;

/// An inode that a session begins says what was told, where it is a file or a symbolic link, and no number leads to it. Nothing changes but that inodes without
/// links that aren't held may be freed, whether it is begun or not.
pub fn sessions_begin_an_inode()
    ensures begun { (T : Types) (held : List ℕ) (old new : StoreState) (volume volume' : Volume) (kind : Kind) (attributes : Attributes) (head : List ℕ)
        (block : ℕ) → IsOpen T old volume → FitsAttributes attributes → All (λ b. b < 256) head → length head ≤ 384 →
        MakesFreely (λ s s' v v' result. BeginDoes T s s' v kind attributes head result × (v' ≡ v)) T held old new volume volume' (Ok block) →
        IsOpen T new volume' × IsReaped (IsUnheld held) (files_in old volume) (files_in new volume') × (volume'.memory.clock ≡ volume.memory.clock)
        × (kind ≢ kinds.Directory → IsBegun new volume' block (new_inode volume.memory.clock attributes (new_content kind 0 head))) }
    ensures refused { (T : Types) (held : List ℕ) (old new : StoreState) (volume volume' : Volume) (kind : Kind) (attributes : Attributes) (head : List ℕ)
        (fault : Fault) → IsOpen T old volume →
        MakesFreely (λ s s' v v' result. BeginDoes T s s' v kind attributes head result × (v' ≡ v)) T held old new volume volume' (Err fault) →
        IsAsBeforeButOrphans T held old new volume volume' }
{}

/// Bytes that a session writes into an inode that has no number change no file, whatever that answers, but that inodes without links that aren't held may be
/// freed; and it has no number then. Where the inode was begun, and all of them are written from its end on, they stand behind its bytes, and its times are the
/// caller's.
pub fn sessions_write_begun_inodes()
    ensures files { (T : Types) (held : List ℕ) (old new : StoreState) (volume volume' : Volume) (block at : ℕ) (bytes : List ℕ)
        (result : Result (Unit {0}) Fault) → IsOpen T old volume → IsUnnamed old volume block → All (λ b. b < 256) bytes →
        WritesAll T held (Begun block at) bytes old new volume volume' result →
        IsOpen T new volume' × IsReaped (IsUnheld held) (files_in old volume) (files_in new volume') × (volume'.memory.clock ≡ volume.memory.clock)
        × IsUnnamed new volume' block }
    ensures bytes { (T : Types) (held : List ℕ) (old new : StoreState) (volume volume' : Volume) (block : ℕ) (inode : Inode) (was bytes : List ℕ) →
        IsOpen T old volume → IsBegun old volume block inode → bytes_in inode.content ≡ Ok was → All (λ b. b < 256) bytes → 0 < length bytes →
        WritesAll T held (Begun block (length was)) bytes old new volume volume' (Ok tt) →
        IsBegun new volume' block (rewritten volume.memory.clock (λ was. was ++ bytes) inode) }
{}

/// A session that gives up an inode that has no number changes no file, whatever it answers.
pub fn sessions_give_up_an_inode()
    ensures { (T : Types) (old new : StoreState) (volume volume' : Volume) (block : ℕ) (result : Result Bool Fault) → IsOpen T old volume →
        IsUnnamed old volume block → GivesUp T block old new volume volume' result →
        IsOpen T new volume' × (files_in new volume' ≡ files_in old volume) × (volume'.memory.clock ≡ volume.memory.clock) }
{}

/// An inode that was begun gets a number and its first name from a session, on a volume that is as before but for orphans, and nothing else changes. Where it
/// may replace, what had the name loses a link. Where that is refused, for want of space too, all is as before but for orphans; told is that it isn't the
/// store's own refusal.
pub fn sessions_name_an_inode()
    ensures named { (T : Types) (held : List ℕ) (old new : StoreState) (volume volume' : Volume) (block : ℕ) (inode : Inode) (d : ℕ) (name : List ℕ)
        (replace : Bool) (n : ℕ) → IsOpen T old volume → IsBegun old volume block inode → All (λ b. b < 256) name →
        MakesFreely (λ s s' v v' result. CommitDoes T s s' v v' block d name replace result) T held old new volume volume' (Ok n) →
        IsOpen T new volume' × (middle : StoreState) × (between : Volume) × IsAsBeforeButOrphans T held old middle volume between
        × GetsName (files_in middle between) (files_in new volume') volume.memory.clock d name replace n inode }
    ensures refused { (T : Types) (held : List ℕ) (old new : StoreState) (volume volume' : Volume) (block d : ℕ) (name : List ℕ) (replace : Bool)
        (fault : Fault) → IsOpen T old volume → ((reason : Refusal) → fault ≢ Kernel reason) →
        MakesFreely (λ s s' v v' result. CommitDoes T s s' v v' block d name replace result) T held old new volume volume' (Err fault) →
        IsAsBeforeButOrphans T held old new volume volume' }
{
    refused_commit_answers_the_files();
    want_of_space_changes_no_file();
    commit_names_an_inode();
    commit_replaces_a_name();
    give_up_changes_no_file();
}

/// A file or a symbolic link that a session puts, of any length, has a number that was free, its name, these bytes and attributes. Where it may replace, what
/// had the name loses a link. Nothing else changes, but that inodes without links that aren't held may be freed.
pub fn sessions_put_files()
    ensures { (T : Types) (held : List ℕ) (put : Put) (old new : StoreState) (volume volume' : Volume) (n : ℕ) → IsOpen T old volume →
        FitsAttributes put.attributes → put.kind ≢ kinds.Directory → All (λ b. b < 256) put.bytes.now → All (λ b. b < 256) put.name.now →
        PutDoes T held put old new volume volume' (Ok n) →
        IsOpen T new volume' × (files : Files) × IsReaped (IsUnheld held) (files_in old volume) files
        × GetsName files (files_in new volume') volume.memory.clock put.directory put.name.now put.replace n
        (new_inode volume.memory.clock put.attributes (new_content put.kind 0 put.bytes.now)) }
{
    begin_changes_no_file();
    begun_writes_change_no_file();
    give_up_changes_no_file();
    refused_commit_answers_the_files();
    want_of_space_changes_no_file();
    commit_names_an_inode();
    commit_replaces_a_name();
}

/// A put by a session that is refused, for want of space too, changes no file, but that inodes without links that aren't held may be freed. Told is that it
/// isn't the store's own refusal, before which some edits of the name may have been made.
pub fn refused_puts_change_no_file()
    ensures { (T : Types) (held : List ℕ) (put : Put) (old new : StoreState) (volume volume' : Volume) (fault : Fault) → IsOpen T old volume →
        FitsAttributes put.attributes → put.kind ≢ kinds.Directory → All (λ b. b < 256) put.bytes.now → ((reason : Refusal) → fault ≢ Kernel reason) →
        PutDoes T held put old new volume volume' (Err fault) →
        IsOpen T new volume' × IsReaped (IsUnheld held) (files_in old volume) (files_in new volume') }
{
    begin_changes_no_file();
    begun_writes_change_no_file();
    give_up_changes_no_file();
    refused_commit_answers_the_files();
    want_of_space_changes_no_file();
    commit_names_an_inode();
    commit_replaces_a_name();
}
