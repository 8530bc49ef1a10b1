// Laws of what a session does where a call finds no space: it frees orphans that aren't held, writes all, and makes the call again.

ghost use Rattle.std.specs.Prelude.{◌≡◌, ◌⊎◌, ℕ, ◌≤◌, ◌<◌, All, Bool, Err, List, None, Ok, Result, [], length, true};
ghost use Rattle.xn_model.specs.Types.{Types};
ghost use Rattle.xn_model.specs.Lives.{StoreState};
ghost use Rattle.treefs_model.specs.Changes.{linked, removed};
ghost use Rattle.treefs_model.specs.Files.{Directory, File, SymbolicLink, number_in};
ghost use Rattle.treefs_model.specs.declared.fault.Fault.{Fault};
ghost use Rattle.treefs.specs.Creating.{CreateDoes, MkdirDoes, SymlinkDoes};
ghost use Rattle.treefs.specs.Linking.{LinkDoes};
ghost use Rattle.treefs.specs.Renaming.{RenameDoes};
ghost use Rattle.treefs.specs.Unlinking.{RmdirDoes};
ghost use Rattle.treefs.specs.declared.attributes.Attributes.{Attributes};
ghost use Rattle.treefs.specs.declared.volume.Volume.{Volume};
ghost use Rattle.treefs_laws.specs.Kept.{HasNoNames, files_in};
ghost use Rattle.treefs_laws.specs.Making.{FitsAttributes, MakesInode, new_inode};
ghost use Rattle.treefs_laws.specs.Moved.{IsOfDirectory, IsRenamed};
ghost use Rattle.treefs_laws.specs.Open.{IsOpen};
ghost use Rattle.treefs_laws.specs.Orphans.{without_orphans};
ghost use Rattle.treefs_session.specs.Freeing.{MakesFreely, Syncs, lacks_space, unheld};
ghost use Rattle.treefs_session.specs.Opening.{Closes, IsNotClosed};
ghost use Rattle.treefs_session.specs.Tries.{is_full};
ghost use Rattle.treefs_session_laws.specs.Before.{IsAsBefore, IsAsBeforeButOrphans};

use treefs_laws::law::{
    create_makes_a_file, link_makes_a_name, mkdir_makes_a_directory, open_volumes_stay_open,
    refused_link_answers_the_files, refused_new_inodes_answer_the_files,
    refused_rename_answers_the_files, refused_rmdir_answers_the_files, rename_moves_a_name,
    rmdir_ends_an_empty_directory, symlink_makes_a_link,
};
use treefs_laws::space::want_of_space_changes_no_file;
use treefs_session::Call;

/// A sync changes nothing but inodes without links that aren't held, whatever it answers. Once it is done those that the session knows of are gone, and nothing
/// else is.
pub fn syncs_free_orphans_alone()
    ensures ever { (T : Types) (held : List ℕ) (old new : StoreState) (volume volume' : Volume) (result : Result (Unit {0}) Fault) → IsOpen T old volume →
        Syncs T held old new volume volume' result → IsAsBeforeButOrphans T held old new volume volume' }
    ensures done { (T : Types) (held : List ℕ) (old new : StoreState) (volume volume' : Volume) → IsOpen T old volume →
        Syncs T held old new volume volume' (Ok tt) → files_in new volume' ≡ without_orphans (unheld held volume.memory.orphans) (files_in old volume) }
{}

/// Closing a session changes nothing but inodes without links, whatever it answers. Once it is closed those that waited to be freed are gone, and nothing else
/// is.
pub fn closes_free_orphans_alone()
    ensures ever { (T : Types) (old new : StoreState) (volume volume' : Volume) (fault : Fault) → IsOpen T old volume →
        IsNotClosed T old new volume volume' fault → IsAsBeforeButOrphans T [] old new volume volume' }
    ensures done { (T : Types) (old new : StoreState) (volume : Volume) → IsOpen T old volume → Closes T old new volume →
        (volume' : Volume) × IsAsBeforeButOrphans T [] old new volume volume'
        × (files_in new volume' ≡ without_orphans volume.memory.orphans (files_in old volume)) }
{}

/// A call that a session makes is done once, on a volume that is as before but for orphans that aren't held. Told is that it leaves an open volume as before
/// where it is full, or finds no space.
pub fn calls_are_made_on_files_without_orphans<C: Call>()
    ensures { (T : Types) (call : C) (held : List ℕ) (old new : StoreState) (volume volume' : Volume) (answer : C.Answer) →
        ((before after : StoreState) (v v' : Volume) (fault : Fault) → IsOpen T before v → (is_full fault ≡ true) ⊎ (lacks_space fault ≡ true) →
        C.does call T before after v v' (Err fault) → IsAsBefore T before after v v') →
        IsOpen T old volume → MakesFreely (C.does call T) T held old new volume volume' (Ok answer) →
        (middle : StoreState) × (between : Volume) × IsAsBeforeButOrphans T held old middle volume between
        × C.does call T middle new between volume' (Ok answer) }
{}

/// `create` by a session makes an empty file under a number and a name that were free, on a volume that is as before but for orphans, and does nothing else.
pub fn sessions_create_a_file()
    ensures { (T : Types) (held : List ℕ) (old new : StoreState) (volume volume' : Volume) (d : ℕ) (name : List ℕ) (attributes : Attributes) (n : ℕ) →
        IsOpen T old volume → FitsAttributes attributes → All (λ b. b < 256) name →
        MakesFreely (λ s s' v v' result. CreateDoes T s s' v v' d name attributes result) T held old new volume volume' (Ok n) →
        IsOpen T new volume' × (middle : StoreState) × (between : Volume) × IsAsBeforeButOrphans T held old middle volume between
        × MakesInode middle new between volume' d name n (new_inode volume.memory.clock attributes (File [])) }
{
    refused_new_inodes_answer_the_files();
    want_of_space_changes_no_file();
    create_makes_a_file();
}

/// `mkdir` by a session makes a directory without a name, on a volume that is as before but for orphans, and does nothing else.
pub fn sessions_make_a_directory()
    ensures { (T : Types) (held : List ℕ) (old new : StoreState) (volume volume' : Volume) (d : ℕ) (name : List ℕ) (attributes : Attributes) (n : ℕ) →
        IsOpen T old volume → FitsAttributes attributes → All (λ b. b < 256) name →
        MakesFreely (λ s s' v v' result. MkdirDoes T s s' v v' d name attributes result) T held old new volume volume' (Ok n) →
        IsOpen T new volume' × (middle : StoreState) × (between : Volume) × IsAsBeforeButOrphans T held old middle volume between
        × MakesInode middle new between volume' d name n (new_inode volume.memory.clock attributes (Directory d (λ x. None))) }
{
    refused_new_inodes_answer_the_files();
    want_of_space_changes_no_file();
    mkdir_makes_a_directory();
}

/// `symlink` by a session makes a symbolic link to a target that stands in the inode, on a volume that is as before but for orphans, and does nothing else.
pub fn sessions_make_a_link()
    ensures { (T : Types) (held : List ℕ) (old new : StoreState) (volume volume' : Volume) (d : ℕ) (name : List ℕ) (attributes : Attributes)
        (target : List ℕ) (n : ℕ) →
        IsOpen T old volume → FitsAttributes attributes → All (λ b. b < 256) name → All (λ b. b < 256) target → length target ≤ 384 →
        MakesFreely (λ s s' v v' result. SymlinkDoes T s s' v v' d name attributes target result) T held old new volume volume' (Ok n) →
        IsOpen T new volume' × (middle : StoreState) × (between : Volume) × IsAsBeforeButOrphans T held old middle volume between
        × MakesInode middle new between volume' d name n (new_inode volume.memory.clock attributes (SymbolicLink target)) }
{
    refused_new_inodes_answer_the_files();
    want_of_space_changes_no_file();
    symlink_makes_a_link();
}

/// `link` by a session makes one more name, which was free, on a volume that is as before but for orphans, and does nothing else.
pub fn sessions_make_a_name()
    ensures { (T : Types) (held : List ℕ) (old new : StoreState) (volume volume' : Volume) (n d : ℕ) (name : List ℕ) → IsOpen T old volume →
        All (λ b. b < 256) name → MakesFreely (λ s s' v v' result. LinkDoes T s s' v v' n d name result) T held old new volume volume' (Ok tt) →
        IsOpen T new volume' × (middle : StoreState) × (between : Volume) × IsAsBeforeButOrphans T held old middle volume between
        × (linked (files_in middle between) volume.memory.clock n d name ≡ Ok (files_in new volume')) }
{
    refused_link_answers_the_files();
    want_of_space_changes_no_file();
    link_makes_a_name();
}

/// `rmdir` by a session ends the name of a directory in which no name stands, on a volume that is as before but for orphans, and does nothing else.
pub fn sessions_end_a_directory()
    ensures { (T : Types) (held : List ℕ) (old new : StoreState) (volume volume' : Volume) (d : ℕ) (name : List ℕ) → IsOpen T old volume →
        MakesFreely (λ s s' v v' result. RmdirDoes T s s' v v' d name result) T held old new volume volume' (Ok tt) →
        IsOpen T new volume' × (middle : StoreState) × (between : Volume) × IsAsBeforeButOrphans T held old middle volume between
        × (n : ℕ) × (number_in (files_in middle between) d name ≡ Ok n) × HasNoNames (files_in middle between) n
        × (removed (files_in middle between) volume.memory.clock d name true ≡ Ok (files_in new volume')) }
{
    refused_rmdir_answers_the_files();
    want_of_space_changes_no_file();
    rmdir_ends_an_empty_directory();
    open_volumes_stay_open();
}

/// `rename` by a session moves a name, on a volume that is as before but for orphans, and does nothing else.
pub fn sessions_move_a_name()
    ensures { (T : Types) (held : List ℕ) (old new : StoreState) (volume volume' : Volume) (d : ℕ) (name : List ℕ) (to : ℕ) (other : List ℕ) →
        IsOpen T old volume → IsOfDirectory (files_in old volume) d name → All (λ b. b < 256) other →
        MakesFreely (λ s s' v v' result. RenameDoes T s s' v v' d name to other result) T held old new volume volume' (Ok tt) →
        IsOpen T new volume' × (middle : StoreState) × (between : Volume) × IsAsBeforeButOrphans T held old middle volume between
        × IsRenamed middle new between volume' d name to other }
{
    refused_rename_answers_the_files();
    want_of_space_changes_no_file();
    rename_moves_a_name();
}
