// Laws of sessions.

ghost use Rattle.std.specs.Prelude.{◌≡◌, ℕ, ℤ, Bool, Err, FitsSigned, false, List, Ok, Result};
ghost use Rattle.std.specs.Int.{w64};
ghost use Rattle.xn_model.specs.Types.{Types};
ghost use Rattle.xn_model.specs.Lives.{StoreState};
ghost use Rattle.store_types.specs.declared.refusal.Refusal.{Refusal};
ghost use Rattle.xn_kernel.specs.FlushedStates.{StateRefuses, StateWaves};
ghost use Rattle.treefs_model.specs.Changes.{unlinked, with_mtime};
ghost use Rattle.treefs_model.specs.Files.{and_then, changed_at, found};
ghost use Rattle.treefs_model.specs.declared.fault.Fault.{Fault};
ghost use Rattle.treefs_model.specs.declared.fault.Fault.TheVariants.{Full};
ghost use Rattle.treefs_byte_plans.specs.declared.attributes.Attributes.{Attributes};
ghost use Rattle.treefs.specs.Setting.{AttributesDoes, MtimeDoes};
ghost use Rattle.treefs.specs.Unlinking.{UnlinkDoes};
ghost use Rattle.treefs.specs.declared.volume.Volume.{Volume};
ghost use Rattle.treefs_laws.specs.Kept.{files_in};
ghost use Rattle.treefs_laws.specs.Open.{IsOpen};
ghost use Rattle.treefs_laws.specs.Setting.{AreInWidth, with_attributes};
ghost use Rattle.treefs_session.specs.Freeing.{MakesFreely, lacks_space};
ghost use Rattle.treefs_session.specs.Tries.{MakesRoom, Tries};
ghost use Rattle.treefs_session_laws.specs.Before.{IsAsBefore};

use treefs_laws::law::{
    open_volumes_stay_open, refused_attributes_change_nothing, refused_unlink_answers_the_files,
    set_attributes_sets_what_is_told, set_mtime_sets_a_time, unlink_ends_a_name,
};
use treefs_session::Call;

/// A flush changes no file, whether it ends, is refused or stops.
pub fn flushes_change_no_file()
    ensures waves { (T : Types) (old new : StoreState) (volume : Volume) (waves : ℕ) → IsOpen T old volume → StateWaves waves old new →
        IsAsBefore T old new volume volume }
    ensures refused { (T : Types) (old new : StoreState) (volume : Volume) (refusal : Refusal) → IsOpen T old volume → StateRefuses old refusal new →
        IsAsBefore T old new volume volume }
{}

/// What is done to make room for a call changes no file, whatever it answers.
pub fn making_room_changes_no_file()
    ensures { (T : Types) (old new : StoreState) (volume volume' : Volume) (result : Result Bool Fault) → IsOpen T old volume →
        MakesRoom T old new volume volume' result → IsAsBefore T old new volume volume' }
{}

/// A call that is made until it has room is done once, on a volume that is as before: told is that it leaves the volume so where it is full.
pub fn calls_are_done_once<C: Call>()
    ensures { (T : Types) (call : C) (left : ℕ) (old new : StoreState) (volume volume' : Volume) (answer : C.Answer) →
        ((before after : StoreState) (v v' : Volume) → IsOpen T before v → C.does call T before after v v' (Err Full) → IsAsBefore T before after v v') →
        IsOpen T old volume → Tries (C.does call T) T left old new volume volume' (Ok answer) →
        (middle : StoreState) × (between : Volume) × IsAsBefore T old middle volume between × C.does call T middle new between volume' (Ok answer) }
{}

/// A call that a session makes is done once, on a volume that is as before, where it never finds too little space: then nothing is freed for it. Told
/// are that it leaves an open volume as before where it is full, and that it answers no want of space.
pub fn calls_that_need_no_space_are_done_once<C: Call>()
    ensures { (T : Types) (call : C) (held : List ℕ) (old new : StoreState) (volume volume' : Volume) (answer : C.Answer) →
        ((before after : StoreState) (v v' : Volume) → IsOpen T before v → C.does call T before after v v' (Err Full) → IsAsBefore T before after v v') →
        ((before after : StoreState) (v v' : Volume) (fault : Fault) → IsOpen T before v → C.does call T before after v v' (Err fault) →
        lacks_space fault ≡ false) →
        IsOpen T old volume → MakesFreely (C.does call T) T held old new volume volume' (Ok answer) →
        (middle : StoreState) × (between : Volume) × IsAsBefore T old middle volume between × C.does call T middle new between volume' (Ok answer) }
{}

/// `unlink` by a session ends the name and does nothing else: the files are those of before, but for this name.
pub fn sessions_end_a_name()
    ensures { (T : Types) (held : List ℕ) (old new : StoreState) (volume volume' : Volume) (d : ℕ) (name : List ℕ) → IsOpen T old volume →
        MakesFreely (λ s s' v v' result. UnlinkDoes T s s' v v' d name result) T held old new volume volume' (Ok tt) →
        IsOpen T new volume' × (unlinked (files_in old volume) volume.memory.clock d name ≡ Ok (files_in new volume')) }
{
    refused_unlink_answers_the_files();
    unlink_ends_a_name();
    open_volumes_stay_open();
}

/// `set_attributes` by a session sets those that are told, and when the inode changed, and does nothing else.
pub fn sessions_set_attributes()
    ensures { (T : Types) (held : List ℕ) (old new : StoreState) (volume volume' : Volume) (n : ℕ) (attributes : Attributes) → IsOpen T old volume →
        AreInWidth attributes →
        MakesFreely (λ s s' v v' result. AttributesDoes T s s' v v' n attributes result) T held old new volume volume' (Ok tt) →
        IsOpen T new volume' × (and_then (found (files_in old volume) n)
        (λ inode. Ok (changed_at (files_in old volume) n (with_attributes volume.memory.clock attributes))) ≡ Ok (files_in new volume')) }
{
    refused_attributes_change_nothing();
    set_attributes_sets_what_is_told();
    open_volumes_stay_open();
}

/// `set_mtime` by a session sets when the content of an inode changed, and does nothing else.
pub fn sessions_set_a_time()
    ensures { (T : Types) (held : List ℕ) (old new : StoreState) (volume volume' : Volume) (n : ℕ) (mtime : ℤ) → IsOpen T old volume →
        FitsSigned w64 mtime →
        MakesFreely (λ s s' v v' result. MtimeDoes s v v' n mtime result × (s' ≡ s)) T held old new volume volume' (Ok tt) →
        IsOpen T new volume' × (and_then (found (files_in old volume) n)
        (λ inode. Ok (changed_at (files_in old volume) n (with_mtime volume.memory.clock mtime))) ≡ Ok (files_in new volume')) }
{
    refused_attributes_change_nothing();
    set_mtime_sets_a_time();
    open_volumes_stay_open();
}
