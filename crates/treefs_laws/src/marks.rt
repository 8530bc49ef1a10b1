// Laws of the mark that says whether a volume was closed.

ghost use Rattle.std.specs.Prelude.{◌≡◌, Bool, Result};
ghost use Rattle.xn_model.specs.Types.{Types};
ghost use Rattle.xn_model.specs.Lives.{StoreState};
ghost use Rattle.treefs_model.specs.declared.fault.Fault.{Fault};
ghost use Rattle.treefs_edits.specs.Plans.{Does};
ghost use Rattle.treefs.specs.Opening.{mark_plan};
ghost use Rattle.treefs.specs.declared.volume.Volume.{Volume};
ghost use Rattle.treefs_laws.specs.Kept.{files_in};
ghost use Rattle.treefs_laws.specs.Open.{IsOpen};
ghost use Rattle.treefs_laws.specs.Unnamed.{KeepsUnnamed};

/// The mark of a volume as closed, or open, changes no file, whatever it answers. An inode that has no number has none then.
pub fn marks_change_no_file()
    ensures { (T : Types) (old new : StoreState) (volume : Volume) (clean : Bool) (result : Result (Unit {0}) Fault) → IsOpen T old volume →
        Does T volume.tree.fs.number (mark_plan volume.tree.top clean) old new result →
        IsOpen T new volume × (files_in new volume ≡ files_in old volume) × KeepsUnnamed old new volume volume }
{}
