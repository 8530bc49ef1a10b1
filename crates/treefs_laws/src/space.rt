// Laws of calls that find no space.

ghost use Rattle.std.specs.Prelude.{ℕ, Bool, Err, List};
ghost use Rattle.xn_model.specs.Types.{Types};
ghost use Rattle.xn_model.specs.Lives.{StoreState};
ghost use Rattle.treefs_format.specs.declared.kind.Kind.{Kind};
ghost use Rattle.treefs_model.specs.declared.fault.Fault.{Fault};
ghost use Rattle.treefs.specs.Committing.{CommitDoes};
ghost use Rattle.treefs.specs.Creating.{BeginDoes, CreateDoes, MkdirDoes, SymlinkDoes};
ghost use Rattle.treefs.specs.Linking.{LinkDoes};
ghost use Rattle.treefs.specs.Renaming.{RenameDoes};
ghost use Rattle.treefs.specs.Unlinking.{RmdirDoes};
ghost use Rattle.treefs.specs.declared.attributes.Attributes.{Attributes};
ghost use Rattle.treefs.specs.declared.volume.Volume.{Volume};
ghost use Rattle.treefs_laws.specs.Open.{IsOpen};
ghost use Rattle.treefs_laws.specs.Space.{LacksSpace, LeavesFiles};

/// Calls on names, and the parts of a put, that find no space or no number change no file: blocks that were begun are forgotten.
pub fn want_of_space_changes_no_file()
    ensures create { (T : Types) (state state' : StoreState) (volume volume' : Volume) (d : ℕ) (name : List ℕ) (attributes : Attributes) (fault : Fault) →
        IsOpen T state volume → LacksSpace fault → CreateDoes T state state' volume volume' d name attributes (Err fault) →
        LeavesFiles T state state' volume volume' }
    ensures symlink { (T : Types) (state state' : StoreState) (volume volume' : Volume) (d : ℕ) (name : List ℕ) (attributes : Attributes) (target : List ℕ)
        (fault : Fault) → IsOpen T state volume → LacksSpace fault → SymlinkDoes T state state' volume volume' d name attributes target (Err fault) →
        LeavesFiles T state state' volume volume' }
    ensures mkdir { (T : Types) (state state' : StoreState) (volume volume' : Volume) (d : ℕ) (name : List ℕ) (attributes : Attributes) (fault : Fault) →
        IsOpen T state volume → LacksSpace fault → MkdirDoes T state state' volume volume' d name attributes (Err fault) →
        LeavesFiles T state state' volume volume' }
    ensures link { (T : Types) (state state' : StoreState) (volume volume' : Volume) (n d : ℕ) (name : List ℕ) (fault : Fault) →
        IsOpen T state volume → LacksSpace fault → LinkDoes T state state' volume volume' n d name (Err fault) → LeavesFiles T state state' volume volume' }
    ensures rmdir { (T : Types) (state state' : StoreState) (volume volume' : Volume) (d : ℕ) (name : List ℕ) (fault : Fault) →
        IsOpen T state volume → LacksSpace fault → RmdirDoes T state state' volume volume' d name (Err fault) → LeavesFiles T state state' volume volume' }
    ensures rename { (T : Types) (state state' : StoreState) (volume volume' : Volume) (d : ℕ) (name : List ℕ) (to : ℕ) (new : List ℕ) (fault : Fault) →
        IsOpen T state volume → LacksSpace fault → RenameDoes T state state' volume volume' d name to new (Err fault) →
        LeavesFiles T state state' volume volume' }
    ensures begin { (T : Types) (state state' : StoreState) (volume : Volume) (kind : Kind) (attributes : Attributes) (head : List ℕ) (fault : Fault) →
        IsOpen T state volume → LacksSpace fault → BeginDoes T state state' volume kind attributes head (Err fault) →
        LeavesFiles T state state' volume volume }
    ensures commit { (T : Types) (state state' : StoreState) (volume volume' : Volume) (block d : ℕ) (name : List ℕ) (replace : Bool) (fault : Fault) →
        IsOpen T state volume → LacksSpace fault → CommitDoes T state state' volume volume' block d name replace (Err fault) →
        LeavesFiles T state state' volume volume' }
{}
