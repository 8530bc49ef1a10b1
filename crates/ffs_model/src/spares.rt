// Links that an inode has to spare in every cut.

ghost use Rattle.std.specs.Prelude.{◌≡◌, ◌≢◌, ◌<◌, ℕ, Option, None};
ghost use Rattle.xn_model.specs.Types.{Types};
ghost use Rattle.xn_model.specs.Lives.{StoreState};
ghost use Rattle.xn_model.specs.Calls.{Edit, pending_of};
ghost use Rattle.ffs_model.specs.Cuts.{Choice, IsCut, Under, seen, latest};
ghost use Rattle.ffs_model.specs.Names.{Layout, IsInodes, LeavesRoom, Names};
ghost use Rattle.ffs_model.specs.Volumes.{KeepsNumber, VolumeKeeps};
ghost use Rattle.ffs_model.specs.Edits.{InodeFreed, LinksTaken};
ghost use Rattle.ffs_model.specs.Laws.{Proposes, bytes_written_by};

/// Where nothing of a file system is pending, each cut has no name that the newest bytes lack. So what an inode's links are more than
/// its newest names is to spare in every cut.
pub fn spares_begin()
    ensures names { (T : Types) (L : Layout) (fs : ℕ) (array : ℕ → Option ℕ) (state : StoreState) → VolumeKeeps T L fs array state → pending_of state fs ≡ 0 →
        (k : Choice) → IsCut state.lives k → (n : ℕ) (y : ℕ × ℕ) → Names L (seen state.lives k) fs n y → Names L (latest state.lives) fs n y }
    ensures spare { (T : Types) (L : Layout) (fs : ℕ) (array : ℕ → Option ℕ) (state : StoreState) → VolumeKeeps T L fs array state → pending_of state fs ≡ 0 →
        (n m block : ℕ) → n ≢ 0 → IsInodes L (latest state.lives) fs (L.home n).0 block →
        LeavesRoom m (L.links (latest state.lives block) (L.home n).1) (Names L (latest state.lives) fs n) → KeepsNumber L state.lives fs None m n }
{}

/// Links that are to spare in the cuts that take what an edit comes after may be taken by that edit; and with all its links the inode
/// may be given up.
pub fn spares_may_go()
    ensures links { (T : Types) (L : Layout) (fs : ℕ) (array : ℕ → Option ℕ) (state new : StoreState) (block : ℕ) (edit : Edit) (entry n m : ℕ) →
        Proposes T L fs array state block edit entry new → n ≢ 0 → IsInodes L (latest state.lives) fs (L.home n).0 block →
        KeepsNumber L state.lives fs edit.after m n → LinksTaken L (latest state.lives block) (bytes_written_by state.lives block edit) (L.home n).1 m →
        VolumeKeeps T L fs array new }
    ensures inode { (T : Types) (L : Layout) (fs : ℕ) (array : ℕ → Option ℕ) (state new : StoreState) (block : ℕ) (edit : Edit) (entry n m : ℕ) →
        Proposes T L fs array state block edit entry new → n ≢ 0 → IsInodes L (latest state.lives) fs (L.home n).0 block →
        KeepsNumber L state.lives fs edit.after m n → L.links (latest state.lives block) (L.home n).1 ≡ m →
        InodeFreed L (latest state.lives block) (bytes_written_by state.lives block edit) (L.home n).1 → VolumeKeeps T L fs array new }
{}

/// What another inode has to spare it keeps over such an edit, and over one of a block of another type, as an indirect one.
pub fn spares_stay()
    ensures links { (T : Types) (L : Layout) (fs : ℕ) (array : ℕ → Option ℕ) (state new : StoreState) (block : ℕ) (edit : Edit) (entry n q i m : ℕ)
        (g : Option ℕ) →
        Proposes T L fs array state block edit entry new → n ≢ 0 → IsInodes L (latest state.lives) fs (L.home n).0 block →
        LinksTaken L (latest state.lives block) (bytes_written_by state.lives block edit) (L.home n).1 q → i ≢ 0 → i ≢ n →
        KeepsNumber L state.lives fs g m i → KeepsNumber L new.lives fs g m i }
    ensures inode { (T : Types) (L : Layout) (fs : ℕ) (array : ℕ → Option ℕ) (state new : StoreState) (block : ℕ) (edit : Edit) (entry n i m : ℕ)
        (g : Option ℕ) →
        Proposes T L fs array state block edit entry new → n ≢ 0 → IsInodes L (latest state.lives) fs (L.home n).0 block →
        InodeFreed L (latest state.lives block) (bytes_written_by state.lives block edit) (L.home n).1 → i ≢ 0 → i ≢ n →
        KeepsNumber L state.lives fs g m i → KeepsNumber L new.lives fs g m i }
    ensures indirect { (T : Types) (L : Layout) (fs : ℕ) (array : ℕ → Option ℕ) (state new : StoreState) (block : ℕ) (edit : Edit) (entry ty i m : ℕ)
        (g : Option ℕ) →
        Proposes T L fs array state block edit entry new → ty ≢ 2 → ty ≢ 3 → ty ≢ 4 → Under T (latest state.lives) fs block ty → i ≢ 0 →
        KeepsNumber L state.lives fs g m i → KeepsNumber L new.lives fs g m i }
{}
