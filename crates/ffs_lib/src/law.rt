// Which names are good, and what reclaiming leaves.

ghost use Rattle.std.specs.Prelude.{◌≡◌, ◌≢◌, ℕ, List, None};
ghost use Rattle.ffs_model.specs.Names.{LinksGood};
ghost use Rattle.ffs_model.specs.Library.{library_layout};
ghost use Rattle.ffs_lookup.specs.Counts.{over_named};
ghost use Rattle.ffs_lookup.specs.FileValues.{files_of};
ghost use Rattle.ffs_lib.specs.Reclaiming.{LeftByRepair, name_count, needs};
ghost use Rattle.ffs_lib.specs.Results.{AsBefore};

/// An inode that has a name keeps its mode, its size, its bytes and its entries where inodes are reclaimed, also where the store refuses that.
pub fn named_inodes_stay()
    ensures { (old new : ℕ → List ℕ) (fs n : ℕ) → LeftByRepair old new fs n (needs (files_of old fs) n) → name_count (files_of old fs) n ≢ 0 →
        AsBefore old new fs n }
{}

/// Where no inode has more names than links, in any contents, the names of the file system are good: each inode that is named is in
/// use, and has links for all slots that name it.
pub fn counted_names_are_good()
    ensures { (content : ℕ → List ℕ) (fs : ℕ) → over_named content fs ≡ None → LinksGood library_layout content fs }
{}
