// Laws of how many bytes files have.

ghost use Rattle.std.specs.Prelude.{◌≡◌, ◌+◌, ◌≤◌, ℕ, ℤ, Bool, Contains, List, None, Ok, [], length};
ghost use Rattle.xn_model.specs.Lives.{StoreState};
ghost use Rattle.treefs_format.specs.Leaves.{greatest_size};
ghost use Rattle.treefs_model.specs.Changes.{linked, made, removed, renamed, replaced, truncated, unlinked, with_mtime, written};
ghost use Rattle.treefs_model.specs.Files.{Directory, File, Files, Inode, SymbolicLink, changed_at};
ghost use Rattle.treefs.specs.declared.attributes.Attributes.{Attributes as NewAttributes};
ghost use Rattle.treefs.specs.declared.volume.Volume.{Volume};
ghost use Rattle.treefs_byte_plans.specs.declared.attributes.Attributes.{Attributes};
ghost use Rattle.treefs_laws.specs.Begun.{IsBegun};
ghost use Rattle.treefs_laws.specs.Making.{new_inode};
ghost use Rattle.treefs_laws.specs.Orphans.{IsReaped};
ghost use Rattle.treefs_laws.specs.Overwriting.{IsPartlyPut};
ghost use Rattle.treefs_laws.specs.Reading.{HasFewBytes, IsOfFewBytes};
ghost use Rattle.treefs_laws.specs.Setting.{with_attributes};

/// No edit of a name gives a file more bytes than one may have: neither those of `create`, `symlink`, `mkdir` and `commit`, whose new inode has no more, nor those
/// of `link`, `unlink`, `rmdir` and `rename`.
pub fn names_keep_few_bytes()
    ensures made { (files : Files) (time : ℤ) (d : ℕ) (name : List ℕ) (n : ℕ) (inode : Inode) (m : ℕ) → IsOfFewBytes inode → HasFewBytes files m →
        HasFewBytes (made files time d name n inode) m }
    ensures replaced { (files files' : Files) (time : ℤ) (d : ℕ) (name : List ℕ) (n : ℕ) (inode : Inode) (m : ℕ) →
        replaced files time d name n inode ≡ Ok files' → IsOfFewBytes inode → HasFewBytes files m → HasFewBytes files' m }
    ensures linked { (files files' : Files) (time : ℤ) (n d : ℕ) (name : List ℕ) (m : ℕ) → linked files time n d name ≡ Ok files' →
        HasFewBytes files m → HasFewBytes files' m }
    ensures unlinked { (files files' : Files) (time : ℤ) (d : ℕ) (name : List ℕ) (m : ℕ) → unlinked files time d name ≡ Ok files' →
        HasFewBytes files m → HasFewBytes files' m }
    ensures removed { (files files' : Files) (time : ℤ) (d : ℕ) (name : List ℕ) (empty : Bool) (m : ℕ) → removed files time d name empty ≡ Ok files' →
        HasFewBytes files m → HasFewBytes files' m }
    ensures renamed { (files files' : Files) (time : ℤ) (d : ℕ) (name : List ℕ) (to : ℕ) (new : List ℕ) (below empty : Bool) (m : ℕ) →
        renamed files time d name to new below empty ≡ Ok files' → HasFewBytes files m → HasFewBytes files' m }
{}

/// New inodes have no more bytes than one may have: an empty file, a symbolic link to a target that stands in the inode, a directory, and an inode that was begun.
pub fn new_inodes_have_few_bytes()
    ensures file { (time : ℤ) (attributes : NewAttributes) → IsOfFewBytes (new_inode time attributes (File [])) }
    ensures link { (time : ℤ) (attributes : NewAttributes) (target : List ℕ) → length target ≤ 384 →
        IsOfFewBytes (new_inode time attributes (SymbolicLink target)) }
    ensures directory { (time : ℤ) (attributes : NewAttributes) (d : ℕ) → IsOfFewBytes (new_inode time attributes (Directory d (λ x. None))) }
    ensures begun { (state : StoreState) (volume : Volume) (block : ℕ) (inode : Inode) → IsBegun state volume block inode → IsOfFewBytes inode }
{}

/// No edit of attributes gives a file more bytes than one may have: neither that of `set_attributes` nor that of `set_mtime`.
pub fn attributes_keep_few_bytes()
    ensures attributes { (files : Files) (time : ℤ) (n : ℕ) (attributes : Attributes) (m : ℕ) → HasFewBytes files m →
        HasFewBytes (changed_at files n (with_attributes time attributes)) m }
    ensures times { (files : Files) (time mtime : ℤ) (n m : ℕ) → HasFewBytes files m → HasFewBytes (changed_at files n (with_mtime time mtime)) m }
{}

/// No edit of bytes gives a file more bytes than one may have: neither that of `truncate`, nor that of `write_some`, which ends within the greatest size, nor what
/// a write that is refused leaves.
pub fn bytes_stay_few()
    ensures truncated { (files files' : Files) (time : ℤ) (n size m : ℕ) → truncated files time n size ≡ Ok files' → HasFewBytes files m →
        HasFewBytes files' m }
    ensures written { (files files' : Files) (time : ℤ) (n at : ℕ) (bytes : List ℕ) (taken m : ℕ) → written files time n at bytes taken ≡ Ok files' →
        at + taken ≤ greatest_size → HasFewBytes files m → HasFewBytes files' m }
    ensures put { (files files' : Files) (n at : ℕ) (bytes : List ℕ) (m : ℕ) → IsPartlyPut files n at bytes files' → HasFewBytes files m →
        HasFewBytes files' m }
{}

/// Where orphans of some numbers are freed, or parts of them, no file has more bytes than one may have.
pub fn orphans_leave_few_bytes()
    ensures { (numbers : List ℕ) (old new : Files) (m : ℕ) → IsReaped (Contains numbers) old new → HasFewBytes old m → HasFewBytes new m }
{}
