// Look-ups of the bytes, as functions of the files that these have.

ghost use Rattle.std.specs.Prelude.{◌≡◌, ◌⊎◌, ◌+◌, ℕ, List, Ok, length};
ghost use Rattle.ffs_lookup.specs.Files.{AreSingle, Files, InodeValue, created, empty_volume, listed, new_directory, new_file, read, read_over, removed};
ghost use Rattle.ffs_lookup.specs.Files.{renamed, replaced, fault_told, unlinked, written};
ghost use Rattle.ffs_lookup.specs.FileValues.{files_of};
ghost use Rattle.ffs_lookup.specs.Newest.{create_in, file_in, mapped, names_in, read_count, read_into, rename_in, rmdir_in, unlink_in, write_in};

/// What a call looks up in the bytes of a file system has the fault of the call's function of the files, and passes where that answers.
pub fn look_ups_are_of_files()
    ensures created { (content : ℕ → List ℕ) (fs d : ℕ) (name : List ℕ) (value : InodeValue) →
        fault_told (create_in content fs d name) ≡ fault_told (created value (files_of content fs) d name) }
    ensures written { (content : ℕ → List ℕ) (fs n offset : ℕ) (bytes : List ℕ) →
        fault_told (write_in content fs n (offset + length bytes)) ≡ fault_told (written (files_of content fs) n offset bytes) }
    ensures unlinked { (content : ℕ → List ℕ) (fs d : ℕ) (name : List ℕ) →
        fault_told (unlink_in content fs d name) ≡ fault_told (unlinked (files_of content fs) d name) }
    ensures removed { (content : ℕ → List ℕ) (fs d : ℕ) (name : List ℕ) →
        fault_told (rmdir_in content fs d name) ≡ fault_told (removed (files_of content fs) d name) }
    ensures renamed { (content : ℕ → List ℕ) (fs d : ℕ) (name : List ℕ) (other : ℕ) (new_name : List ℕ) →
        fault_told (rename_in content fs d name other new_name) ≡ fault_told (renamed (files_of content fs) d name other new_name) }
    ensures listed { (content : ℕ → List ℕ) (fs d : ℕ) → names_in content fs d ≡ listed (files_of content fs) d }
    ensures count { (content : ℕ → List ℕ) (fs n offset count : ℕ) →
        read_count count offset (file_in content fs n) ≡ mapped length (read (files_of content fs) n offset count) }
    ensures bytes { (content : ℕ → List ℕ) (fs n offset : ℕ) (old : List ℕ) →
        read_into content old offset (file_in content fs n) ≡ read_over old (read (files_of content fs) n offset (length old)) }
{}

/// What each call makes of the files has no name twice in a directory, where that was so before. A crash may end that: of two edits in two
/// blocks of a directory the later may be the one that is on the disk.
pub fn names_stand_once()
    ensures made { AreSingle empty_volume }
    ensures created { (files : Files) (d : ℕ) (name : List ℕ) (value : InodeValue) (next : ℕ × Files) → (value ≡ new_file) ⊎ (value ≡ new_directory) →
        created value files d name ≡ Ok next → AreSingle files → AreSingle next.1 }
    ensures written { (files : Files) (n offset : ℕ) (bytes : List ℕ) (next : Unit {0} × Files) →
        written files n offset bytes ≡ Ok next → AreSingle files → AreSingle next.1 }
    ensures unlinked { (files : Files) (d : ℕ) (name : List ℕ) (next : Unit {0} × Files) →
        unlinked files d name ≡ Ok next → AreSingle files → AreSingle next.1 }
    ensures removed { (files : Files) (d : ℕ) (name : List ℕ) (next : Unit {0} × Files) →
        removed files d name ≡ Ok next → AreSingle files → AreSingle next.1 }
    ensures renamed { (files : Files) (d : ℕ) (name : List ℕ) (other : ℕ) (new_name : List ℕ) (next : Unit {0} × Files) →
        renamed files d name other new_name ≡ Ok next → AreSingle files → AreSingle next.1 }
    ensures replaced { (files : Files) (d : ℕ) (name : List ℕ) (other : ℕ) (other_name : List ℕ) (next : Unit {0} × Files) →
        replaced files d name other other_name ≡ Ok next → AreSingle files → AreSingle next.1 }
{}
