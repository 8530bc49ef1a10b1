// Laws of calls.

ghost use Rattle.std.specs.Prelude.{◌≡◌, ◌≢◌, ◌⊎◌, ◌+◌, ◌<◌, ◌≤◌, ℕ, ℤ, All, FitsSigned, List, Option, None, Some, Ok, Err, Result, [], drop, false};
ghost use Rattle.std.specs.Prelude.{length, take, true};
ghost use Rattle.std.specs.Int.{w64};
ghost use Rattle.xn_model.specs.Types.{Types};
ghost use Rattle.xn_model.specs.Lives.{StoreState};
ghost use Rattle.store_types.specs.declared.refusal.Refusal.{Refusal};
ghost use Rattle.treefs_format.specs.Leaves.{greatest_size};
ghost use Rattle.treefs_format.specs.declared.kind.Kind.{Kind};
ghost use Rattle.treefs_format.specs.declared.kind.Kind.TheVariants as kinds;
ghost use Rattle.treefs_model.specs.Changes.{IsListing, linked, new_name, read, removed, replaced, target, truncated, unlinked, with_mtime, written};
ghost use Rattle.treefs_model.specs.Files.{Directory, File, Inode, Names, SymbolicLink, and_then, changed_at, file_at, found, number_in};
ghost use Rattle.treefs_model.specs.declared.fault.Fault.{Fault};
ghost use Rattle.treefs_model.specs.declared.fault.Fault.TheVariants.{Full, Kernel};
ghost use Rattle.treefs_lookup.specs.Bytes.{read_count, read_into};
ghost use Rattle.treefs_lookup.specs.Inodes.{file_found, link_found};
ghost use Rattle.treefs_lookup.specs.Readable.{readable};
ghost use Rattle.treefs_lookup.specs.declared.bucket.Bucket.{Bucket};
ghost use Rattle.treefs_lookup.specs.declared.inodes.Found.{Found};
ghost use Rattle.treefs.specs.Committing.{CommitDoes};
ghost use Rattle.treefs.specs.Creating.{BeginDoes, CreateDoes, MkdirDoes, SymlinkDoes};
ghost use Rattle.treefs.specs.Linking.{LinkDoes};
ghost use Rattle.treefs.specs.Reads.{lookup_of, stat_of};
ghost use Rattle.treefs.specs.Renaming.{RenameDoes};
ghost use Rattle.treefs.specs.Setting.{AttributesDoes, MtimeDoes};
ghost use Rattle.treefs.specs.Sizing.{TruncateDoes};
ghost use Rattle.treefs.specs.Trimming.{Blanks, Drops, Roots, TrimCallDoes, TrimsFirst, Waits};
ghost use Rattle.treefs.specs.Unlinking.{RmdirDoes, UnlinkDoes};
ghost use Rattle.treefs.specs.Writing.{WriteDoes};
ghost use Rattle.treefs.specs.WritingTimes.{WriteTimesDoes};
ghost use Rattle.treefs.specs.declared.attributes.Attributes.{Attributes as NewAttributes};
ghost use Rattle.treefs.specs.declared.volume.Volume.{Volume};
ghost use Rattle.treefs_values.specs.Attached.{new_content};
ghost use Rattle.treefs_values.specs.Values.{found_value};
ghost use Rattle.treefs_byte_plans.specs.Sizes.{IsTrimToTruncate};
ghost use Rattle.treefs_byte_plans.specs.Writes.{IsTrimToWrite};
ghost use Rattle.treefs_byte_plans.specs.declared.attributes.Attributes.{Attributes};
ghost use Rattle.treefs_byte_plans.specs.declared.kept.Kept.{Kept};
ghost use Rattle.treefs_laws.specs.Begun.{IsBegun};
ghost use Rattle.treefs_laws.specs.Kept.{HasNoNames, IsKept, files_in};
ghost use Rattle.treefs_laws.specs.Making.{FitsAttributes, MakesInode, new_inode};
ghost use Rattle.treefs_laws.specs.Moved.{IsOfDirectory, IsRenamed};
ghost use Rattle.treefs_laws.specs.Open.{IsOpen};
ghost use Rattle.treefs_laws.specs.Reading.{AreAnswered, HasFewBytes, listed_by, read_bytes};
ghost use Rattle.treefs_laws.specs.Overwriting.{IsPartlyPut};
ghost use Rattle.treefs_laws.specs.Refusals.{IsNoNumber, IsNoPlace, IsNotMoved, IsNotRemoved, IsOfStore, IsRefused, IsWant};
ghost use Rattle.treefs_laws.specs.Setting.{AreInWidth, with_attributes};
ghost use Rattle.treefs_laws.specs.Trimmed.{AreKeptOf, IsKeptOf};
ghost use Rattle.treefs_laws.specs.Unnamed.{KeepsUnnamed};

/// Look-ups of names answer what the files say, each fault in its order, and so does `stat`.
pub fn look_ups_answer_the_files()
    ensures names { (state : StoreState) (volume : Volume) (d : ℕ) (name : List ℕ) →
        lookup_of (readable state volume.tree.fs.number) volume.tree.top d name ≡ number_in (files_in state volume) d name }
    ensures inodes { (state : StoreState) (volume : Volume) (n : ℕ) → let content = readable state volume.tree.fs.number in
        and_then (stat_of content volume.tree.top volume.memory n) (λ x. Ok (found_value content volume.tree.top x)) ≡ found (files_in state volume) n }
{}

/// Reads of a file or a symbolic link answer its bytes, as the files say them, and each fault in its order; what they were given behind these stays.
pub fn reads_answer_the_files()
    ensures files { (state : StoreState) (volume : Volume) (n at : ℕ) (old : List ℕ) → HasFewBytes (files_in state volume) n →
        let content = readable state volume.tree.fs.number in
        read_bytes content (file_found content volume.tree.top n) at old ≡ read (files_in state volume) n at (length old) }
    ensures links { (state : StoreState) (volume : Volume) (n at : ℕ) (old : List ℕ) → HasFewBytes (files_in state volume) n →
        let content = readable state volume.tree.fs.number in
        read_bytes content (link_found content volume.tree.top n) at old
        ≡ and_then (target (files_in state volume) n) (λ bytes. Ok (take (length old) (drop at bytes))) }
    ensures rest { (content : ℕ → List ℕ) (file : Result Found Fault) (at : ℕ) (old : List ℕ) →
        and_then (read_count file at (length old)) (λ count. Ok (drop count (read_into content file at old)))
        ≡ and_then (read_count file at (length old)) (λ count. Ok (drop count old)) }
{}

/// Buckets that `read_directory` answers one after another, from 0 on until there is none, list the names of a directory, each once, with their numbers.
pub fn directories_are_listed()
    ensures { (T : Types) (state : StoreState) (volume : Volume) (n parent : ℕ) (inode : Inode) (names : Names) (buckets : List Bucket) →
        IsKept T state volume → files_in state volume n ≡ Some inode → inode.content ≡ Directory parent names →
        AreAnswered state volume.tree n 0 buckets → IsListing names (listed_by buckets) }
{}

/// `set_mtime` sets when the content of an inode changed, and does nothing else.
pub fn set_mtime_sets_a_time()
    ensures { (T : Types) (state : StoreState) (volume volume' : Volume) (n : ℕ) (mtime : ℤ) → FitsSigned w64 mtime → IsKept T state volume →
        MtimeDoes state volume volume' n mtime (Ok tt) → IsKept T state volume' × (and_then (found (files_in state volume) n)
        (λ inode. Ok (changed_at (files_in state volume) n (with_mtime volume.memory.clock mtime))) ≡ Ok (files_in state volume')) }
{}

/// `set_attributes` sets those that are told, and when the inode changed, and does nothing else.
pub fn set_attributes_sets_what_is_told()
    ensures { (T : Types) (state state' : StoreState) (volume volume' : Volume) (n : ℕ) (attributes : Attributes) → AreInWidth attributes →
        IsKept T state volume → AttributesDoes T state state' volume volume' n attributes (Ok tt) →
        IsKept T state' volume' × (and_then (found (files_in state volume) n)
        (λ inode. Ok (changed_at (files_in state volume) n (with_attributes volume.memory.clock attributes))) ≡ Ok (files_in state' volume')) }
{}

/// `unlink` ends the name and does nothing else: the inode has a link fewer, and the directory the caller's time.
pub fn unlink_ends_a_name()
    ensures { (T : Types) (state state' : StoreState) (volume volume' : Volume) (d : ℕ) (name : List ℕ) → IsKept T state volume →
        UnlinkDoes T state state' volume volume' d name (Ok tt) →
        IsKept T state' volume' × (unlinked (files_in state volume) volume.memory.clock d name ≡ Ok (files_in state' volume')) }
{}

/// `rmdir` ends the name of a directory in which no name stands, and does nothing else.
pub fn rmdir_ends_an_empty_directory()
    ensures { (T : Types) (state state' : StoreState) (volume volume' : Volume) (d : ℕ) (name : List ℕ) → IsKept T state volume →
        RmdirDoes T state state' volume volume' d name (Ok tt) →
        IsKept T state' volume' × (n : ℕ) × (number_in (files_in state volume) d name ≡ Ok n) × HasNoNames (files_in state volume) n
        × (removed (files_in state volume) volume.memory.clock d name true ≡ Ok (files_in state' volume')) }
{}

/// `create` makes an empty file with the attributes that are told and one link, under a number and a name that were free, and does nothing else.
pub fn create_makes_a_file()
    ensures { (T : Types) (state state' : StoreState) (volume volume' : Volume) (d : ℕ) (name : List ℕ) (attributes : NewAttributes) (n : ℕ) →
        IsOpen T state volume → FitsAttributes attributes → All (λ b. b < 256) name →
        CreateDoes T state state' volume volume' d name attributes (Ok n) →
        IsOpen T state' volume' × MakesInode state state' volume volume' d name n (new_inode volume.memory.clock attributes (File [])) }
{}

/// `symlink` makes a symbolic link to a target that stands in the inode, and does nothing else.
pub fn symlink_makes_a_link()
    ensures { (T : Types) (state state' : StoreState) (volume volume' : Volume) (d : ℕ) (name : List ℕ) (attributes : NewAttributes) (target : List ℕ)
        (n : ℕ) → IsOpen T state volume → FitsAttributes attributes → All (λ b. b < 256) name → All (λ b. b < 256) target → length target ≤ 384 →
        SymlinkDoes T state state' volume volume' d name attributes target (Ok n) →
        IsOpen T state' volume' × MakesInode state state' volume volume' d name n (new_inode volume.memory.clock attributes (SymbolicLink target)) }
{}

/// `mkdir` makes a directory without a name, which stands in the one that has its name, and does nothing else.
pub fn mkdir_makes_a_directory()
    ensures { (T : Types) (state state' : StoreState) (volume volume' : Volume) (d : ℕ) (name : List ℕ) (attributes : NewAttributes) (n : ℕ) →
        IsOpen T state volume → FitsAttributes attributes → All (λ b. b < 256) name →
        MkdirDoes T state state' volume volume' d name attributes (Ok n) →
        IsOpen T state' volume'
        × MakesInode state state' volume volume' d name n (new_inode volume.memory.clock attributes (Directory d (λ x. None))) }
{}

/// `rename` moves a name, and does nothing else: what had the new name, if something other had, loses a link, and a directory stands where its new name is.
/// Where both names lead to one inode nothing is done. Told is that no directory stands in itself, and where the one stands that moves.
pub fn rename_moves_a_name()
    ensures { (T : Types) (state state' : StoreState) (volume volume' : Volume) (d : ℕ) (name : List ℕ) (to : ℕ) (new : List ℕ) → IsOpen T state volume →
        IsOfDirectory (files_in state volume) d name → All (λ b. b < 256) new → RenameDoes T state state' volume volume' d name to new (Ok tt) →
        IsOpen T state' volume' × IsRenamed state state' volume volume' d name to new }
{}

/// `link` makes one more name of a file or a symbolic link that has a link, which was free, and does nothing else: the inode has a link more.
pub fn link_makes_a_name()
    ensures { (T : Types) (state state' : StoreState) (volume volume' : Volume) (n d : ℕ) (name : List ℕ) → IsOpen T state volume → All (λ b. b < 256) name →
        LinkDoes T state state' volume volume' n d name (Ok tt) →
        IsOpen T state' volume' × (linked (files_in state volume) volume.memory.clock n d name ≡ Ok (files_in state' volume')) }
{}

/// `begin` begins an inode that no name leads to, and changes no file; of a file or a symbolic link the block says what was told.
/// Where it is refused all is as it was.
pub fn begin_changes_no_file()
    ensures begun { (T : Types) (state state' : StoreState) (volume : Volume) (kind : Kind) (attributes : NewAttributes) (head : List ℕ) (block : ℕ) →
        IsOpen T state volume → FitsAttributes attributes → All (λ b. b < 256) head → length head ≤ 384 →
        BeginDoes T state state' volume kind attributes head (Ok block) →
        IsOpen T state' volume × (files_in state' volume ≡ files_in state volume)
        × (kind ≢ kinds.Directory → IsBegun state' volume block (new_inode volume.memory.clock attributes (new_content kind 0 head))) }
    ensures refused { (T : Types) (state state' : StoreState) (volume : Volume) (kind : Kind) (attributes : NewAttributes) (head : List ℕ) (fault : Fault) →
        BeginDoes T state state' volume kind attributes head (Err fault) → state' ≡ state }
{}

/// `commit` gives an inode that was begun a number and its first name, where nothing is to be replaced, and does nothing else.
pub fn commit_names_an_inode()
    ensures { (T : Types) (state state' : StoreState) (volume volume' : Volume) (block : ℕ) (inode : Inode) (d : ℕ) (name : List ℕ) (n : ℕ) →
        IsOpen T state volume → IsBegun state volume block inode → All (λ b. b < 256) name →
        CommitDoes T state state' volume volume' block d name false (Ok n) →
        IsOpen T state' volume' × MakesInode state state' volume volume' d name n inode }
{}

/// `commit` that may replace gives an inode that was begun a number and its first name, of which what had it, a file or a link, loses a link.
pub fn commit_replaces_a_name()
    ensures { (T : Types) (state state' : StoreState) (volume volume' : Volume) (block : ℕ) (inode : Inode) (d : ℕ) (name : List ℕ) (n : ℕ) →
        IsOpen T state volume → IsBegun state volume block inode → All (λ b. b < 256) name →
        CommitDoes T state state' volume volume' block d name true (Ok n) →
        IsOpen T state' volume' × (files_in state volume n ≡ None)
        × (replaced (files_in state volume) volume.memory.clock d name n inode ≡ Ok (files_in state' volume')) }
{}

/// `write_times` changes no file, whatever it answers: the times that were only touched are those of the files already. An inode that has no number has none
/// then.
pub fn write_times_changes_no_file()
    ensures { (T : Types) (state state' : StoreState) (volume volume' : Volume) (result : Result (Unit {0}) Fault) → IsOpen T state volume →
        WriteTimesDoes T state state' volume volume' result →
        IsOpen T state' volume' × (files_in state' volume' ≡ files_in state volume) × KeepsUnnamed state state' volume volume' }
{}

/// `set_attributes` and `set_mtime` that are refused leave all as it was. They answer that no such inode is there, want of room, or the store's refusal.
pub fn refused_attributes_change_nothing()
    ensures attributes { (T : Types) (state state' : StoreState) (volume volume' : Volume) (n : ℕ) (attributes : Attributes) (fault : Fault) →
        AttributesDoes T state state' volume volume' n attributes (Err fault) →
        (state' ≡ state) × (volume' ≡ volume) × ((found (files_in state volume) n ≡ Err fault) ⊎ IsWant fault) }
    ensures times { (state : StoreState) (volume volume' : Volume) (n : ℕ) (mtime : ℤ) (fault : Fault) →
        MtimeDoes state volume volume' n mtime (Err fault) → (volume' ≡ volume) × ((found (files_in state volume) n ≡ Err fault) ⊎ IsWant fault) }
{}

/// `unlink` that is refused leaves the session as it was, and answers what the files say, or that there is no room, and then all is as it was;
/// or it answers the store's refusal.
pub fn refused_unlink_answers_the_files()
    ensures { (T : Types) (state state' : StoreState) (volume volume' : Volume) (d : ℕ) (name : List ℕ) (fault : Fault) →
        UnlinkDoes T state state' volume volume' d name (Err fault) →
        (volume' ≡ volume)
        × (((state' ≡ state) × ((unlinked (files_in state volume) volume.memory.clock d name ≡ Err fault) ⊎ (fault ≡ Full)))
        ⊎ ((reason : Refusal) × (fault ≡ Kernel reason))) }
{}

/// `create`, `symlink` and `mkdir` that are refused leave the session as it was, and answer what the files say of the name, or that there is no room, place
/// or number, and then all is as it was; or they answer the store's refusal.
pub fn refused_new_inodes_answer_the_files()
    ensures create { (T : Types) (state state' : StoreState) (volume volume' : Volume) (d : ℕ) (name : List ℕ) (attributes : NewAttributes) (fault : Fault) →
        CreateDoes T state state' volume volume' d name attributes (Err fault) →
        IsRefused state state' volume volume' fault ((new_name (files_in state volume) d name ≡ Err fault) ⊎ IsNoNumber fault) }
    ensures symlink { (T : Types) (state state' : StoreState) (volume volume' : Volume) (d : ℕ) (name : List ℕ) (attributes : NewAttributes)
        (target : List ℕ) (fault : Fault) → SymlinkDoes T state state' volume volume' d name attributes target (Err fault) →
        IsRefused state state' volume volume' fault ((new_name (files_in state volume) d name ≡ Err fault) ⊎ IsNoNumber fault) }
    ensures mkdir { (T : Types) (state state' : StoreState) (volume volume' : Volume) (d : ℕ) (name : List ℕ) (attributes : NewAttributes) (fault : Fault) →
        MkdirDoes T state state' volume volume' d name attributes (Err fault) →
        IsRefused state state' volume volume' fault ((new_name (files_in state volume) d name ≡ Err fault) ⊎ IsNoNumber fault) }
{}

/// `link` that is refused leaves the session as it was, and answers what the files say, or that there is no room or place, and then all is as it was; or it
/// answers the store's refusal.
pub fn refused_link_answers_the_files()
    ensures { (T : Types) (state state' : StoreState) (volume volume' : Volume) (n d : ℕ) (name : List ℕ) (fault : Fault) →
        LinkDoes T state state' volume volume' n d name (Err fault) →
        IsRefused state state' volume volume' fault ((linked (files_in state volume) volume.memory.clock n d name ≡ Err fault) ⊎ IsNoPlace fault) }
{}

/// `commit` that is refused, where nothing is to be replaced and where it may replace, leaves the session as it was, and answers what the files say of the
/// name, or that there is no room, place or number, and then all is as it was; or it answers the store's refusal.
pub fn refused_commit_answers_the_files()
    ensures named { (T : Types) (state state' : StoreState) (volume volume' : Volume) (block d : ℕ) (name : List ℕ) (fault : Fault) →
        CommitDoes T state state' volume volume' block d name false (Err fault) →
        IsRefused state state' volume volume' fault ((new_name (files_in state volume) d name ≡ Err fault) ⊎ IsNoNumber fault) }
    ensures replaced { (T : Types) (state state' : StoreState) (volume volume' : Volume) (block d : ℕ) (name : List ℕ) (fault : Fault) →
        CommitDoes T state state' volume volume' block d name true (Err fault) →
        IsRefused state state' volume volume' fault
        (((n : ℕ) (inode : Inode) → replaced (files_in state volume) volume.memory.clock d name n inode ≡ Err fault) ⊎ IsNoNumber fault) }
{}

/// `rmdir` that is refused leaves the session as it was, and answers what the files say, or that there is no room, and then all is as it was; or it answers the
/// store's refusal. Where it answers that the directory is not empty a name stands there.
pub fn refused_rmdir_answers_the_files()
    ensures { (T : Types) (state state' : StoreState) (volume volume' : Volume) (d : ℕ) (name : List ℕ) (fault : Fault) → IsKept T state volume →
        RmdirDoes T state state' volume volume' d name (Err fault) →
        IsRefused state state' volume volume' fault (IsNotRemoved (files_in state volume) volume.memory.clock d name fault ⊎ (fault ≡ Full)) }
{}

/// `rename` that is refused leaves the session as it was, and answers what the files say, or that there is no room or place, and then all is as it was; or it
/// answers the store's refusal. A directory that would stand below itself is refused by what the inodes say of the directories above the new place.
pub fn refused_rename_answers_the_files()
    ensures { (T : Types) (state state' : StoreState) (volume volume' : Volume) (d : ℕ) (name : List ℕ) (to : ℕ) (new : List ℕ) (fault : Fault) →
        IsKept T state volume → RenameDoes T state state' volume volume' d name to new (Err fault) →
        IsRefused state state' volume volume' fault (IsNotMoved state volume d name to new fault ⊎ IsNoPlace fault) }
{}

/// An open volume is one still once `set_mtime`, `set_attributes`, `unlink` or `rmdir` is done.
pub fn open_volumes_stay_open()
    ensures times { (T : Types) (state : StoreState) (volume volume' : Volume) (n : ℕ) (mtime : ℤ) → FitsSigned w64 mtime → IsOpen T state volume →
        MtimeDoes state volume volume' n mtime (Ok tt) → IsOpen T state volume' }
    ensures attributes { (T : Types) (state state' : StoreState) (volume volume' : Volume) (n : ℕ) (attributes : Attributes) → AreInWidth attributes →
        IsOpen T state volume → AttributesDoes T state state' volume volume' n attributes (Ok tt) → IsOpen T state' volume' }
    ensures unlink { (T : Types) (state state' : StoreState) (volume volume' : Volume) (d : ℕ) (name : List ℕ) → IsOpen T state volume →
        UnlinkDoes T state state' volume volume' d name (Ok tt) → IsOpen T state' volume' }
    ensures rmdir { (T : Types) (state state' : StoreState) (volume volume' : Volume) (d : ℕ) (name : List ℕ) → IsOpen T state volume →
        RmdirDoes T state state' volume volume' d name (Ok tt) → IsOpen T state' volume' }
{}

/// The parts of a trim of a file or a symbolic link change no file, whatever they answer: the one that makes bytes past the size 0, the one that drops pointers
/// of nodes, however many drops are left, the one that drops pointers of the inode, and the one that ends it.
pub fn parts_of_a_trim_change_no_file()
    ensures blanks { (T : Types) (old new : StoreState) (volume : Volume) (kept : Kept) (result : Result (Unit {0}) Fault) → IsOpen T old volume →
        IsKeptOf old volume kept → Blanks T volume.tree.fs.number volume.memory kept old new result →
        IsOpen T new volume × (files_in new volume ≡ files_in old volume) }
    ensures drops { (T : Types) (old new : StoreState) (volume : Volume) (kept : Kept) (left : ℕ) (result : Result (Unit {0}) Fault) → IsOpen T old volume →
        IsKeptOf old volume kept → Drops T volume.tree.fs.number volume.memory kept left old new result →
        IsOpen T new volume × (files_in new volume ≡ files_in old volume) }
    ensures roots { (T : Types) (old new : StoreState) (volume : Volume) (kept : Kept) (result : Result (Unit {0}) Fault) → IsOpen T old volume →
        IsKeptOf old volume kept → Roots T volume.tree.fs.number kept old new result → IsOpen T new volume × (files_in new volume ≡ files_in old volume) }
    ensures waits { (T : Types) (old new : StoreState) (volume : Volume) (kept : Kept) (result : Result (Unit {0}) Fault) → IsOpen T old volume →
        IsKeptOf old volume kept → Waits T volume.tree.fs.number kept old new result → IsOpen T new volume × (files_in new volume ≡ files_in old volume) }
{}

/// A trim changes no file, whatever it answers: neither one that comes before something else, nor the call.
pub fn trims_change_no_file()
    ensures first { (T : Types) (old new : StoreState) (volume : Volume) (kept : Option Kept) (result : Result (Unit {0}) Fault) → IsOpen T old volume →
        AreKeptOf old volume kept → TrimsFirst T volume.tree.fs.number volume.memory kept old new result →
        IsOpen T new volume × (files_in new volume ≡ files_in old volume) }
    ensures call { (T : Types) (old new : StoreState) (volume : Volume) (number : ℕ) (result : Result (Unit {0}) Fault) → IsOpen T old volume →
        TrimCallDoes T old new volume number result → IsOpen T new volume × (files_in new volume ≡ files_in old volume) }
{}

/// What `truncate` and `write_some` trim before their own edits is of a file or a symbolic link of the volume.
pub fn what_is_trimmed_first_is_of_a_file()
    ensures truncate { (state : StoreState) (volume : Volume) (number size : ℕ) (kept : Option Kept) →
        IsTrimToTruncate (readable state volume.tree.fs.number) volume.tree.top number size kept → AreKeptOf state volume kept }
    ensures write { (state : StoreState) (volume : Volume) (number at count : ℕ) (kept : Option Kept) →
        IsTrimToWrite (readable state volume.tree.fs.number) volume.tree.top number at count kept → AreKeptOf state volume kept }
{}

/// `truncate` sets the size of a file or a symbolic link, with zeros behind its bytes where it had fewer, and does nothing else. Where it is refused the files and
/// the session are as they were, or, where the size was set and what stands past it could not be trimmed, the files are as truncated.
pub fn truncate_sets_a_size()
    ensures done { (T : Types) (old new : StoreState) (volume volume' : Volume) (number size : ℕ) → IsOpen T old volume →
        TruncateDoes T old new volume volume' number size (Ok tt) →
        IsOpen T new volume' × (truncated (files_in old volume) volume.memory.clock number size ≡ Ok (files_in new volume')) }
    ensures refused { (T : Types) (old new : StoreState) (volume volume' : Volume) (number size : ℕ) (fault : Fault) → IsOpen T old volume →
        TruncateDoes T old new volume volume' number size (Err fault) →
        ((volume' ≡ volume) × IsOpen T new volume × (files_in new volume ≡ files_in old volume))
        ⊎ (IsOpen T new volume' × (truncated (files_in old volume) volume.memory.clock number size ≡ Ok (files_in new volume'))) }
{}

/// `write_some` writes the first of the bytes, as many as it answers, over those of a file or a symbolic link from a byte on, with zeros before them where the file
/// ends before, sets its times to the caller's, and does nothing else. They end within the greatest size. Told is that the file has no more bytes than one may
/// have.
pub fn write_changes_bytes()
    ensures { (T : Types) (old new : StoreState) (volume volume' : Volume) (number at : ℕ) (bytes : List ℕ) (taken : ℕ) → IsOpen T old volume →
        HasFewBytes (files_in old volume) number → All (λ b. b < 256) bytes → WriteDoes T old new volume volume' number at bytes (Ok taken) →
        IsOpen T new volume' × (written (files_in old volume) volume.memory.clock number at bytes taken ≡ Ok (files_in new volume'))
        × (taken ≤ length bytes) × (0 < length bytes → 0 < taken) × (at + taken ≤ greatest_size) }
{}

/// `write_some` that is refused leaves the session and the files as they were; but where the store refuses, some of the first of the bytes may stand over those
/// that the file had, with its size and its times as they were.
pub fn refused_write_keeps_the_session()
    ensures { (T : Types) (old new : StoreState) (volume volume' : Volume) (number at : ℕ) (bytes : List ℕ) (fault : Fault) → IsOpen T old volume →
        HasFewBytes (files_in old volume) number → All (λ b. b < 256) bytes → WriteDoes T old new volume volume' number at bytes (Err fault) →
        (volume' ≡ volume) × IsOpen T new volume × ((files_in new volume ≡ files_in old volume)
        ⊎ (IsOfStore fault × IsPartlyPut (files_in old volume) number at bytes (files_in new volume))) }
{}
