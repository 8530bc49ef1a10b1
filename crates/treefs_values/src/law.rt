// Laws of the files that bytes say.

ghost use Rattle.std.specs.Prelude.{◌≡◌, ◌≢◌, ◌<◌, ◌≤◌, ◌+◌, ◌-◌, ◌^◌, ℕ, All, Contains, IsTrue, List, Option, None, Some, Ok, [], ◌∷◌, false, fold, length};
ghost use Rattle.xn_model.specs.Types.{Types};
ghost use Rattle.xn_model.specs.Lists.{has_number};
ghost use Rattle.xn_model.specs.Lives.{StoreState};
ghost use Rattle.xn_model.specs.Calls.{init_of, root_of};
ghost use Rattle.xn_model.specs.Root.{word_at};
ghost use Rattle.xn_model.specs.Rules.{IsConsistent};
ghost use Rattle.treefs_format.specs.Buckets.{live_entries, room_behind};
ghost use Rattle.treefs_format.specs.Candidates.{candidates, name_hash};
ghost use Rattle.treefs_format.specs.Fields.{AreInRange, changed, fields_of};
ghost use Rattle.treefs_format.specs.declared.fields.Change.{Change};
ghost use Rattle.treefs_format.specs.declared.fields.Fields.{Fields};
ghost use Rattle.treefs_format.specs.Inodes.{inode_bytes, kind_of};
ghost use Rattle.treefs_format.specs.Leaves.{greatest_size};
ghost use Rattle.treefs_format.specs.Names.{is_name};
ghost use Rattle.treefs_format.specs.Paths.{leaf_count, steps};
ghost use Rattle.treefs_format.specs.Records.{Entry, Record, end_of, records_of};
ghost use Rattle.treefs_format.specs.Templates.{IsTree};
ghost use Rattle.treefs_format.specs.declared.kind.Kind.{Kind};
ghost use Rattle.treefs_format.specs.declared.kind.Kind.TheVariants.{Directory};
ghost use Rattle.treefs_model.specs.Acts.{Act, Ran, attach_act, changes_act, number_act, one_patch, patch_act, record_act};
ghost use Rattle.treefs_model.specs.Changes.{moved_to, resized, with_bytes};
ghost use Rattle.treefs_model.specs.Files.{Content, Inode, and_then, changed_at, found, number_in, with_inode, with_name};
ghost use Rattle.treefs_model.specs.Reading.{block_at, bucket_of, byte_of, files_of, inode_of, inode_with, key_in, leaf_block, pointed};
ghost use Rattle.treefs_model.specs.Trees.{has_name, has_pointer};
ghost use Rattle.treefs_lookup.specs.Buckets.{bucket_block, bucket_start};
ghost use Rattle.treefs_lookup.specs.Bytes.{bytes_from, part_left};
ghost use Rattle.treefs_lookup.specs.Inodes.{inode_found};
ghost use Rattle.treefs_lookup.specs.Names.{entry_found};
ghost use Rattle.treefs_lookup.specs.declared.inodes.Found.{Found};
ghost use Rattle.treefs_lookup.specs.Readable.{readable};
ghost use Rattle.treefs_lookup.specs.declared.names.Slot.{Slot};
ghost use Rattle.treefs_edits.specs.Kinds.{links_act, rewritten_act};
ghost use Rattle.treefs_edits.specs.declared.times.Times.{Times};
ghost use Rattle.treefs_edits.specs.Written.{all_written, written};
ghost use Rattle.treefs_values.specs.Attached.{IsEmptyBlock, IsFreeInode, IsPointerSet, new_content};
ghost use Rattle.treefs_values.specs.Begun.{with_block};
ghost use Rattle.treefs_values.specs.Bytes.{bucket_at, place_in_bucket, with_put};
ghost use Rattle.treefs_values.specs.Kinds.{kinds};
ghost use Rattle.treefs_values.specs.Dropped.{AreDropped, AreOverPointers, IsCovered, IsHolderWay, IsLedTo, IsPast, clear_act, with_blocks};
ghost use Rattle.treefs_values.specs.Names.{bucket_entries};
ghost use Rattle.treefs_values.specs.Values.{AreChanges, KeepsBlocks, found_value, inode_with_links, led_to, links_parts};
ghost use Rattle.treefs_values.specs.Volumes.{IsWholeBlock, IsVolume};
ghost use Rattle.treefs_values.specs.Ways.{ArePointersApart, IsTyped, IsWay, SamePointers, block_numbered};

/// Where pointers are the same, so are the blocks of inodes, nodes and leaves.
pub fn ways_stay()
    ensures inodes { (node inode top : ℕ) (type : ℕ → ℕ) (old new : ℕ → List ℕ) → IsTyped node inode type old top → SamePointers node inode type old new →
        (n : ℕ) → block_numbered new top n ≡ block_numbered old top n }
    ensures ways { (node inode top : ℕ) (type : ℕ → ℕ) (old new : ℕ → List ℕ) → IsTyped node inode type old top → SamePointers node inode type old new →
        (n l : ℕ) (offsets : List ℕ) → IsWay offsets l → block_at new (block_numbered old top n) offsets ≡ block_at old (block_numbered old top n) offsets }
    ensures typed { (node inode top : ℕ) (type : ℕ → ℕ) (old new : ℕ → List ℕ) → IsTyped node inode type old top → SamePointers node inode type old new →
        IsTyped node inode type new top }
{}

/// Different inodes and leaves stand in different blocks.
pub fn places_are_apart()
    ensures inodes { (node inode top : ℕ) (type : ℕ → ℕ) (content : ℕ → List ℕ) → node ≢ inode → IsTyped node inode type content top →
        ArePointersApart node inode type content top → (n m : ℕ) → block_numbered content top n ≢ 0 →
        block_numbered content top n ≡ block_numbered content top m → n ≡ m }
    ensures leaves { (node inode top : ℕ) (type : ℕ → ℕ) (content : ℕ → List ℕ) → node ≢ inode → IsTyped node inode type content top →
        ArePointersApart node inode type content top → (n m i j : ℕ) → i < leaf_count → j < leaf_count →
        leaf_block content (block_numbered content top n) i ≢ 0 →
        leaf_block content (block_numbered content top n) i ≡ leaf_block content (block_numbered content top m) j → (n ≡ m) × (i ≡ j) }
{}

/// Look-ups of inodes and of names answer what the files say, each fault in its order.
pub fn look_ups_are_values()
    ensures inodes { (content : ℕ → List ℕ) (top n : ℕ) →
        and_then (inode_found content top n) (λ x. Ok (found_value content top x)) ≡ found (files_of content top) n }
    ensures numbers { (content : ℕ → List ℕ) (top d : ℕ) (name : List ℕ) →
        and_then (entry_found content top d name) (λ slot. Ok slot.number) ≡ number_in (files_of content top) d name }
{}

/// The number of a record of a directory is set: its name leads there, with 0 nowhere, and all else is as before.
pub fn names_lead_elsewhere()
    ensures { (node inode top : ℕ) (type : ℕ → ℕ) (content : ℕ → List ℕ) → IsVolume node inode type content top →
        (n k number : ℕ) (r : Record) (behind : Option ℕ) →
        n ≢ 0 → block_numbered content top n ≢ 0 → k ≤ leaf_count → kind_of (fields_of (content (block_numbered content top n))).mode ≡ Some Directory →
        Contains (records_of (bucket_of content (block_numbered content top n) k)) r → number < 2 ^ 32 →
        let act = number_act (bucket_block content (block_numbered content top n) k) (bucket_start k + r.offset) number behind in
        IsVolume node inode type (written act content) top
        × (files_of (written act content) top ≡ with_name (files_of content top) n r.entry.name (led_to number)) }
{}

/// A record is made behind those of a candidate of a name that the directory does not have: the name leads there, and all else is as before.
pub fn names_are_made()
    ensures { (node inode top : ℕ) (type : ℕ → ℕ) (content : ℕ → List ℕ) → IsVolume node inode type content top → (n k : ℕ) (e : Entry) (behind : Option ℕ) →
        n ≢ 0 → block_numbered content top n ≢ 0 → k ≤ leaf_count → kind_of (fields_of (content (block_numbered content top n))).mode ≡ Some Directory →
        e.number < 2 ^ 32 → IsTrue (is_name e.name) → All (λ b. b < 256) e.name → length e.name < 256 →
        5 + length e.name ≤ room_behind (bucket_of content (block_numbered content top n) k) →
        Contains (candidates (name_hash (key_in content top) e.name)) k →
        ((j : ℕ) → Contains (candidates (name_hash (key_in content top) e.name)) j →
        has_name (bucket_entries content (block_numbered content top n) j) e.name ≡ false) →
        let c = block_numbered content top n in
        let act = record_act (bucket_block content c k) (bucket_start k + end_of (bucket_of content c k)) e behind in
        IsVolume node inode type (written act content) top
        × (files_of (written act content) top ≡ with_name (files_of content top) n e.name (led_to e.number)) }
{}

/// A record is made where a dead one of its name stands: the name leads to its number, and all else is as before.
pub fn names_are_made_anew()
    ensures { (node inode top : ℕ) (type : ℕ → ℕ) (content : ℕ → List ℕ) → IsVolume node inode type content top →
        (n k number : ℕ) (r : Record) (behind : Option ℕ) →
        n ≢ 0 → block_numbered content top n ≢ 0 → k ≤ leaf_count → kind_of (fields_of (content (block_numbered content top n))).mode ≡ Some Directory →
        Contains (records_of (bucket_of content (block_numbered content top n) k)) r → number < 2 ^ 32 → let c = block_numbered content top n in
        let act = record_act (bucket_block content c k) (bucket_start k + r.offset) (record { number = number; name = r.entry.name }) behind in
        IsVolume node inode type (written act content) top
        × (files_of (written act content) top ≡ with_name (files_of content top) n r.entry.name (led_to number)) }
{}

/// A bucket of a directory is rewritten: it has its live records, in their order, and the files are as before.
pub fn buckets_are_rewritten()
    ensures { (node inode top : ℕ) (type : ℕ → ℕ) (content : ℕ → List ℕ) → IsVolume node inode type content top → (n k : ℕ) →
        n ≢ 0 → block_numbered content top n ≢ 0 → k ≤ leaf_count → kind_of (fields_of (content (block_numbered content top n))).mode ≡ Some Directory →
        let c = block_numbered content top n in 0 < end_of (bucket_of content c k) →
        let act = rewritten_act (bucket_block content c k) (bucket_start k) (bucket_of content c k) in
        IsVolume node inode type (written act content) top × (files_of (written act content) top ≡ files_of content top)
        × (bucket_entries (written act content) c k ≡ live_entries (bucket_of content c k)) }
{}

/// Fields of an inode change, but not its size nor its kind: so does its value, and all else is as before.
pub fn inodes_change()
    ensures { (node inode top : ℕ) (type : ℕ → ℕ) (content : ℕ → List ℕ) → IsVolume node inode type content top →
        (n : ℕ) (changes : List (List Change)) (behind : Option ℕ) →
        n ≢ 0 → block_numbered content top n ≢ 0 → All AreChanges changes → let was = fields_of (content (block_numbered content top n)) in
        let now = fold (fold changed) was changes in now.size ≡ was.size → kind_of now.mode ≡ kind_of was.mode → (change : Inode → Inode) →
        ((x : Content) → moved_to was.parent x ≡ x → inode_with now (moved_to now.parent x) ≡ change (inode_with was x)) →
        let act = changes_act (block_numbered content top n) changes behind in
        IsVolume node inode type (written act content) top × (files_of (written act content) top ≡ changed_at (files_of content top) n change) }
{}

/// So it is with a name that is found.
pub fn found_names_lead_elsewhere()
    ensures { (node inode top : ℕ) (type : ℕ → ℕ) (content : ℕ → List ℕ) → IsVolume node inode type content top →
        (d number : ℕ) (name : List ℕ) (slot : Slot) (behind : Option ℕ) →
        entry_found content top d name ≡ Ok slot → number < 2 ^ 32 → let act = number_act slot.block slot.offset number behind in
        IsVolume node inode type (written act content) top
        × (files_of (written act content) top ≡ with_name (files_of content top) d name (led_to number)) }
{}

/// A name ends, and then its inode gets other links, and where told other times and another parent.
pub fn names_end()
    ensures { (node inode top : ℕ) (type : ℕ → ℕ) (content : ℕ → List ℕ) → IsVolume node inode type content top →
        (d links : ℕ) (name : List ℕ) (slot : Slot) (found : Found)
        (times : Option Times) (parent behind behind' : Option ℕ) → entry_found content top d name ≡ Ok slot → inode_found content top slot.number ≡ Ok found →
        All AreChanges (links_parts links times parent) →
        let acts = number_act slot.block slot.offset 0 behind ∷ links_act found.block links times parent behind' ∷ [] in
        IsVolume node inode type (all_written acts content) top
        × (files_of (all_written acts content) top ≡ changed_at (with_name (files_of content top) d name None) slot.number (inode_with_links links times
        parent)) }
{}

/// Bytes of a file are written that stand together, in the inode or in a leaf that is there: those below its size are read then, and all else is as before.
pub fn bytes_are_put()
    ensures { (node inode top : ℕ) (type : ℕ → ℕ) (content : ℕ → List ℕ) → IsVolume node inode type content top →
        (n first : ℕ) (bytes : List ℕ) (behind : Option ℕ) (kind : Kind) →
        n ≢ 0 → let c = block_numbered content top n in c ≢ 0 → kind_of (fields_of (content c)).mode ≡ Some kind → kind ≢ Directory →
        (fields_of (content c)).size ≤ greatest_size → All (λ b. b < 256) bytes → 0 < length bytes → length bytes ≤ part_left first →
        bucket_at first ≤ leaf_count → bucket_block content c (bucket_at first) ≢ 0 →
        let act = patch_act (bucket_block content c (bucket_at first)) (one_patch (bucket_start (bucket_at first) + place_in_bucket first) bytes) behind in
        IsVolume node inode type (written act content) top × (files_of (written act content) top ≡ changed_at (files_of content top) n (with_put first bytes)) }
{}

/// The size of a file or a symbolic link changes, with other fields: so many bytes are read then, and all else is as before.
pub fn sizes_change()
    ensures change { (node inode top : ℕ) (type : ℕ → ℕ) (content : ℕ → List ℕ) → IsVolume node inode type content top →
        (n : ℕ) (changes : List (List Change)) (behind : Option ℕ)
        (kind : Kind) → n ≢ 0 → block_numbered content top n ≢ 0 → All AreChanges changes → let was = fields_of (content (block_numbered content top n)) in
        let now = fold (fold changed) was changes in kind_of was.mode ≡ Some kind → kind ≢ Directory → kind_of now.mode ≡ kind_of was.mode →
        now.parent ≡ was.parent →
        (change : Inode → Inode) →
        ((x : Content) → inode_with now (with_bytes (λ bytes. bytes_from content (block_numbered content top n) 0 now.size) x) ≡ change (inode_with was x)) →
        let act = changes_act (block_numbered content top n) changes behind in
        IsVolume node inode type (written act content) top × (files_of (written act content) top ≡ changed_at (files_of content top) n change) }
    ensures bytes { (content : ℕ → List ℕ) (c size size' : ℕ) → ((p : ℕ) → size ≤ p → p < size' → byte_of content c p ≡ 0) →
        bytes_from content c 0 size' ≡ resized size' (bytes_from content c 0 size) }
{}

/// An edit that attaches a block sets one pointer, and changes no other.
pub fn attached_blocks_are_pointed_to()
    ensures { (node inode : ℕ) (type : ℕ → ℕ) (content : ℕ → List ℕ) (holder offset ty block : ℕ) (behind : Option ℕ) → node ≢ inode → holder ≢ 0 →
        IsWholeBlock (content holder) → IsTrue (has_pointer node inode (type holder) offset) → pointed content holder offset ≡ 0 → block < 2 ^ 32 →
        let new = written (attach_act holder offset ty (block ∷ []) behind) content in
        IsPointerSet node inode type content new holder offset block × IsWholeBlock (new holder) }
{}

/// The pointer of a number that is free comes to lead to an inode, which no number had: the files are as before, and the number has it.
pub fn inodes_get_numbers()
    ensures { (node inode top : ℕ) (type : ℕ → ℕ) (content new : ℕ → List ℕ) → IsVolume node inode type content top → (n offset block : ℕ) (above : List ℕ) →
        n ≢ 0 → n - 1 < leaf_count → steps (n - 1) ≡ offset ∷ above → let holder = block_at content top above in holder ≢ 0 →
        IsPointerSet node inode type content new holder offset block → IsFreeInode node inode type content (key_in content top) block → block ≢ holder →
        ((l : ℕ) (os : List ℕ) → IsWay os l → block_at content block os ≢ 0 → block_at content block os ≢ holder) →
        ArePointersApart node inode type new top → IsWholeBlock (new holder) →
        (files_of content top n ≡ None) × IsVolume node inode type new top
        × (files_of new top ≡ with_inode (files_of content top) n (inode_of content (key_in content top) block)) }
{}

/// A block with the bytes of a new inode is one of no number, without a tree, and says its fields and the beginning of its content.
pub fn new_inodes_are_free()
    ensures { (node inode : ℕ) (type : ℕ → ℕ) (content : ℕ → List ℕ) (key : List ℕ) (block : ℕ) (fields : Fields) (head : List ℕ) (kind : Kind) →
        content block ≡ inode_bytes fields head → AreInRange fields → length head ≤ 384 → fields.size ≡ length head → kind_of fields.mode ≡ Some kind →
        (kind ≡ Directory → head ≡ []) → block ≢ 0 → type block ≡ inode →
        IsFreeInode node inode type content key block
        × (inode_of content key block ≡ Some (inode_with fields (new_content kind fields.parent head))) }
{}

/// A node without pointers, or a leaf of zeros of an inode, is attached where none stood: the files are as before.
pub fn empty_blocks_change_no_file()
    ensures { (node inode top : ℕ) (type : ℕ → ℕ) (content new : ℕ → List ℕ) → IsVolume node inode type content top → (n l offset block : ℕ) (above : List ℕ) →
        IsWay (offset ∷ above) l → let holder = block_at content (block_numbered content top n) above in holder ≢ 0 →
        IsPointerSet node inode type content new holder offset block → IsEmptyBlock node inode type content n l block → block ≢ holder →
        ArePointersApart node inode type new top → IsWholeBlock (new holder) →
        IsVolume node inode type new top × (files_of new top ≡ files_of content top) }
{}

/// What a file system reads after edits that drop no block: their patches are written, and types stay.
pub fn edits_are_read()
    ensures { (T : Types) (fs : ℕ) (acts : List Act) (old new : StoreState) → IsConsistent T old → All KeepsBlocks acts → Ran T fs acts old new (Ok tt) →
        IsConsistent T new × (readable new fs ≡ all_written acts (readable old fs)) × (kinds new fs ≡ kinds old fs) }
{}

/// A block that is begun is read, and is part of no file: the files are as before.
pub fn begun_blocks_are_of_no_file()
    ensures read { (T : Types) (old new : StoreState) → IsConsistent T old → (fs ty : ℕ) (bytes : List ℕ) (block entry : ℕ) →
        init_of T old fs ty bytes ≡ Ok ((block, entry), new) → IsConsistent T new × (kinds old fs block ≡ 0)
        × (readable new fs ≡ with_block (readable old fs) block bytes) × (kinds new fs ≡ with_block (kinds old fs) block ty) }
    ensures files { (T : Types) (old new : StoreState) → IsConsistent T old → (fs ty : ℕ) (bytes : List ℕ) (block entry : ℕ) →
        init_of T old fs ty bytes ≡ Ok ((block, entry), new) → (node inode top : ℕ) → fs < 32 → IsTree T node inode → root_of old fs ≡ Some top →
        IsVolume node inode (kinds old fs) (readable old fs) top → IsWholeBlock bytes →
        ((o : ℕ) → IsTrue (has_pointer node inode ty o) → word_at bytes o ≡ 0) →
        IsVolume node inode (kinds new fs) (readable new fs) top × (files_of (readable new fs) top ≡ files_of (readable old fs) top) }
{}

/// Of the blocks that a file system may read no two pointers lead to one, and none to its root.
pub fn readable_blocks_are_apart()
    ensures { (T : Types) (state : StoreState) (node inode fs top : ℕ) → IsConsistent T state → IsTree T node inode → node ≢ inode → node ≢ 0 → inode ≢ 0 →
        fs < 32 →
        root_of state fs ≡ Some top → ArePointersApart node inode (kinds state fs) (readable state fs) top }
{}

/// What a file system reads after an edit that drops blocks and adds none: its patches are written, and these blocks may not be read any more.
pub fn edits_that_drop_are_read()
    ensures { (T : Types) (fs : ℕ) (act : Act) (old new : StoreState) → IsConsistent T old → act.edit.adds ≡ [] → Ran T fs (act ∷ []) old new (Ok tt) →
        IsConsistent T new × (readable new fs ≡ with_blocks (written act (readable old fs)) act.edit.drops [])
        × (kinds new fs ≡ with_blocks (kinds old fs) act.edit.drops 0) × (has_number act.edit.drops act.block ≡ false) × (root_of new fs ≡ root_of old fs) }
{}

/// An edit that drops blocks makes pointers of one block 0, those that led to them and maybe others: no other pointer changes.
pub fn dropped_blocks_are_not_pointed_to()
    ensures { (node inode : ℕ) (type : ℕ → ℕ) (content : ℕ → List ℕ) (holder : ℕ) (places : List (ℕ × ℕ)) (blocks : List ℕ) (behind : Option ℕ) →
        node ≢ inode → holder ≢ 0 → IsWholeBlock (content holder) → All (AreOverPointers node inode (type holder)) places →
        All (IsLedTo content holder places) blocks → has_number blocks holder ≡ false →
        let new = with_blocks (written (clear_act holder places blocks behind) content) blocks [] in
        AreDropped node inode type (with_blocks type blocks 0) content new holder places × IsWholeBlock (new holder) }
{}

/// Pointers of the inode of a file or a symbolic link, or of a node of its tree, come to lead nowhere, and the blocks to which they led may not be read any
/// more; none of them leads on to a byte before the size: the files are as before.
pub fn dropped_blocks_change_no_file()
    ensures { (node inode top : ℕ) (type type' : ℕ → ℕ) (content new : ℕ → List ℕ) → IsVolume node inode type content top → (n : ℕ) (above : List ℕ)
        (places : List (ℕ × ℕ)) (kind : Kind) → n ≢ 0 → let c = block_numbered content top n in kind_of (fields_of (content c)).mode ≡ Some kind →
        kind ≢ Directory → IsHolderWay above → let holder = block_at content c above in holder ≢ 0 →
        AreDropped node inode type type' content new holder places → IsWholeBlock (new holder) →
        ((o : ℕ) → IsCovered places o → IsPast (fields_of (content c)).size (o ∷ above)) →
        IsVolume node inode type' new top × (files_of new top ≡ files_of content top) }
{}
