// Laws of the layout.

ghost use Rattle.std.specs.Prelude.{◌≡◌, ◌≢◌, ◌<◌, ◌≤◌, ◌^◌, ◌+◌, ◌-◌, ◌*◌, ◌/◌, ◌%◌, ◌↔◌, ℕ, Bool, List, [], ◌∷◌, ◌++◌, All, Contains, IsTrue, Some, length, map, fold, replicate};
ghost use Rattle.xn_model.specs.BareDisks.{zeros};
ghost use Rattle.xn_model.specs.Calls.{patched};
ghost use Rattle.xn_model.specs.Lists.{put};
ghost use Rattle.xn_model.specs.Types.{Types};
ghost use Rattle.templates.specs.Tables.{HasTemplate};
ghost use Rattle.treefs_format.specs.Buckets.{is_whole, live_entries, made, renumbered, rewritten, with_number};
ghost use Rattle.treefs_format.specs.Candidates.{candidate, first_bucket};
ghost use Rattle.treefs_format.specs.Fields.{AreInRange, Change, Fields, IsInRange, are_adjoining, changed, changes_patch, fields_of};
ghost use Rattle.treefs_format.specs.Inodes.{Kind, content_of, content_patch, inode_bytes, kind_of, mode_of, pointers_of};
ghost use Rattle.treefs_format.specs.Names.{is_name};
ghost use Rattle.treefs_format.specs.Nodes.{child_type_of, children_of, node_bytes, pointers_patch};
ghost use Rattle.treefs_format.specs.Paths.{IsPath, last_beside, leaf_count, steps};
ghost use Rattle.treefs_format.specs.Records.{Entry, Record, end_of, entries_of, entry_bytes, records_of};
ghost use Rattle.treefs_format.specs.Roots.{is_clean, is_marked, key_of, root_content};
ghost use Rattle.treefs_format.specs.Leaves.{greatest_size, leaves_kept};
ghost use Rattle.treefs_format.specs.Places.{place_of};
ghost use Rattle.treefs_format.specs.Templates.{IsTree, inode_template, node_template};
ghost use Rattle.treefs_format.specs.declared.sizes.Place.TheVariants.{InLeaf};

use crate::paths::LEAVES;
use crate::sizes::GREATEST_SIZE;

/// A new inode says its fields and the beginning of its content, and has no pointer.
pub fn inodes_are_read_back()
    ensures long { (fields : Fields) (head : List ℕ) → length head ≤ 384 → length (inode_bytes fields head) ≡ 512 }
    ensures fields { (fields : Fields) (head : List ℕ) → AreInRange fields → fields_of (inode_bytes fields head) ≡ fields }
    ensures pointers { (fields : Fields) (head : List ℕ) → pointers_of (inode_bytes fields head) ≡ replicate 20 0 }
    ensures content { (fields : Fields) (head : List ℕ) → content_of (inode_bytes fields head) ≡ head ++ zeros (384 - length head) }
{}

/// A new node says the type of what it points to, and points to nothing.
pub fn nodes_are_read_back()
    ensures long { (t : ℕ) → length (node_bytes t) ≡ 512 }
    ensures child_type { (t : ℕ) → child_type_of (node_bytes t) ≡ t }
    ensures children { (t : ℕ) → children_of (node_bytes t) ≡ replicate 127 0 }
{}

/// The patch of some changes makes them, and changes nothing else.
pub fn changes_are_made()
    ensures fields { (m : List ℕ) (changes : List Change) → length m ≡ 512 → IsTrue (are_adjoining changes) → All IsInRange changes →
        fields_of (patched m (changes_patch changes ∷ [])) ≡ fold changed (fields_of m) changes }
    ensures others { (m : List ℕ) (changes : List Change) → length m ≡ 512 → IsTrue (are_adjoining changes) →
        (pointers_of (patched m (changes_patch changes ∷ [])) ≡ pointers_of m) × (content_of (patched m (changes_patch changes ∷ [])) ≡ content_of m) }
{}

/// The patch of some pointers of an inode, from pointer i on, sets them, and changes nothing else.
pub fn inode_pointers_are_set()
    ensures pointers { (m blocks : List ℕ) (i : ℕ) → length m ≡ 512 → i + length blocks ≤ 20 → All (λ b. b < 2 ^ 32) blocks →
        pointers_of (patched m (pointers_patch (48 + 4 * i) blocks ∷ [])) ≡ put (pointers_of m) i blocks }
    ensures others { (m blocks : List ℕ) (i : ℕ) → length m ≡ 512 → i + length blocks ≤ 20 →
        (fields_of (patched m (pointers_patch (48 + 4 * i) blocks ∷ [])) ≡ fields_of m)
        × (content_of (patched m (pointers_patch (48 + 4 * i) blocks ∷ [])) ≡ content_of m) }
{}

/// So does the patch of some pointers of a node.
pub fn node_pointers_are_set()
    ensures children { (m blocks : List ℕ) (i : ℕ) → length m ≡ 512 → i + length blocks ≤ 127 → All (λ b. b < 2 ^ 32) blocks →
        children_of (patched m (pointers_patch (4 + 4 * i) blocks ∷ [])) ≡ put (children_of m) i blocks }
    ensures child_type { (m blocks : List ℕ) (i : ℕ) → length m ≡ 512 → i + length blocks ≤ 127 →
        child_type_of (patched m (pointers_patch (4 + 4 * i) blocks ∷ [])) ≡ child_type_of m }
{}

/// The patch of some bytes of an inode's content writes them, and changes nothing else.
pub fn content_is_written()
    ensures content { (m bytes : List ℕ) (at : ℕ) → length m ≡ 512 → at + length bytes ≤ 384 →
        content_of (patched m (content_patch at bytes ∷ [])) ≡ put (content_of m) at bytes }
    ensures others { (m bytes : List ℕ) (at : ℕ) → length m ≡ 512 → at + length bytes ≤ 384 →
        (fields_of (patched m (content_patch at bytes ∷ [])) ≡ fields_of m) × (pointers_of (patched m (content_patch at bytes ∷ [])) ≡ pointers_of m) }
{}

/// A mode says its kind and its permission bits.
pub fn modes_are_read_back()
    ensures kind { (kind : Kind) (permissions : ℕ) → permissions < 4096 → kind_of (mode_of kind permissions) ≡ Some kind }
    ensures permissions { (kind : Kind) (permissions : ℕ) → permissions < 4096 → mode_of kind permissions % 4096 ≡ permissions }
    ensures short { (kind : Kind) (permissions : ℕ) → permissions < 4096 → mode_of kind permissions < 2 ^ 16 }
{}

/// The leaves of an inode and the paths from it are one to one.
pub fn paths_are_leaves()
    ensures count { LEAVES ≡ leaf_count }
    ensures paths { (i : ℕ) → i < leaf_count → IsPath (steps i) }
    ensures same { (i j : ℕ) → i < leaf_count → j < leaf_count → steps i ≡ steps j → i ≡ j }
    ensures ends { (offsets : List ℕ) → IsPath offsets → (i : ℕ) × (i < leaf_count) × (steps i ≡ offsets) }
{}

/// Leaves whose pointers stand in one block are side by side, and so are the pointers.
pub fn leaves_are_side_by_side()
    ensures beside { (i j o : ℕ) (holder : List ℕ) → j < leaf_count → i ≤ j → j ≤ last_beside i → steps i ≡ o ∷ holder →
        steps j ≡ (o + 4 * (j - i)) ∷ holder }
    ensures last { (i j o p : ℕ) (holder : List ℕ) → i < leaf_count → j < leaf_count → steps i ≡ o ∷ holder → steps j ≡ p ∷ holder →
        j ≤ last_beside i }
{}

/// A size keeps the leaves in which bytes below it stand, and no other.
pub fn sizes_keep_leaves()
    ensures greatest { GREATEST_SIZE ≡ greatest_size }
    ensures leaves { (size : ℕ) → size ≤ greatest_size → leaves_kept size ≤ leaf_count }
    ensures kept { (size byte leaf at : ℕ) → byte < size → place_of byte ≡ InLeaf leaf at → (leaf < leaves_kept size) × (at < 512) }
    ensures last { (size leaf : ℕ) → leaf < leaves_kept size → 512 * leaf < size }
{}

/// A record that is made is read back, behind all others, which stay as they were.
pub fn records_are_made()
    ensures record { (bytes : List ℕ) (e : Entry) → IsTrue (is_whole bytes) → All (λ b. b < 256) bytes → e.number < 2 ^ 32 → IsTrue (is_name e.name) →
        entries_of (made bytes e) ≡ entries_of bytes ++ e ∷ [] }
    ensures whole { (bytes : List ℕ) (e : Entry) → IsTrue (is_whole bytes) → All (λ b. b < 256) bytes → e.number < 2 ^ 32 → IsTrue (is_name e.name) →
        IsTrue (is_whole (made bytes e)) }
{}

/// A number that is set changes its record alone; what stands behind the records stays.
pub fn numbers_are_set()
    ensures records { (bytes : List ℕ) (r : Record) (number : ℕ) → All (λ b. b < 256) bytes → Contains (records_of bytes) r → number < 2 ^ 32 →
        records_of (with_number bytes r.offset number) ≡ map (renumbered r.offset number) (records_of bytes) }
    ensures whole { (bytes : List ℕ) (r : Record) (number : ℕ) → All (λ b. b < 256) bytes → Contains (records_of bytes) r → number < 2 ^ 32 →
        IsTrue (is_whole bytes) → IsTrue (is_whole (with_number bytes r.offset number)) }
    ensures made_anew { (bytes : List ℕ) (r : Record) (number : ℕ) → All (λ b. b < 256) bytes → Contains (records_of bytes) r →
        put bytes r.offset (entry_bytes (record { number = number; name = r.entry.name })) ≡ with_number bytes r.offset number }
{}

/// A bucket that is rewritten has its live records, in their order, and no other.
pub fn buckets_are_rewritten()
    ensures records { (bytes : List ℕ) → All (λ b. b < 256) bytes → entries_of (put bytes 0 (rewritten bytes)) ≡ live_entries bytes }
    ensures long { (bytes : List ℕ) → length (rewritten bytes) ≡ end_of bytes }
    ensures whole { (bytes : List ℕ) → All (λ b. b < 256) bytes → IsTrue (is_whole bytes) → IsTrue (is_whole (put bytes 0 (rewritten bytes))) }
{}

/// Records end within their bucket, and bytes of zeros have none.
pub fn records_stand_in_buckets()
    ensures within { (bytes : List ℕ) → end_of bytes ≤ length bytes }
    ensures none { (n : ℕ) → entries_of (zeros n) ≡ [] }
{}

/// The candidates of a name are different buckets: each level has its own.
pub fn levels_are_apart()
    ensures low { (hash level : ℕ) → first_bucket level ≤ candidate hash level }
    ensures high { (hash level : ℕ) → candidate hash level < first_bucket (level + 1) }
{}

/// What inode 0 says of a volume is read back, whatever stands behind it.
pub fn roots_are_read_back()
    ensures mark { (key rest : List ℕ) (clean : Bool) → IsTrue (is_marked (root_content key clean ++ rest)) }
    ensures key { (key rest : List ℕ) (clean : Bool) → length key ≡ 16 → key_of (root_content key clean ++ rest) ≡ key }
    ensures clean { (key rest : List ℕ) (clean : Bool) → length key ≡ 16 → is_clean (root_content key clean ++ rest) ≡ clean }
{}

/// Where two types have the two templates, a node owns its 127 pointers, with the type in its byte 0; an inode its 16 pointers to leaves,
/// with the type in its byte 0, and its 4 to trees, with the type in its byte 1. Pointers of 0 are none. Both use 512 bytes.
pub fn templates_own_pointers()
    ensures { (T : Types) (node inode : ℕ) → HasTemplate T node node_template → HasTemplate T inode inode_template → IsTree T node inode }
{}
