// Laws of the layout.

ghost use Rattle.std.specs.Prelude.{◌≡◌, ◌≢◌, ◌↔◌, ◌<◌, ◌≤◌, ◌^◌, ◌+◌, ◌*◌, ℕ, List, IsTrue, Some, length, map, take, slice_get, ◌++◌};
ghost use Rattle.std.specs.Int.{w32, to_le_bytes};
ghost use Rattle.xn_model.specs.Lists.{put};
ghost use Rattle.xn_model.specs.Types.{Types};
ghost use Rattle.ffs_model.specs.Library.{half_at, inode_at, pointer_word, IsLibrary};
ghost use Rattle.templates.specs.Formats.{table_of};
ghost use Rattle.templates.specs.Tables.{HasTemplate, TableValue, table_types};
ghost use Rattle.templates.specs.Templates.{TemplateValue};
ghost use Rattle.ffs_format.specs.Entries.{entry_of, is_name, is_name_length, name_in};
ghost use Rattle.ffs_format.specs.Fields.{fields_of};
ghost use Rattle.ffs_format.specs.Library.{file_system_templates};

use crate::entries::{ENTRIES, ENTRY_LEN, NAME_LEN};
use crate::inodes::{DIRECT_POINTERS, INODE_LEN, INODES};

/// An entry that is written is read back.
pub fn entries_are_read_back()
    ensures inode { (inode : ℕ) (name : List ℕ) → inode < 2 ^ 16 → half_at (entry_of inode name) 0 ≡ inode }
    ensures name { (inode : ℕ) (name : List ℕ) → IsTrue (is_name name) → name_in (entry_of inode name) 0 ≡ name }
{}

/// So it is in a block of a directory, at its place; and the other fifteen entries stay.
pub fn entries_stand_in_blocks()
    ensures here { (m : List ℕ) (p inode : ℕ) (name : List ℕ) → length m ≡ 512 → p < 16 → inode < 2 ^ 16 → IsTrue (is_name name) →
        (half_at (put m (32 * p) (entry_of inode name)) (32 * p) ≡ inode) × (name_in (put m (32 * p) (entry_of inode name)) (32 * p) ≡ name) }
    ensures others { (m : List ℕ) (p q inode : ℕ) (name : List ℕ) → length m ≡ 512 → p < 16 → q ≢ p → IsTrue (is_name name) →
        (half_at (put m (32 * p) (entry_of inode name)) (32 * q) ≡ half_at m (32 * q))
        × (name_in (put m (32 * p) (entry_of inode name)) (32 * q) ≡ name_in m (32 * q)) }
{}

/// The bytes of an inode are read back from their place in a block of inodes; and the other seven inodes stay.
pub fn inodes_stand_in_blocks()
    ensures here { (m bytes : List ℕ) (p : ℕ) → length m ≡ 512 → p < 8 → length bytes ≡ 64 → inode_at (put m (64 * p) bytes) p ≡ bytes }
    ensures others { (m bytes : List ℕ) (p q : ℕ) → length m ≡ 512 → p < 8 → q ≢ p → length bytes ≡ 64 → inode_at (put m (64 * p) bytes) q ≡ inode_at m q }
{}

/// A pointer is read back from its place in a block of pointers; and the other pointers stay.
pub fn pointers_stand_in_blocks()
    ensures here { (m : List ℕ) (j block : ℕ) → length m ≡ 512 → j < 128 → block < 2 ^ 32 → pointer_word (put m (4 * j) (to_le_bytes w32 block)) j ≡ block }
    ensures others { (m : List ℕ) (i j block : ℕ) → length m ≡ 512 → j < 128 → i ≢ j →
        pointer_word (put m (4 * j) (to_le_bytes w32 block)) i ≡ pointer_word m i }
{}

/// The numbers of the layout are those of its definitions: entries and inodes fill their blocks, and are read at their lengths.
pub fn numbers_are_the_layouts()
    ensures entries { ENTRIES * ENTRY_LEN ≡ 512 }
    ensures entry { (inode : ℕ) (name : List ℕ) → IsTrue (is_name name) → length (entry_of inode name) ≡ ENTRY_LEN }
    ensures name { (n : ℕ) → IsTrue (is_name_length n) ↔ ((1 ≤ n) × (n ≤ NAME_LEN)) }
    ensures inodes { INODES * INODE_LEN ≡ 512 }
    ensures inode { (m : List ℕ) (p : ℕ) → length m ≡ 512 → p < INODES → length (inode_at m p) ≡ INODE_LEN }
    ensures direct { (bytes : List ℕ) → length (fields_of bytes).direct ≡ DIRECT_POINTERS }
{}

/// In a table that begins with the library's three templates, types 3, 4 and 5 own what the library's layout reads: a root block
/// its 16 pointers, a block of inodes the 12 pointers and then the last one of each of its 8, and a block of pointers its 128. They use
/// 64, 512 and 512 bytes of their blocks.
/// So it is on a disk that is formatted with these three first, and wherever types 3 to 5 have them.
pub fn templates_are_the_librarys()
    ensures table { (table : TableValue) → take 3 table ≡ map Some file_system_templates → IsLibrary (table_types table) }
    ensures formatted { (others : List TemplateValue) → IsLibrary (table_types (table_of (file_system_templates ++ others))) }
    ensures types { (T : Types) → ((i : ℕ) (t : TemplateValue) → slice_get file_system_templates i ≡ Some t → HasTemplate T (3 + i) t) → IsLibrary T }
{}
