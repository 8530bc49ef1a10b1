// What a walk asks of the types of a table, looked up once.

ghost use Rattle.std.specs.Prelude.{◌≡◌, ◌≤◌, ℕ, List, false, get_or, IfSome, IsTrue};
ghost use Rattle.templates.specs.Tables.{table_types};
ghost use Rattle.crash_check.specs.Known.{AreKnown};

use store_types::BLOCK_LEN;
use templates::Table;
use udf_run::constant_size;

/// One more than the greatest number of a type: the catalogue has 16 places, for 3 and on.
const TYPES: usize = 19;

/// What is known of the types of a table, by their numbers.
#[derive(Drop)]
pub struct KnownTypes {
    /// Whether a named block may have the type.
    pub marks: [bool; TYPES],
    /// From which byte on each block of the type is zero, where no program has to be run for that.
    pub sizes: [Option<u16>; TYPES],
}

impl KnownTypes {
    /// Those of a table.
    pub fn new(table: &Table) -> KnownTypes
        ensures { AreKnown (table_types table.now) result }
    {
        let mut marks = [false; TYPES];
        let mut sizes = [None; TYPES];
        for ty in 1..TYPES {
            marks[ty] = table.is_installed(ty as u32);
            sizes[ty] = size_of_all(table, ty as u32);
        }
        KnownTypes { marks, sizes }
    }

    /// Whether a named block may have the type.
    pub fn has(&self, ty: u32) -> bool
        ensures { result ≡ get_or self.now.marks ty false }
    {
        match self.marks.get(ty as usize) {
            Some(known) => *known,
            None => false,
        }
    }

    /// From which byte on a block of an installed type is zero, at most 512, as the table says.
    pub fn size(&self, table: &Table, ty: u32, block: &[u8; BLOCK_LEN]) -> u16
        requires known { AreKnown (table_types table.now) self.now }
        requires installed { IsTrue ((table_types table.now).installed ty) }
        ensures value { result ≡ (table_types table.now).size ty block.now }
        ensures small { result ≤ 512 }
    {
        match self.sizes.get(ty as usize) {
            Some(Some(size)) => *size,
            _ => table.size(ty, block),
        }
    }
}

/// From which byte on each block of a type is zero, where no program has to be run for that.
fn size_of_all(table: &Table, ty: u32) -> Option<u16>
    ensures { IfSome result (λ size. (size ≤ 512) × ((block : List ℕ) → (table_types table.now).size ty block ≡ size)) }
{
    match table.get(ty) {
        Some(template) => constant_size(template.size()),
        None => None,
    }
}
