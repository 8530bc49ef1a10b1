// Which places of a catalogue name a template.

ghost use Rattle.std.specs.Prelude.{◌≡◌, ◌<◌, ◌==◌, [], not, if◌then◌else◌};
ghost use Rattle.xn_model.specs.Root.{pointer};
ghost use Rattle.block_cache.specs.Named.{places_named};

use store_types::BLOCK_LEN;

/// How many types are built in, of which no place names a template.
pub(crate) const BUILT_IN_TYPES: u32 = 3;

/// How many places a catalogue has.
pub(crate) const PLACES: u32 = 16;

/// The byte of block 0 at which its catalogue begins.
const CATALOGUE_START: usize = 8;

/// Which places of a catalogue name a template.
#[derive(Clone, Copy)]
pub struct NamedPlaces {
    pub(crate) places: [bool; 16],
}

impl NamedPlaces {
    /// Those of a block 0 that has no state on the disk: none.
    pub fn none() -> NamedPlaces
        ensures { result.places ≡ places_named [] }
    {
        NamedPlaces {
            places: [false; 16],
        }
    }

    /// Those of the catalogue in block 0's bytes.
    pub fn of(root: &[u8; BLOCK_LEN]) -> NamedPlaces
        ensures { result.places ≡ places_named root.now }
    {
        let mut places = [false; 16];
        for place in 0..16 {
            places[place] = names_template(root, place);
        }
        NamedPlaces { places }
    }

    /// Those that are left where the life of a block ends: none where it is block 0.
    pub fn without(self, block: u32) -> NamedPlaces
        ensures { result.places ≡ (if block == 0 then places_named [] else self.places) }
    {
        if block == 0 {
            NamedPlaces::none()
        } else {
            self
        }
    }
}

/// Whether a place of the catalogue in block 0's bytes holds the number of a block.
fn names_template(root: &[u8; BLOCK_LEN], place: usize) -> bool
    requires { place < 16 }
    ensures { result ≡ not (pointer root.now place == 0) }
{
    let at = CATALOGUE_START + 4 * place;
    u32::from_le_bytes([root[at], root[at + 1], root[at + 2], root[at + 3]]) != 0
}
