// What is to be put.

ghost use Rattle.std.specs.Prelude.{◌<◌};

use treefs::Attributes;
use treefs_format::Kind;

/// A whole file or symbolic link that is to be put.
#[derive(Clone, Copy)]
pub struct Put<'a> {
    pub directory: u32,
    pub name: &'a [u8],
    pub kind: Kind,
    pub attributes: Attributes,
    pub bytes: &'a [u8],
    /// Whether it takes the place of what has the name.
    pub replace: bool,
    ghost in_range: { attributes.permissions < 4096 },
}
