// A block that is read from its END back.

use crate::counts::Counts;

/// A block whose END was read and whose first word wasn't: where its first part ends, its END, and what its ELSE branch
/// and the words behind it come to.
#[derive(Clone, Copy, Debug, Default, PartialEq, Eq)]
pub struct Open {
    pub part: u8,
    pub close: u8,
    pub other: Counts,
    pub rest: Counts,
}
