// Owners as they are told on a line.

ghost use Rattle.std.specs.Prelude.{◌≡◌};
ghost use Rattle.tree_changes.specs.Attributes.{owner_of};
ghost use Rattle.tree_changes.specs.OwnerTexts.{IsOwnersTold, IsPartTold};

use crate::numbers::read_number;
use tree_lines::{Node, Owner};

/// A user, a group, or both.
#[derive(Clone, Copy, Debug, PartialEq, Eq)]
pub struct Owners {
    pub uid: Option<u32>,
    pub gid: Option<u32>,
}

/// A number, or nothing where there is no text. `None` where the text is neither.
fn read_part(text: &str) -> Option<Option<u32>>
    ensures { IsPartTold text.now result }
{
    if text.is_empty() {
        return Some(None);
    }
    match read_number(text, 10) {
        Some(number) => Some(Some(number)),
        None => None,
    }
}

impl Owners {
    /// Reads `USER`, `USER:GROUP` or `:GROUP`, all of them numbers. `None` where the text is none of these.
    pub fn read(text: &str) -> Option<Owners>
        ensures { IsOwnersTold text.now result }
    {
        let (user, group) = match text.split_once(':') {
            Some(parts) => parts,
            None => (text, ""),
        };
        match (read_part(user), read_part(group)) {
            (Some(None), Some(None)) => None,
            (Some(uid), Some(gid)) => Some(Owners { uid, gid }),
            _ => None,
        }
    }

    /// Who owns a node from then on.
    pub fn owner_of(self, node: &Node) -> Owner
        ensures { result ≡ owner_of self node.now }
    {
        Owner {
            uid: self.uid.unwrap_or(node.uid),
            gid: self.gid.unwrap_or(node.gid),
        }
    }
}
