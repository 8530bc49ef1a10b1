// What is said of new files, folders and symbolic links.

ghost use Rattle.std.specs.Prelude.{◌≡◌, ◌%◌, ◌<◌};
ghost use Rattle.tree_changes.specs.Copies.{HasRightsOf};
ghost use Rattle.tree_changes.specs.Folders.{IsNew};

use flush_store::FlushStore;
use tree_lines::{Attributes, Node, Opened};

/// What is said of something new in a volume with these permissions, which belongs to user and group 0.
pub fn attributes_with<S: FlushStore + Drop>(opened: &Opened<S>, permissions: u16) -> Attributes
    ensures in_range { result.permissions < 4096 }
    ensures new { IsNew result (permissions % 4096) }
{
    Attributes {
        permissions: permissions % 4096,
        uid: 0,
        gid: 0,
        generation: opened.generation(),
    }
}

/// What is said of a copy of a node in its volume.
pub fn attributes_of<S: FlushStore + Drop>(opened: &Opened<S>, node: &Node) -> Attributes
    ensures in_range { result.permissions < 4096 }
    ensures rights { HasRightsOf result node.now }
{
    Attributes {
        permissions: node.permissions % 4096,
        uid: node.uid,
        gid: node.gid,
        generation: opened.generation(),
    }
}
