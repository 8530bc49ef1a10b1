// Where paths of a line lead in a volume.

ghost use Rattle.std.specs.Prelude.{◌≡◌, IfErr, IfOk};
ghost use Rattle.tree_lines.specs.Faults.{LacksPlace};
ghost use Rattle.tree_lines.specs.Places.{IsFoundNode, IsGoal, IsLastName, IsOwnName, IsPlace, IsThere, goal_folder, goal_name, goal_slash};

use crate::fault::{Fault, at};
use crate::node::Node;
use crate::reason::Reason;
use crate::view::View;
use std::alloc::Global;
use treefs_paths::split_path;

/// The number of the top folder.
pub const TOP: u32 = 1;

/// A name in a folder, as a path says it.
#[derive(Clone, Copy, Debug)]
pub struct Place<'p> {
    pub folder: u32,
    pub name: &'p [u8],
    /// Whether a slash follows the name, as it may where a folder is meant.
    pub has_slash: bool,
}

/// What stands where a path leads, from a folder on. A symbolic link at its end is followed where that is told.
pub fn find<V: View>(
    view: &V,
    alloc: Global,
    folder: u32,
    path: &str,
    is_followed: bool,
) -> Result<Node, Fault>
    ensures { IfOk result (IsFoundNode (V.leads view.now) (V.shows view.now) folder path.now is_followed) }
{
    if path.is_empty() {
        return Err(Fault::Volume(Reason::Empty));
    }
    let found = match view.find(alloc, folder, path.as_bytes(), is_followed) {
        Ok(number) => view.node(number),
        Err(reason) => Err(reason),
    };
    match found {
        Ok(node) => Ok(node),
        Err(reason) => Err(at(alloc, path, reason)),
    }
}

/// The folder in which the last name of a path stands, or would stand, and that name. It is not looked up. The top folder has none.
pub fn place_of<'p, V: View>(
    view: &V,
    alloc: Global,
    folder: u32,
    path: &'p str,
) -> Result<Place<'p>, Fault>
    ensures ok { IfOk result (λ place. IsPlace (V.leads view.now) folder path.now place.folder place.name.now place.has_slash) }
    ensures err { IfErr result (LacksPlace (V.leads view.now) folder path.now) }
{
    if path.is_empty() {
        return Err(Fault::Volume(Reason::Empty));
    }
    let parts = split_path(path.as_bytes());
    if parts.name.is_empty() {
        return Err(at(alloc, path, Reason::Top));
    }
    match view.find(alloc, folder, parts.before, true) {
        Ok(folder) => Ok(Place {
            folder,
            name: parts.name,
            has_slash: !parts.behind.is_empty(),
        }),
        Err(reason) => Err(at(alloc, path, reason)),
    }
}

/// What a name in a folder leads to, if there is such a name. A symbolic link is not followed.
pub fn there<V: View>(view: &V, place: Place) -> Result<Option<Node>, Reason>
    ensures { IfOk result (IsThere (V.names_number view.now) (V.shows view.now) place.entry.folder place.entry.name.now) }
{
    match view.look_up(place.folder, place.name) {
        Ok(number) => Ok(Some(view.node(number)?)),
        Err(Reason::Missing) => Ok(None),
        Err(reason) => Err(reason),
    }
}

/// The last name of a path; of one of slashes alone the path.
pub fn last_name(path: &[u8]) -> &[u8]
    ensures { IsLastName path.now result.now }
{
    let name = split_path(path).name;
    if name.is_empty() { path } else { name }
}

/// The name that something at a path keeps where it goes into a folder: the last one. The top folder has none, and `.` and `..` are none.
pub fn own_name(alloc: Global, path: &str) -> Result<&[u8], Fault>
    ensures { IfOk result (λ name. IsOwnName path.now name.now) }
{
    let name = split_path(path.as_bytes()).name;
    if name.is_empty() || name == b".".as_slice() || name == b"..".as_slice() {
        return Err(at(alloc, path, Reason::NoOwnName));
    }
    Ok(name)
}

/// Where something goes.
#[derive(Clone, Copy, Debug)]
pub enum Goal<'p> {
    /// Into the folder of this number, under its own name.
    Into(u32),
    /// To this place.
    To(Place<'p>),
}

impl<'p> Goal<'p> {
    /// The place of what goes there, which has this name of its own.
    pub fn place(self, name: &'p [u8]) -> Place<'p>
        ensures folder { result.folder ≡ goal_folder self.entry }
        ensures name { result.name.now ≡ goal_name self.entry name.now }
        ensures slash { result.has_slash ≡ goal_slash self.entry }
    {
        match self {
            Goal::Into(folder) => Place {
                folder,
                name,
                has_slash: false,
            },
            Goal::To(place) => place,
        }
    }
}

/// Where something goes that is to be at a path: into the folder that is there, over a symbolic link too, or to that place. Where several things go there it
/// has to be a folder.
pub fn find_to<'p, V: View>(
    view: &V,
    alloc: Global,
    folder: u32,
    path: &'p str,
    are_several: bool,
) -> Result<Goal<'p>, Fault>
    ensures { IfOk result (IsGoal (V.leads view.now) (V.shows view.now) folder path.now are_several) }
{
    if path.is_empty() {
        return Err(Fault::Volume(Reason::Empty));
    }
    let found = match view.find(alloc, folder, path.as_bytes(), true) {
        Ok(number) => view.node(number),
        Err(reason) => Err(reason),
    };
    match found {
        Ok(node) if node.is_folder() => Ok(Goal::Into(node.number)),
        Ok(_) if are_several => Err(at(alloc, path, Reason::NoFolder)),
        Err(reason) if are_several => Err(at(alloc, path, reason)),
        Ok(_) | Err(Reason::Missing) => Ok(Goal::To(place_of(view, alloc, folder, path)?)),
        Err(reason) => Err(at(alloc, path, reason)),
    }
}
