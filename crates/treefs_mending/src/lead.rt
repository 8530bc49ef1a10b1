// Where names lead.

ghost use Rattle.std.specs.Prelude.{◌≡◌};
ghost use Rattle.treefs_lookup.specs.Readable.{readable};
ghost use Rattle.treefs_mending.specs.Surveys.{lead_at, lead_of};

use crate::tally::{Tally, is_found};
use treefs_edits::Tree;
use treefs_format::Kind;
use treefs_lookup::{Found, find_inode};
use treefs_model::Fault;
use xn_state::Store;

/// Where a name leads.
#[derive(Clone, Copy)]
pub enum Lead {
    /// To no inode, or to a directory that was found before: the name is one too many.
    Surplus,
    /// To a directory that was not found before, with this inode block.
    NewDirectory(u32),
    /// To a file or a symbolic link.
    File,
}

/// Where a name leads, by what is found of the inode of its number; `is_found` says whether the inode was found before.
pub(crate) fn lead_of(inode: Result<Found, Fault>, is_found: bool) -> Lead
    ensures { result ≡ lead_of inode is_found }
{
    match inode {
        Ok(inode) => match inode.kind {
            Kind::Directory if is_found => Lead::Surplus,
            Kind::Directory => Lead::NewDirectory(inode.block),
            Kind::File | Kind::SymbolicLink => Lead::File,
        },
        Err(_) => Lead::Surplus,
    }
}

/// Where a name of a number leads.
pub(crate) fn lead_at<S: Store>(store: &S, tree: Tree, tallies: &[Tally], number: u32) -> Lead
    ensures { result ≡ lead_at (readable (S.state_of store.now) tree.fs.number) tree.top tallies.now number }
{
    lead_of(
        find_inode(store, tree.fs, tree.top, number),
        is_found(tallies, number),
    )
}
