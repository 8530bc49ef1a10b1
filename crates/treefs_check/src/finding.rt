// What is wrong with a volume.

ghost use Rattle.std.specs.Prelude.{◌≡◌};
ghost use Rattle.treefs_check.specs.Findings.{is_damage};

use treefs_mending::Name;

/// Something that is wrong with a volume.
#[derive(Clone, Copy, Debug)]
pub enum Finding {
    /// Inode 1 is no directory with a link.
    NoTop,
    /// A name leads to no inode.
    NoInode(Name),
    /// A name is one too many: it leads to a directory that another one leads to, or stands in a directory that is not found.
    Surplus(Name),
    /// A look-up of a name does not find this record: the name is there twice, or stands in none of its candidates, or is none.
    NotFound(Name),
    /// The inode of a number has fewer links than names.
    FewLinks(u32),
    /// The inode of a number has more links than names that are not one too many.
    ManyLinks(u32),
    /// The directory of a number says another parent than the directory in which it is found.
    Parent(u32),
    /// The inode of a number says a size that no file has.
    TooLong(u32),
    /// Something stands past the size of the file or symbolic link of a number.
    PastSize(u32),
}

impl Finding {
    /// Whether no crash leaves it; all else a mount mends.
    pub fn is_damage(&self) -> bool
        ensures { result ≡ is_damage self.now }
    {
        match self {
            Finding::NoTop
            | Finding::NoInode(_)
            | Finding::NotFound(_)
            | Finding::FewLinks(_)
            | Finding::TooLong(_) => true,
            Finding::Surplus(_)
            | Finding::ManyLinks(_)
            | Finding::Parent(_)
            | Finding::PastSize(_) => false,
        }
    }
}
