// What an inode is, in the highest four bits of its mode.

ghost use Rattle.std.specs.Prelude.{◌≡◌, ◌%◌, ◌<◌};

/// What an inode is.
#[derive(Clone, Copy, Debug, PartialEq, Eq)]
pub enum Kind {
    Directory,
    File,
    SymbolicLink,
}

impl Kind {
    ghost use Rattle.treefs_format.specs.Inodes.{kind_number, kind_of, mode_of};

    /// The kind in a mode; `None` for any other number there.
    pub fn of_mode(mode: u16) -> Option<Kind>
        ensures { result ≡ kind_of mode }
    {
        match mode / 4096 {
            4 => Some(Kind::Directory),
            8 => Some(Kind::File),
            10 => Some(Kind::SymbolicLink),
            _ => None,
        }
    }

    /// The number of the kind in a mode.
    fn number(self) -> u16
        ensures { result ≡ kind_number self }
    {
        match self {
            Kind::Directory => 4,
            Kind::File => 8,
            Kind::SymbolicLink => 10,
        }
    }

    /// The mode with 12 permission bits.
    pub fn mode(self, permissions: u16) -> u16
        requires { permissions < 4096 }
        ensures { result ≡ mode_of self permissions }
    {
        4096 * self.number() + permissions
    }
}

/// The 12 permission bits of a mode.
pub fn permissions(mode: u16) -> u16
    ensures { result ≡ mode % 4096 }
{
    mode % 4096
}
