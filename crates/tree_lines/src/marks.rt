// How kinds and modes are shown.

use std::fmt;
use treefs_format::Kind;

/// The letter of a kind before a mode.
fn kind_letter(kind: Kind) -> char {
    match kind {
        Kind::Directory => 'd',
        Kind::File => '-',
        Kind::SymbolicLink => 'l',
    }
}

/// What is shown behind a name of a kind: a slash behind folders, `@` behind symbolic links.
pub fn kind_mark(kind: Kind) -> &'static str {
    match kind {
        Kind::Directory => "/",
        Kind::File => "",
        Kind::SymbolicLink => "@",
    }
}

/// The letter of a bit where it is set.
fn letter(permissions: u16, bit: u16, letter: char) -> char {
    if permissions & bit == 0 { '-' } else { letter }
}

/// The letter of the right to execute, which a special bit beside it changes: small where both are set, large where only that one is.
fn executes(permissions: u16, bit: u16, special: u16, small: char, large: char) -> char {
    match (permissions & bit != 0, permissions & special != 0) {
        (true, true) => small,
        (false, true) => large,
        (true, false) => 'x',
        (false, false) => '-',
    }
}

/// A kind and its permissions, printed as `drwxr-xr-x`.
#[derive(Clone, Copy, Debug)]
pub struct Mode {
    pub kind: Kind,
    pub permissions: u16,
}

impl fmt::Display for Mode {
    fn fmt<W: fmt::Write>(&self, f: &mut fmt::Formatter<W>) -> fmt::Result {
        let bits = self.permissions;
        let kind = kind_letter(self.kind);
        let (ur, uw) = (letter(bits, 0o400, 'r'), letter(bits, 0o200, 'w'));
        let (gr, gw) = (letter(bits, 0o040, 'r'), letter(bits, 0o020, 'w'));
        let (or, ow) = (letter(bits, 0o004, 'r'), letter(bits, 0o002, 'w'));
        let ux = executes(bits, 0o100, 0o4000, 's', 'S');
        let gx = executes(bits, 0o010, 0o2000, 's', 'S');
        let ox = executes(bits, 0o001, 0o1000, 't', 'T');
        write!(f, "{kind}{ur}{uw}{ux}{gr}{gw}{gx}{or}{ow}{ox}")
    }
}
