// What the content of inode 0 begins with.

ghost use Rattle.std.specs.Prelude.{◌≡◌, ◌≤◌, length, IsTrue, ◌↔◌};
ghost use Rattle.treefs_format.specs.Roots.{is_clean, is_marked, key_of, leaf_of_inode, root_content, root_mark};

/// How many bytes of the content of inode 0 say what the volume is.
pub const ROOT_LEN: usize = 25;

/// The place in the content of inode 0 of the byte that says whether the volume was closed: 1 where it was, and was not opened since.
pub const CLEAN: usize = 24;

/// The mark with which the content of inode 0 begins.
const MARK: [u8; 8] = *b"XNTREE1\0";

/// The beginning of the content of inode 0: the mark, the key of the names' hash, and whether the volume was closed.
pub fn root_content(key: &[u8; 16], clean: bool) -> [u8; 25]
    ensures { result ≡ root_content key.now clean }
{
    let mut content = [0; 25];
    content[..8].copy_from_slice(&MARK);
    content[8..24].copy_from_slice(key);
    content[CLEAN] = u8::from(clean);
    content
}

/// Whether the content of inode 0 begins with the mark.
pub fn is_marked(content: &[u8]) -> bool
    requires { 25 ≤ length content.now }
    ensures { result ≡ is_marked content.now }
{
    &content[..8] == MARK.as_slice()
}

/// The key of the names' hash.
pub fn key(content: &[u8]) -> [u8; 16]
    requires { 25 ≤ length content.now }
    ensures { result ≡ key_of content.now }
{
    let mut key = [0; 16];
    key.copy_from_slice(&content[8..24]);
    key
}

/// Whether the volume was closed, and was not opened since.
pub fn is_clean(content: &[u8]) -> bool
    requires { 25 ≤ length content.now }
    ensures { result ≡ is_clean content.now }
{
    content[CLEAN] == 1
}

/// The leaf of inode 0 that is an inode, from 1 on.
pub fn inode_leaf(number: u32) -> u32
    requires { 1 ≤ number }
    ensures { result ≡ leaf_of_inode number }
{
    number - 1
}
