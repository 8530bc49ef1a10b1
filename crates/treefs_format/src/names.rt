// Names of files and directories.

ghost use Rattle.std.specs.Prelude.{◌≡◌};
ghost use Rattle.std.specs.List.{list_all};
ghost use Rattle.treefs_format.specs.Names.{is_dots, is_name, is_name_byte, is_name_length};

/// How many bytes a name has at most.
pub const NAME_LEN: usize = 255;

/// Whether these bytes are a name: 1 to 255 of them, none of which is 0 or a slash, and neither `.` nor `..`.
pub fn is_name(bytes: &[u8]) -> bool
    ensures { result ≡ is_name bytes.now }
{
    is_name_length(bytes.len()) && are_name_bytes(bytes) && !is_dots(bytes)
}

/// Whether a name may have so many bytes.
fn is_name_length(length: usize) -> bool
    ensures { result ≡ is_name_length length }
{
    1 <= length && length <= NAME_LEN
}

/// Whether a name may have this byte.
fn is_name_byte(byte: u8) -> bool
    ensures { result ≡ is_name_byte byte }
{
    byte != 0 && byte != b'/'
}

/// Whether a name may have these bytes.
fn are_name_bytes(bytes: &[u8]) -> bool
    ensures { result ≡ list_all is_name_byte bytes.now }
{
    bytes.iter().all(|byte| is_name_byte(*byte))
}

/// Whether these bytes name a directory itself, or the one that it stands in.
fn is_dots(bytes: &[u8]) -> bool
    ensures { result ≡ is_dots bytes.now }
{
    bytes == b".".as_slice() || bytes == b"..".as_slice()
}
