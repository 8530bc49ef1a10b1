// The words of a transcript's lines.

ghost use Rattle.std.specs.Prelude.{◌<◌, IfSome};

use std::alloc::{AllocError, Global};

/// What a line asks for.
#[derive(Clone, Copy)]
pub enum Verb {
    Mkfs,
    Make(Make),
    Symlink,
    Change(Change),
    Write,
    More,
    Check,
    Look(Look),
    Time,
    Wave,
    Flush,
    Sync,
    Quiet,
}

/// Calls that answer a number.
#[derive(Clone, Copy)]
pub enum Make {
    Create,
    Mkdir,
    Begin,
    Commit,
    Put,
}

/// Calls that answer nothing.
#[derive(Clone, Copy)]
pub enum Change {
    Link,
    Unlink,
    Rmdir,
    Rename,
    Truncate,
    Trim,
    Reap,
    Utimens,
    Chmod,
    Chown,
}

/// Calls that only look.
#[derive(Clone, Copy)]
pub enum Look {
    Lookup,
    Stat,
    Readdir,
    Read,
    Readlink,
    Path,
}

/// The first word of a line, how many words it has, what it asks for, and which of the words a name is, which one a new name, and which one bytes; 0 for none
/// of them.
type Form = (&'static str, usize, Verb, usize, usize, usize);

/// The lines that are calls.
static FORMS: [Form; 35] = [
    ("mkfs", 3, Verb::Mkfs, 0, 0, 0),
    ("create", 3, Verb::Make(Make::Create), 2, 0, 0),
    ("create", 4, Verb::Make(Make::Create), 2, 0, 0),
    ("mkdir", 3, Verb::Make(Make::Mkdir), 2, 0, 0),
    ("mkdir", 4, Verb::Make(Make::Mkdir), 2, 0, 0),
    ("symlink", 4, Verb::Symlink, 2, 0, 3),
    ("link", 4, Verb::Change(Change::Link), 3, 0, 0),
    ("unlink", 3, Verb::Change(Change::Unlink), 2, 0, 0),
    ("rmdir", 3, Verb::Change(Change::Rmdir), 2, 0, 0),
    ("rename", 5, Verb::Change(Change::Rename), 2, 4, 0),
    ("begin", 2, Verb::Make(Make::Begin), 0, 0, 1),
    ("commit", 5, Verb::Make(Make::Commit), 3, 0, 0),
    ("put", 4, Verb::Make(Make::Put), 2, 0, 3),
    ("write", 4, Verb::Write, 0, 0, 3),
    ("more", 4, Verb::More, 0, 0, 3),
    ("truncate", 3, Verb::Change(Change::Truncate), 0, 0, 0),
    ("trim", 2, Verb::Change(Change::Trim), 0, 0, 0),
    ("reap", 1, Verb::Change(Change::Reap), 0, 0, 0),
    ("reap", 2, Verb::Change(Change::Reap), 0, 0, 0),
    ("reap", 3, Verb::Change(Change::Reap), 0, 0, 0),
    ("utimens", 3, Verb::Change(Change::Utimens), 0, 0, 0),
    ("chmod", 3, Verb::Change(Change::Chmod), 0, 0, 0),
    ("chown", 4, Verb::Change(Change::Chown), 0, 0, 0),
    ("lookup", 3, Verb::Look(Look::Lookup), 2, 0, 0),
    ("stat", 2, Verb::Look(Look::Stat), 0, 0, 0),
    ("readdir", 2, Verb::Look(Look::Readdir), 0, 0, 0),
    ("read", 4, Verb::Look(Look::Read), 0, 0, 0),
    ("readlink", 2, Verb::Look(Look::Readlink), 0, 0, 0),
    ("path", 4, Verb::Look(Look::Path), 2, 0, 0),
    ("check", 1, Verb::Check, 0, 0, 0),
    ("time", 2, Verb::Time, 0, 0, 0),
    ("wave", 1, Verb::Wave, 0, 0, 0),
    ("flush", 1, Verb::Flush, 0, 0, 0),
    ("sync", 1, Verb::Sync, 0, 0, 0),
    ("quiet", 1, Verb::Quiet, 0, 0, 0),
];

/// What a line asks for, and with what.
#[derive(Drop)]
pub struct Asked<'a> {
    pub verb: Verb,
    words: Vec<&'a str>,
    pub name: Vec<u8>,
    pub new_name: Vec<u8>,
    pub bytes: Vec<u8>,
}

/// The form of a line that begins with this word and has so many words.
fn form_of(first: &str, count: usize) -> Option<Form> {
    for form in &FORMS {
        if form.0 == first && form.1 == count {
            return Some(*form);
        }
    }
    None
}

/// What a line asks for; `None` where it is no call.
pub fn read_line(alloc: Global, line: &str) -> Result<Option<Asked<'_>>, AllocError> {
    let words: Vec<&str> = line.split(' ').collect(alloc)?;
    let Some((_, _, verb, name, new_name, bytes)) = form_of(word_at(&words, 0), words.len()) else {
        return Ok(None);
    };
    Ok(Some(Asked {
        name: read_name(alloc, part_at(&words, name))?,
        new_name: read_name(alloc, part_at(&words, new_name))?,
        bytes: read_bytes(alloc, part_at(&words, bytes))?,
        verb,
        words,
    }))
}

impl Asked<'_> {
    /// A word, or "" where there are fewer.
    fn word(&self, at: usize) -> &str {
        word_at(&self.words, at)
    }

    /// Whether that is the word there.
    pub fn says(&self, at: usize, word: &str) -> bool {
        self.word(at) == word
    }

    /// The number that a word says, if it says one.
    pub fn some_number(&self, at: usize) -> Option<u32> {
        self.word(at).parse::<u32>().ok()
    }

    /// The number that a word says; 0 where it says none.
    pub fn number(&self, at: usize) -> u32 {
        self.some_number(at).unwrap_or(0)
    }

    /// The numbers that the words behind the first one say.
    pub fn numbers(&self, alloc: Global) -> Vec<u32> {
        let mut numbers = Vec::new(alloc);
        for at in 1..self.words.len() {
            let _pushed = numbers.push(self.number(at));
        }
        numbers
    }

    /// The size or the place that a word says; 0 where it says none.
    pub fn size(&self, at: usize) -> u64 {
        self.word(at).parse::<u64>().unwrap_or(0)
    }

    /// The time that a word says; 0 where it says none.
    pub fn time(&self, at: usize) -> i64 {
        self.word(at).parse::<i64>().unwrap_or(0)
    }

    /// The mode that a word says in octal digits; 0 where it says none.
    pub fn mode(&self, at: usize) -> u16 {
        u16::from_str_radix(self.word(at), 8).unwrap_or(0)
    }

    /// The permissions of a new inode that the fourth word says in octal digits; these where there is none.
    pub fn permissions(&self, without: u16) -> u16
        requires { without < 4096 }
        ensures { result < 4096 }
    {
        if self.words.len() < 4 {
            return without;
        }
        let mut value = 0u16;
        for byte in self.word(3).as_bytes() {
            if b'0' <= *byte && *byte <= b'7' {
                value = (value % 512) * 8 + u16::from(*byte - b'0');
            }
        }
        value % 4096
    }
}

/// A word, or "" where there are fewer.
fn word_at<'a>(words: &[&'a str], at: usize) -> &'a str {
    match words.get(at) {
        Some(word) => word,
        None => "",
    }
}

/// The word of a name or of bytes; "" at place 0.
fn part_at<'a>(words: &[&'a str], place: usize) -> &'a str {
    if place == 0 {
        ""
    } else {
        word_at(words, place)
    }
}

/// The bytes that a word says; none where it says none.
fn read_bytes(alloc: Global, word: &str) -> Result<Vec<u8>, AllocError> {
    let mut bytes = Vec::new(alloc);
    if word != "-" && !append_parts(&mut bytes, word)? {
        bytes.clear();
    }
    Ok(bytes)
}

/// Appends the bytes of parts with `+` between them, and answers whether they are such parts.
fn append_parts(bytes: &mut Vec<u8>, word: &str) -> Result<bool, AllocError> {
    for part in word.split('+') {
        let (digits, count) = part.split_once('*').unwrap_or((part, "1"));
        let Ok(count) = count.parse::<usize>() else {
            return Ok(false);
        };
        if !append_digits(bytes, digits.as_bytes(), count)? {
            return Ok(false);
        }
    }
    Ok(true)
}

/// Appends the bytes of pairs of digits, so many times, and answers whether they are such pairs.
fn append_digits(bytes: &mut Vec<u8>, digits: &[u8], count: usize) -> Result<bool, AllocError> {
    for _time in 0..count {
        for pair in digits.chunks(2) {
            let Some((byte, [])) = first_byte(pair) else {
                return Ok(false);
            };
            bytes.push(byte)?;
        }
    }
    Ok(true)
}

/// The name that a word says; none where it says none.
fn read_name(alloc: Global, word: &str) -> Result<Vec<u8>, AllocError> {
    let mut name = Vec::new(alloc);
    if !append_name(&mut name, word)? {
        name.clear();
    }
    Ok(name)
}

/// Appends the bytes of a name in which `%` stands before each two digits of a byte, and answers whether it does.
fn append_name(name: &mut Vec<u8>, word: &str) -> Result<bool, AllocError> {
    match word.split_once('%') {
        Some((front, escapes)) => {
            name.extend_from_slice(front.as_bytes())?;
            append_escapes(name, escapes)
        }
        None => {
            name.extend_from_slice(word.as_bytes())?;
            Ok(true)
        }
    }
}

/// Appends the bytes of parts with `%` between them that begin with two digits, and answers whether they do.
fn append_escapes(name: &mut Vec<u8>, word: &str) -> Result<bool, AllocError> {
    for part in word.split('%') {
        let Some((byte, rest)) = first_byte(part.as_bytes()) else {
            return Ok(false);
        };
        name.push(byte)?;
        name.extend_from_slice(rest)?;
    }
    Ok(true)
}

/// The byte of the first two digits, and what stands behind them.
fn first_byte(digits: &[u8]) -> Option<(u8, &[u8])> {
    match digits {
        [high, low, rest @ ..] => Some((16 * digit(*high)? + digit(*low)?, rest)),
        _ => None,
    }
}

/// The number of a digit in base 16.
fn digit(byte: u8) -> Option<u8>
    ensures { IfSome result (λ digit. digit < 16) }
{
    match byte {
        b'0'..=b'9' => Some(byte - b'0'),
        b'a'..=b'f' => Some(byte - b'a' + 10),
        b'A'..=b'F' => Some(byte - b'A' + 10),
        _ => None,
    }
}
