// What a command line asks for.

use crate::forms::HUMAN_NAME;
use crate::reader::{disk_reader, format_reader, shell_reader};
use crate::sizes::{blocks_of, size_of};
use crate::word::{FoundKind, ListForm, Word};
use clap::error::ErrorKind;
use clap::{ArgMatches, Command, Error};
use std::alloc::{AllocError, Global};

/// The fewest and the most blocks of a disk.
const LEAST_BLOCKS: u32 = 32;

const MOST_BLOCKS: u32 = 1_048_576;

/// What a command line asks for.
#[derive(Debug, Drop)]
pub enum Request<'a> {
    /// A file is made that is a disk of so many blocks with an empty volume.
    Format {
        image: &'a str,
        blocks: u32,
        fs: u8,
    },
    /// Something is done to the files of a disk.
    Disk {
        image: &'a str,
        fs: u8,
        /// After so many writes of blocks no further one is made.
        stop: Option<u32>,
        /// Whether what is written is synced.
        is_synced: bool,
        word: Word<'a>,
    },
}

/// The words of a command's line, as they were found.
#[derive(Clone, Copy)]
struct Found<'a, 'f> {
    alloc: Global,
    matches: &'f ArgMatches<'a>,
}

impl<'a, 'f> Found<'a, 'f> {
    /// A value that has to be there.
    fn value(&self, id: &str) -> &'a str {
        self.matches.get_str(id).unwrap_or("")
    }

    /// Whether a flag is there.
    fn has(&self, id: &str) -> bool {
        self.matches.get_count(id) > 0
    }

    /// Values that have to be there.
    fn values(&self, id: &str) -> Result<Vec<&'a str>, AllocError> {
        match self.matches.get_strs(id) {
            Some(values) => Vec::from_slice(self.alloc, values),
            None => Ok(Vec::new(self.alloc)),
        }
    }

    /// The paths.
    fn paths(&self) -> Result<Vec<&'a str>, AllocError> {
        self.values("PATH")
    }

    /// How names are to be told.
    fn list_form(&self) -> ListForm {
        ListForm {
            is_long: self.has("long"),
            has_hidden: self.has("all"),
            is_recursive: self.has("recursive"),
            is_human: self.has(HUMAN_NAME),
            is_json: self.has("json"),
        }
    }

    /// What kind of thing is looked for.
    fn kind(&self) -> Option<FoundKind> {
        match self.matches.get_str("type")? {
            "f" => Some(FoundKind::File),
            "d" => Some(FoundKind::Folder),
            "l" => Some(FoundKind::SymbolicLink),
            _ => None,
        }
    }

    /// The word of a command that looks.
    fn looking_word(&self, name: &str) -> Result<Option<Word<'a>>, AllocError> {
        let word = match name {
            "ls" => Word::List {
                paths: self.paths()?,
                form: self.list_form(),
            },
            "tree" => Word::Tree {
                path: self.value("PATH"),
            },
            "cat" => Word::Cat {
                paths: self.paths()?,
            },
            "stat" => Word::Stat {
                paths: self.paths()?,
                is_json: self.has("json"),
            },
            "readlink" => Word::ReadLink {
                paths: self.paths()?,
            },
            "find" => Word::Find {
                paths: self.paths()?,
                name: self.matches.get_str("name"),
                kind: self.kind(),
            },
            "du" => Word::DiskUsage {
                paths: self.paths()?,
                is_summary: self.has("summarize"),
                is_human: self.has(HUMAN_NAME),
            },
            _ => return Ok(None),
        };
        Ok(Some(word))
    }

    /// The word of a command that brings files in or out, or gives them other names.
    fn moving_word(&self, name: &str) -> Result<Option<Word<'a>>, AllocError> {
        let word = match name {
            "put" => Word::Put {
                sources: self.values("SOURCE")?,
                path: self.value("PATH"),
            },
            "get" => Word::Get {
                paths: self.paths()?,
                target: self.value("TARGET"),
            },
            "cp" => Word::Copy {
                paths: self.paths()?,
                to: self.value("TO"),
                is_recursive: self.has("recursive"),
            },
            "mv" => Word::Move {
                paths: self.paths()?,
                to: self.value("TO"),
            },
            "ln" => Word::Link {
                target: self.value("TARGET"),
                path: self.value("PATH"),
                is_symbolic: self.has("symbolic"),
            },
            _ => return Ok(None),
        };
        Ok(Some(word))
    }

    /// The word of a command that makes, gives up or sets.
    fn setting_word(&self, name: &str) -> Result<Option<Word<'a>>, AllocError> {
        let word = match name {
            "rm" => Word::Remove {
                paths: self.paths()?,
                is_recursive: self.has("recursive"),
                is_forced: self.has("force"),
            },
            "mkdir" => Word::MakeFolder {
                paths: self.paths()?,
                with_parents: self.has("parents"),
            },
            "rmdir" => Word::RemoveFolder {
                paths: self.paths()?,
            },
            "chmod" => Word::ChangeMode {
                mode: self.value("MODE"),
                paths: self.paths()?,
                is_recursive: self.has("recursive"),
            },
            "chown" => Word::ChangeOwner {
                owner: self.value("OWNER"),
                paths: self.paths()?,
                is_recursive: self.has("recursive"),
            },
            "touch" => Word::Touch {
                paths: self.paths()?,
                date: self.matches.get_str("date"),
            },
            _ => return Ok(None),
        };
        Ok(Some(word))
    }

    /// The word of a command without paths.
    fn plain_word(&self, name: &str) -> Option<Word<'a>> {
        let word = match name {
            "df" => Word::FreeSpace {
                is_json: self.has("json"),
                is_human: self.has(HUMAN_NAME),
            },
            "check" => Word::Check {
                is_repairing: self.has("repair"),
                is_json: self.has("json"),
            },
            "shell" => Word::Shell {
                is_lazy: self.has("lazy"),
            },
            "sync" => Word::Sync,
            "cd" => Word::ChangeFolder {
                path: self.value("PATH"),
            },
            "pwd" => Word::Folder,
            "exit" | "quit" => Word::Exit,
            _ => return None,
        };
        Some(word)
    }

    /// The word of `truncate`.
    fn truncate(&self, command: &mut Command<'a>) -> Result<Word<'a>, Error> {
        let size = self.value("size");
        match size_of(size) {
            Some(size) => Ok(Word::Truncate {
                paths: self.paths()?,
                size,
            }),
            None => Err(no_value(
                self.alloc,
                command,
                size,
                "a number of bytes, or as 64K, 1M, 2G",
            )?),
        }
    }

    /// The word of a command.
    fn word(&self, command: &mut Command<'a>, name: &str) -> Result<Option<Word<'a>>, Error> {
        if name == "truncate" {
            return Ok(Some(self.truncate(command)?));
        }
        if let Some(word) = self.looking_word(name)? {
            return Ok(Some(word));
        }
        if let Some(word) = self.moving_word(name)? {
            return Ok(Some(word));
        }
        match self.setting_word(name)? {
            Some(word) => Ok(Some(word)),
            None => Ok(self.plain_word(name)),
        }
    }
}

/// What is told of a value that is none.
fn no_value(
    alloc: Global,
    command: &mut Command<'_>,
    value: &str,
    wanted: &str,
) -> Result<Error, AllocError> {
    let told = format!(in alloc; "invalid value {value:?}: wanted is {wanted}")?;
    command.error(ErrorKind::ValueValidation, told.as_str())
}

/// The number of the file system, 0 where none is told.
fn fs_of(matches: &ArgMatches) -> u8 {
    matches.get_one::<u8>("fs").unwrap_or(0)
}

/// Reads the words behind the program's name, as `prepared` answers them. An error has the text that is to be printed, also where help is asked for.
pub fn read<'a>(alloc: Global, words: &'a [&'a str]) -> Result<Option<Request<'a>>, Error> {
    match words.first() {
        Some(&"format") => read_format(alloc, &words[1..]),
        _ => read_disk(alloc, words),
    }
}

/// The words behind `format`.
fn read_format<'a>(alloc: Global, words: &'a [&'a str]) -> Result<Option<Request<'a>>, Error> {
    let mut command = format_reader(alloc)?;
    let matches = command.try_get_matches_from_mut(words)?;
    let given = matches.get_str("BLOCKS").unwrap_or("");
    match blocks_of(given) {
        Some(blocks) if LEAST_BLOCKS <= blocks && blocks <= MOST_BLOCKS => {
            Ok(Some(Request::Format {
                image: matches.get_str("IMAGE").unwrap_or(""),
                blocks,
                fs: fs_of(&matches),
            }))
        }
        _ => Err(no_value(
            alloc,
            &mut command,
            given,
            "32 to 1048576 blocks, or as a size 16K to 512M",
        )?),
    }
}

/// The words of any other line.
fn read_disk<'a>(alloc: Global, words: &'a [&'a str]) -> Result<Option<Request<'a>>, Error> {
    let mut command = disk_reader(alloc)?;
    let matches = command.try_get_matches_from_mut(words)?;
    let Some((name, found)) = matches.subcommand() else {
        return Ok(None);
    };
    let found = Found {
        alloc,
        matches: found,
    };
    let Some(word) = found.word(&mut command, name)? else {
        return Ok(None);
    };
    Ok(Some(Request::Disk {
        image: matches.get_str("IMAGE").unwrap_or(""),
        fs: fs_of(&matches),
        stop: matches.get_one::<u32>("stop"),
        is_synced: !matches.get_flag("no-sync"),
        word,
    }))
}

/// Reads the words of a line of a shell, as `prepared` answers them. An error has the text that is to be printed, also where help is asked for.
pub fn read_shell<'a>(alloc: Global, words: &'a [&'a str]) -> Result<Option<Word<'a>>, Error> {
    let mut command = shell_reader(alloc)?;
    let matches = command.try_get_matches_from_mut(words)?;
    let Some((name, found)) = matches.subcommand() else {
        return Ok(None);
    };
    let found = Found {
        alloc,
        matches: found,
    };
    found.word(&mut command, name)
}
