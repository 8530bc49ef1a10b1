// The readers of command lines.

use crate::forms::{Choice, Flag, Form, Part, Place, forms_of};
use clap::{Arg, ArgAction, Command, value_parser};
use std::alloc::{AllocError, Global};

/// What the program is for.
const ABOUT: &str = "Files in a disk image: `xnfs format IMAGE BLOCKS`, or `xnfs IMAGE COMMAND ..`";

/// What is told of the whole.
const EXAMPLES: &str = "Examples:
  xnfs format disk.img 16M              make a disk of 16 MiB with an empty volume
  xnfs disk.img put notes.txt pictures /
  xnfs disk.img ls -l /pictures
  xnfs disk.img get /notes.txt copy.txt
  xnfs disk.img shell                   read commands from standard input
A command that ended with status 0 is on the disk. One that was stopped leaves each file whole.";

/// The number of the file system.
fn file_system<'a>(alloc: Global) -> Arg<'a> {
    Arg::new(alloc, "fs")
        .long("fs")
        .value_name("N")
        .value_parser(value_parser!(u8).range(0..=31))
        .default_value("0")
        .help("the file system, 0 to 31")
}

/// After how many writes of blocks a line is stopped.
fn stop<'a>(alloc: Global) -> Arg<'a> {
    Arg::new(alloc, "stop")
        .long("stop")
        .value_name("K")
        .value_parser(value_parser!(u32))
        .help("for tests: end before block write K + 1, as a kill would")
}

/// That a line makes no sync.
fn no_sync<'a>(alloc: Global) -> Arg<'a> {
    Arg::new(alloc, "no-sync")
        .long("no-sync")
        .action(ArgAction::SetTrue)
        .help("for tests: sync nothing, so that a crash of the system may lose what was done")
}

/// A word that has to be there.
fn wanted<'a>(alloc: Global, name: &'static str, help: &'static str) -> Arg<'a> {
    Arg::new(alloc, name).required(true).help(help)
}

/// Words of which one or more have to be there.
fn several<'a>(alloc: Global, name: &'static str, help: &'static str) -> Arg<'a> {
    wanted(alloc, name, help).num_args(1..)
}

/// The path of a folder, with what stands for it where it is left out.
fn folder<'a>(alloc: Global, default: &'static str) -> Arg<'a> {
    Arg::new(alloc, "PATH")
        .default_value(default)
        .help("a path in the volume")
}

/// A word that may be there.
fn flag<'a>(alloc: Global, flag: &Flag) -> Result<Arg<'a>, AllocError> {
    let mut made = Arg::new(alloc, flag.name)
        .long(flag.name)
        .action(ArgAction::Count)
        .help(flag.help);
    if let Some(short) = flag.short {
        made = made.short(short);
    }
    match flag.alias {
        Some(alias) => made.short_alias(alias),
        None => Ok(made),
    }
}

/// A word with a value behind it.
fn choice<'a>(alloc: Global, choice: &Choice) -> Arg<'a> {
    let mut made = Arg::new(alloc, choice.name)
        .long(choice.name)
        .value_name(choice.value)
        .required(choice.required)
        .help(choice.help);
    if !choice.values.is_empty() {
        made = made.value_parser(choice.values);
    }
    match choice.short {
        Some(short) => made.short(short),
        None => made,
    }
}

/// A part of a command's line.
fn part<'a>(alloc: Global, part: &Part) -> Result<Arg<'a>, AllocError> {
    let made = match part {
        Part::Wanted { name, help } => wanted(alloc, name, help),
        Part::WantedSigned { name, help } => wanted(alloc, name, help).allow_hyphen_values(true),
        Part::Several { name, help } => several(alloc, name, help),
        Part::Folder => folder(alloc, "."),
        Part::Folders => folder(alloc, ".").num_args(0..),
        Part::FolderOrTop => folder(alloc, "/"),
        Part::Flag(it) => flag(alloc, it)?,
        Part::Choice(it) => choice(alloc, it),
    };
    Ok(made)
}

/// The help of a command that has another use for its letter.
fn long_help<'a>(alloc: Global) -> Arg<'a> {
    Arg::new(alloc, "help")
        .long("help")
        .action(ArgAction::Help)
        .help("Print help")
}

/// Whether a part of a command takes the letter of the help.
fn takes_help_letter(part: &Part) -> bool {
    match part {
        Part::Flag(flag) => flag.short == Some('h'),
        _ => false,
    }
}

/// A command of this form.
fn command<'a>(alloc: Global, form: &Form) -> Result<Command<'a>, AllocError> {
    let mut command = Command::new(alloc, form.name)
        .about(form.about)
        .after_help(form.after);
    for it in form.parts {
        command = command.arg(part(alloc, it)?)?;
    }
    if form.parts.iter().any(|part| takes_help_letter(part)) {
        command = command.disable_help_flag(true).arg(long_help(alloc))?;
    }
    Ok(command)
}

/// The commands that a line or a shell has.
fn commands<'a>(alloc: Global, place: Place) -> Result<Vec<Command<'a>>, AllocError> {
    let mut commands = Vec::new(alloc);
    for forms in forms_of(place) {
        for form in forms {
            commands.push(command(alloc, form)?)?;
        }
    }
    Ok(commands)
}

/// A reader of words that stand behind the program's name.
fn reader<'a>(alloc: Global, name: &'static str, about: &'static str) -> Command<'a> {
    Command::new(alloc, name).about(about).no_binary_name(true)
}

/// The reader of the words behind `format`.
pub fn format_reader<'a>(alloc: Global) -> Result<Command<'a>, AllocError> {
    let blocks = "how many blocks of 512 bytes, 32 to 1048576, or a size as 64K, 16M";
    reader(
        alloc,
        "xnfs format",
        "make a file that is a disk with an empty volume",
    )
    .after_help("Example: xnfs format disk.img 16M")
    .arg(wanted(alloc, "IMAGE", "the file to make"))?
    .arg(wanted(alloc, "BLOCKS", blocks))?
    .arg(file_system(alloc))
}

/// The reader of any other line, but for its commands.
fn options_reader<'a>(alloc: Global) -> Result<Command<'a>, AllocError> {
    let image = wanted(
        alloc,
        "IMAGE",
        "a file that `xnfs format` made, changed in place",
    );
    reader(alloc, "xnfs", ABOUT)
        .after_help(EXAMPLES)
        .version("0.2")
        .arg(image)?
        .arg(file_system(alloc))?
        .arg(stop(alloc))?
        .arg(no_sync(alloc))
}

/// The reader of any other line.
pub fn disk_reader<'a>(alloc: Global) -> Result<Command<'a>, AllocError> {
    options_reader(alloc)?
        .subcommand_required(true)
        .subcommands(commands(alloc, Place::Line)?)
}

/// The reader of the lines of a shell.
pub fn shell_reader<'a>(alloc: Global) -> Result<Command<'a>, AllocError> {
    reader(alloc, "xnfs shell", "The commands of a shell, a line each")
        .subcommand_required(true)
        .subcommands(commands(alloc, Place::Shell)?)
}
