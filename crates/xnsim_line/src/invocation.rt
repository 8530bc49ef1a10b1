ghost use Rattle.std.specs.Prelude.{◌≡◌, ◌≢◌, ◌<◌, ◌≤◌, ◌↔◌, ◌^◌, ℕ, List, [], ◌∷◌, ◌++◌, Bool, Option, Ok, Some, false, true, IfSome, IfNone, IfOk, IfErr};
ghost use Rattle.std.specs.Prelude.{IsSomeAnd, IsTrue, All, codes, length, map, string_bytes};
ghost use Rattle.std.specs.Fmt.{decimal};
ghost use Rattle.templates.specs.Formats.{most_formatted};
ghost use Rattle.clap.specs.Words.{app_of, kind_of, rule_of, takes, with_subcommand, HasMatchesOf};
ghost use Rattle.clap.specs.declared.builder.command.Command.TheViews.{out-Command as fields_of};
ghost use Rattle.udf_verify.specs.declared.Role.{Role};
ghost use Rattle.xnsim_line.specs.CommandLine.{no_commands, program, two_words, wanted};
ghost use Rattle.xnsim_line.specs.Lines.{CutsFileSystem, IsName, IsLine, IsNoLine, IsStopWords, IsTemplateWords, IsThreeWords};
ghost use Rattle.xnsim_line.specs.Lines.{role_name};

use clap::error::ErrorKind;
use clap::{Arg, ArgMatches, Command, Error};
use script::parse_number;
use std::alloc::{AllocError, Global};
use store_types::{MAX_FORMAT_BLOCKS, MIN_BLOCKS};
use udf_verify::Role;

/// Where a run ends that doesn't come to its script's end.
#[derive(Clone, Copy, Debug, PartialEq, Eq)]
pub struct Stop {
    /// It ends before the block write that comes after so many.
    pub writes: u64,
    /// Whether it then loses all bytes that are not settled.
    pub loses: bool,
}

/// What a command line asks for.
#[derive(Drop)]
pub enum Invocation<'a> {
    /// No words: the script on standard input is run on a fresh disk.
    Bare,
    /// A fresh image is written, with the templates of these files, behind those of the library's file system where it is
    /// asked for.
    Format {
        image: &'a str,
        blocks: u32,
        file_system: bool,
        templates: &'a [String],
    },
    /// A script is run on the image of a file, perhaps to a stop.
    Run {
        image: &'a str,
        script: &'a str,
        stop: Option<Stop>,
    },
    /// The image of a file is checked.
    Check {
        image: &'a str,
    },
    /// The programs of two text files are made into the template block of a third file.
    Asm {
        owns: &'a str,
        size: &'a str,
        block: &'a str,
    },
    /// The program of a text file is verified for a role.
    Verify {
        text: &'a str,
        role: Role,
    },
}

/// Why a command line isn't one.
#[derive(Clone, Copy, Debug, PartialEq, Eq)]
pub enum LineFault {
    Usage,
    NoMemory,
}

impl From<Error> for LineFault {
    ghost use Rattle.std.specs.Prelude.{◌≡◌};
    ghost use Rattle.clap.specs.Words.{kind_of};
    ghost use Rattle.xnsim_line.specs.Lines.{fault_of_kind};

    ghost from_gives = { λ error fault. fault ≡ fault_of_kind (kind_of error) };

    fn from(error: Error) -> LineFault {
        match error.kind() {
            ErrorKind::OutOfMemory => LineFault::NoMemory,
            _ => LineFault::Usage,
        }
    }
}

impl From<AllocError> for LineFault {
    ghost use Rattle.std.specs.Prelude.{◌≡◌};
    ghost use Rattle.xnsim_line.specs.declared.invocation.LineFault.TheVariants.{NoMemory};

    ghost from_gives = { λ _ fault. fault ≡ NoMemory };

    fn from(_error: AllocError) -> LineFault {
        LineFault::NoMemory
    }
}

/// What the reader calls the two words behind a command.
const FIRST: &str = "first";

const SECOND: &str = "second";

/// The word that asks for the templates of the library's file system.
const FILE_SYSTEM: &str = "--ffs";

/// The word that asks for a run to stop.
const STOP: &str = "--stop";

/// The word that asks for a stop to lose what is not settled.
const LOSE: &str = "--lose";

/// A word that has to be there.
fn wanted<'a>(alloc: Global, id: &'a str) -> Arg<'a>
    ensures rule { rule_of result ≡ wanted id.entry.now }
    ensures local { result.global ≡ false }
{
    Arg::new(alloc, id).required(true)
}

/// A command that is followed by two words.
fn two_words<'a>(alloc: Global, name: &'a str) -> Result<Command<'a>, AllocError>
    ensures shape { IfOk result (λ command. app_of command ≡ two_words name.entry.now) }
    ensures local { IfOk result (λ command. (fields_of command).has_globals ≡ false) }
{
    Command::new(alloc, name)
        .disable_help_flag(true)
        .arg(wanted(alloc, FIRST))?
        .arg(wanted(alloc, SECOND))
}

/// The reader of the command line with one more command, which is followed by two words.
fn with_command<'a>(
    alloc: Global,
    program: Command<'a>,
    name: &'a str,
) -> Result<Command<'a>, AllocError>
    ensures { IfOk result (λ more. app_of more ≡ with_subcommand (app_of program.entry) (two_words name.entry.now).top) }
{
    program.subcommand(two_words(alloc, name)?)
}

/// The reader of the command line without its commands.
fn no_commands<'a>(alloc: Global) -> Command<'a>
    ensures { app_of result ≡ no_commands }
{
    Command::new(alloc, "xnsim")
        .no_binary_name(true)
        .disable_help_flag(true)
        .disable_help_subcommand(true)
}

/// The reader of the command line.
fn program<'a>(alloc: Global) -> Result<Command<'a>, AllocError>
    ensures { IfOk result (λ command. app_of command ≡ program) }
{
    let format = with_command(alloc, no_commands(alloc), "format")?;
    let run = with_command(alloc, format, "run")?;
    let asm = with_command(alloc, run, "asm")?;
    with_command(alloc, asm, "verify")
}

/// What the reader finds in the words.
fn matches<'a>(alloc: Global, words: &'a [String]) -> Result<ArgMatches<'a>, Error>
    ensures found { IfOk result (HasMatchesOf program (map string_bytes words.entry.now)) }
    ensures refused { IfErr result (λ error. takes program (map string_bytes words.entry.now) ≡ true → kind_of error ≡ ErrorKind.OutOfMemory) }
{
    program(alloc)?.try_get_matches_from(words)
}

/// The command that was found and the two words behind it.
fn three_words<'a>(matches: &ArgMatches<'a>) -> Option<(&'a str, &'a str, &'a str)>
    ensures { (words : List (List ℕ)) → HasMatchesOf program words matches.now → IsThreeWords words
        → IsSomeAnd result (λ three. words ≡ three.0.now ∷ three.1.now ∷ three.2.now ∷ []) }
{
    let (name, behind) = matches.subcommand()?;
    Some((name, behind.get_str(FIRST)?, behind.get_str(SECOND)?))
}

/// The number of blocks that a word asks for.
fn parse_blocks(word: &str) -> Option<u32>
    ensures spelled { IfSome result (λ blocks. (word.now ≡ decimal blocks) × (32 ≤ blocks) × (blocks ≤ most_formatted)) }
    ensures readable { (blocks : ℕ) → 32 ≤ blocks → blocks ≤ most_formatted → word.now ≡ decimal blocks → result ≡ Some blocks }
{
    let blocks = parse_number(word, u64::from(MAX_FORMAT_BLOCKS))? as u32;
    if blocks < MIN_BLOCKS {
        return None;
    }
    Some(blocks)
}

/// Whether a word may be the name of a file: no option of a program is one.
fn is_name(word: &str) -> bool
    ensures { IsTrue result ↔ IsName word.now }
{
    word.as_bytes().first() != Some(&b'-')
}

/// Whether all these words may be names of files.
fn are_names(words: &[String]) -> bool
    ensures { IsTrue result ↔ All (λ word. IsName (string_bytes word)) words.now }
{
    words.iter().all(|word| is_name(word.as_str()))
}

/// Whether a word is this text.
fn is_word(word: &String, text: &str) -> bool
    ensures { IsTrue result ↔ (string_bytes word.now ≡ text.now) }
{
    word.as_str() == text
}

/// Whether the words of a line are these three.
fn are_words(words: &[String], first: &str, second: &str, third: &str) -> bool
    ensures { IsTrue result ↔ (map string_bytes words.now ≡ first.now ∷ second.now ∷ third.now ∷ []) }
{
    match words {
        [a, b, c] => is_word(a, first) && is_word(b, second) && is_word(c, third),
        _ => false,
    }
}

/// Whether the words of a line begin with that of the library's file system, and the words behind it.
fn cut_file_system<'a>(words: &'a [String]) -> (bool, &'a [String])
    ensures { CutsFileSystem (map string_bytes words.entry.now) result.0 (map string_bytes result.1.now) }
{
    match words {
        [first, rest @ ..] if is_word(first, FILE_SYSTEM) => (true, rest),
        _ => (false, words),
    }
}

/// What the words behind a count of blocks ask for: whether the templates of the library's file system come first, and the
/// names of files.
fn asked_templates<'a>(words: &'a [String]) -> Option<(bool, &'a [String])>
    ensures some { IfSome result (λ asked. IsTemplateWords (map string_bytes words.entry.now) asked.0 (map string_bytes asked.1.now)) }
    ensures none { IfNone result ((file_system : Bool) (names : List (List ℕ)) → ¬ IsTemplateWords (map string_bytes words.entry.now) file_system names) }
{
    let (file_system, names) = cut_file_system(words);
    if !are_names(names) {
        return None;
    }
    Some((file_system, names))
}

/// What `format` with these words asks for.
fn asked_format<'a>(image: &'a str, blocks: &str, rest: &'a [String]) -> Option<Invocation<'a>>
    ensures some { IfSome result (IsLine (codes "format" ∷ image.entry.now ∷ blocks.now ∷ map string_bytes rest.entry.now)) }
    ensures none { IfNone result (IsNoLine (codes "format" ∷ image.entry.now ∷ blocks.now ∷ map string_bytes rest.entry.now)) }
{
    if !is_name(image) {
        return None;
    }
    let blocks = parse_blocks(blocks)?;
    let (file_system, templates) = asked_templates(rest)?;
    Some(Invocation::Format {
        image,
        blocks,
        file_system,
        templates,
    })
}

/// The stop of a word and a count.
fn stop_of(word: &String, count: &String, loses: bool) -> Option<Stop>
    ensures some { IfSome result (λ stop. (string_bytes word.now ≡ codes "--stop") × (string_bytes count.now ≡ decimal stop.writes) × (stop.loses ≡ loses)) }
    ensures none { IfNone result ((n : ℕ) → n < 2 ^ 64 → string_bytes word.now ≡ codes "--stop" → string_bytes count.now ≢ decimal n) }
{
    if !is_word(word, STOP) {
        return None;
    }
    let writes = parse_number(count.as_str(), u64::MAX)?;
    Some(Stop { writes, loses })
}

/// Where the words behind a script ask for a run to stop, if they do.
fn asked_stop(words: &[String]) -> Option<Option<Stop>>
    ensures some { IfSome result (IsStopWords (map string_bytes words.now)) }
    ensures none { IfNone result ((stop : Option Stop) → ¬ IsStopWords (map string_bytes words.now) stop) }
{
    match words {
        [] => Some(None),
        [word, count] => Some(Some(stop_of(word, count, false)?)),
        [word, count, lose] => {
            if !is_word(lose, LOSE) {
                return None;
            }
            Some(Some(stop_of(word, count, true)?))
        }
        _ => None,
    }
}

/// What `run` with these words asks for.
fn asked_run<'a>(image: &'a str, script: &'a str, rest: &[String]) -> Option<Invocation<'a>>
    ensures some { IfSome result (IsLine (codes "run" ∷ image.entry.now ∷ script.entry.now ∷ map string_bytes rest.now)) }
    ensures none { IfNone result (IsNoLine (codes "run" ∷ image.entry.now ∷ script.entry.now ∷ map string_bytes rest.now)) }
{
    if !is_name(image) || !is_name(script) {
        return None;
    }
    let stop = asked_stop(rest)?;
    Some(Invocation::Run {
        image,
        script,
        stop,
    })
}

/// What a command with one word behind it asks for.
fn asked_check<'a>(name: &str, image: &'a str) -> Option<Invocation<'a>>
    ensures some { IfSome result (IsLine (name.now ∷ image.entry.now ∷ [])) }
    ensures none { IfNone result (IsNoLine (name.now ∷ image.entry.now ∷ [])) }
{
    if name != "check" || !is_name(image) {
        return None;
    }
    Some(Invocation::Check { image })
}

/// What `asm` with these words asks for.
fn asked_asm<'a>(owns: &'a str, size: &'a str, rest: &'a [String]) -> Option<Invocation<'a>>
    ensures some { IfSome result (IsLine (codes "asm" ∷ owns.entry.now ∷ size.entry.now ∷ map string_bytes rest.entry.now)) }
    ensures none { IfNone result (IsNoLine (codes "asm" ∷ owns.entry.now ∷ size.entry.now ∷ map string_bytes rest.entry.now)) }
{
    let [block] = rest else {
        return None;
    };
    let block = block.as_str();
    if !is_name(owns) || !is_name(size) || !is_name(block) {
        return None;
    }
    Some(Invocation::Asm { owns, size, block })
}

/// The role that a word names.
fn parse_role(word: &str) -> Option<Role>
    ensures some { IfSome result (λ role. word.now ≡ role_name role) }
    ensures none { IfNone result ((role : Role) → word.now ≢ role_name role) }
{
    match word {
        "owns" => Some(Role::Owns),
        "size" => Some(Role::Size),
        _ => None,
    }
}

/// What `verify` with these words asks for.
fn asked_verify<'a>(text: &'a str, role: &str, rest: &[String]) -> Option<Invocation<'a>>
    ensures some { IfSome result (IsLine (codes "verify" ∷ text.entry.now ∷ role.now ∷ map string_bytes rest.now)) }
    ensures none { IfNone result (IsNoLine (codes "verify" ∷ text.entry.now ∷ role.now ∷ map string_bytes rest.now)) }
{
    if !rest.is_empty() || !is_name(text) {
        return None;
    }
    let role = parse_role(role)?;
    Some(Invocation::Verify { text, role })
}

/// What a command with these words asks for.
fn asked<'a>(
    name: &str,
    first: &'a str,
    second: &'a str,
    rest: &'a [String],
) -> Option<Invocation<'a>>
    ensures some { IfSome result (IsLine (name.now ∷ first.entry.now ∷ second.entry.now ∷ map string_bytes rest.entry.now)) }
    ensures none { IfNone result (IsNoLine (name.now ∷ first.entry.now ∷ second.entry.now ∷ map string_bytes rest.entry.now)) }
{
    match name {
        "format" => asked_format(first, second, rest),
        "run" => asked_run(first, second, rest),
        "asm" => asked_asm(first, second, rest),
        "verify" => asked_verify(first, second, rest),
        _ => None,
    }
}

/// What a line asks for whose first three words have these matches. They have to be these words and no others.
fn line_of<'a>(
    start: &[String],
    rest: &'a [String],
    matches: &ArgMatches<'a>,
) -> Option<Invocation<'a>>
    requires found { HasMatchesOf program (map string_bytes start.now) matches.now }
    requires three { length start.now ≡ 3 }
    ensures some { IfSome result (IsLine (map string_bytes start.now ++ map string_bytes rest.entry.now)) }
    ensures none { IfNone result (IsNoLine (map string_bytes start.now ++ map string_bytes rest.entry.now)) }
{
    let (name, first, second) = three_words(matches)?;
    if !are_words(start, name, first, second) {
        return None;
    }
    asked(name, first, second, rest)
}

/// What a line of these words asks for, of which the first three are a command and what it always has.
fn read_words<'a>(
    alloc: Global,
    start: &'a [String],
    rest: &'a [String],
) -> Result<Invocation<'a>, LineFault>
    requires { length start.now ≡ 3 }
    ensures line { IfOk result (IsLine (map string_bytes start.entry.now ++ map string_bytes rest.entry.now)) }
    ensures usage { IfErr result (λ fault. fault ≡ LineFault.Usage → IsNoLine (map string_bytes start.entry.now ++ map string_bytes rest.entry.now)) }
{
    let matches = matches(alloc, start)?;
    line_of(start, rest, &matches).ok_or(LineFault::Usage)
}

/// Reads a command line: `format IMAGE BLOCKS [--ffs] [TEMPLATE]...`, `run IMAGE SCRIPT [--stop K [--lose]]`, `check IMAGE`,
/// `asm OWNS SIZE OUT`, `verify TEXT ROLE`, or no words. Every other line is `Usage`, also one that says the same in other words.
pub fn read<'a>(alloc: Global, words: &'a [String]) -> Result<Invocation<'a>, LineFault>
    ensures line { IfOk result (IsLine (map string_bytes words.now)) }
    ensures bare { words.now ≡ [] → result ≡ Ok Invocation.Bare }
    ensures usage { IfErr result (λ fault. fault ≡ LineFault.Usage → IsNoLine (map string_bytes words.now)) }
{
    if words.is_empty() {
        return Ok(Invocation::Bare);
    }
    if let [name, image] = words {
        return asked_check(name.as_str(), image.as_str()).ok_or(LineFault::Usage);
    }
    if words.len() < 3 {
        return Err(LineFault::Usage);
    }
    let (start, rest) = words.split_at(3);
    read_words(alloc, start, rest)
}
