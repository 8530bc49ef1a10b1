// Words that change a volume.

ghost use Rattle.std.specs.Prelude.{◌≡◌, map, option_copied};
ghost use Rattle.xnfs_line.specs.Words.{ModesDo, NamesDo, OwnersDo, TimesDo, WordDoes};

use flush_store::FlushStore;
use host_trees::Host;
use std::alloc::Global;
use std::io::Read;
use tree_changes::{
    Linking, Modes, Owners, Removing, Setting, copy, link, make_folders, read_date, remove,
    remove_folders, rename, set_attributes, touch, truncate,
};
use tree_lines::{Fault, Opened, at_word};
use tree_puts::{Putting, put};
use xnfs_words::Word;

/// What a line brings in from.
#[derive(Clone, Copy, Debug)]
pub struct Sources<'d> {
    /// The file of the system that is the disk itself.
    pub disk: &'d str,
    /// Whether standard input has the lines of a shell.
    pub has_lines: bool,
}

/// What is wanted of the text of a mode.
const MODE: &str = "is no mode: wanted is one as 644, u+x or go-rwx,a=r";

/// What is wanted of the text of owners.
const OWNER: &str = "is no owner: wanted are numbers as 1000, 1000:100 or :100";

/// What is wanted of the text of a time.
const DATE: &str =
    "is no time: wanted is one as 2026-11-29, \"2026-11-29 14:30:00\" or seconds since 1970";

/// `chmod`: sets permissions, as a text says.
fn change_mode<S: FlushStore + Drop>(
    opened: &mut Opened<S>,
    alloc: Global,
    told: (&str, &[&str]),
    is_recursive: bool,
) -> Result<(), Fault>
    ensures types { S.types_of opened.new.session.store ≡ S.types_of opened.old.session.store }
    ensures folder { opened.new.folder ≡ opened.old.folder }
    ensures does { ModesDo (S.types_of opened.old.session.store) opened.old.folder told.entry.0.now (map (λ path. path.now) told.entry.1.now) is_recursive
        opened.old.told opened.new.told (S.state_of opened.old.session.store) (S.state_of opened.new.session.store)
        opened.old.session.volume opened.new.session.volume result }
{
    let (mode, paths) = told;
    match Modes::read(alloc, mode)? {
        Some(modes) => set_attributes(opened, alloc, paths, &Setting::Modes(modes), is_recursive),
        None => Err(at_word(alloc, mode, MODE)),
    }
}

/// `chown`: sets owners, as a text says.
fn change_owner<S: FlushStore + Drop>(
    opened: &mut Opened<S>,
    alloc: Global,
    told: (&str, &[&str]),
    is_recursive: bool,
) -> Result<(), Fault>
    ensures types { S.types_of opened.new.session.store ≡ S.types_of opened.old.session.store }
    ensures folder { opened.new.folder ≡ opened.old.folder }
    ensures does { OwnersDo (S.types_of opened.old.session.store) opened.old.folder told.entry.0.now (map (λ path. path.now) told.entry.1.now) is_recursive
        opened.old.told opened.new.told (S.state_of opened.old.session.store) (S.state_of opened.new.session.store)
        opened.old.session.volume opened.new.session.volume result }
{
    let (owner, paths) = told;
    match Owners::read(owner) {
        Some(owners) => {
            set_attributes(opened, alloc, paths, &Setting::Owners(owners), is_recursive)
        }
        None => Err(at_word(alloc, owner, OWNER)),
    }
}

/// `touch`: sets times to now, or as a text says.
fn set_times<S: FlushStore + Drop>(
    opened: &mut Opened<S>,
    alloc: Global,
    paths: &[&str],
    date: Option<&str>,
) -> Result<(), Fault>
    ensures types { S.types_of opened.new.session.store ≡ S.types_of opened.old.session.store }
    ensures folder { opened.new.folder ≡ opened.old.folder }
    ensures does { TimesDo (S.types_of opened.old.session.store) opened.old.folder (option_copied date.entry) (map (λ path. path.now) paths.now)
        opened.old.told opened.new.told (S.state_of opened.old.session.store) (S.state_of opened.new.session.store)
        opened.old.session.volume opened.new.session.volume result }
{
    let Some(date) = date else {
        return touch(opened, alloc, paths, None);
    };
    match read_date(date) {
        Some(time) => touch(opened, alloc, paths, Some(time)),
        None => Err(at_word(alloc, date, DATE)),
    }
}

/// Does what a word asks for that gives names or takes them, or brings files in; nothing for any other.
fn change_names<'a, H: Host, S: FlushStore + Drop>(
    host: &H,
    opened: &mut Opened<S>,
    alloc: Global,
    asked: (&'a Word<'a>, Sources<'a>),
    input: &mut impl Read,
) -> Result<(), Fault>
    ensures types { S.types_of opened.new.session.store ≡ S.types_of opened.old.session.store }
    ensures folder { opened.new.folder ≡ opened.old.folder }
    ensures does { NamesDo (S.types_of opened.old.session.store) opened.old.folder asked.entry.0.now
        opened.old.told opened.new.told (S.state_of opened.old.session.store) (S.state_of opened.new.session.store)
        opened.old.session.volume opened.new.session.volume result }
{
    let (word, sources) = asked;
    match word {
        Word::Put {
            sources: paths,
            path,
        } => {
            let putting = Putting {
                sources: paths,
                path,
                disk: Some(sources.disk),
                has_lines: sources.has_lines,
            };
            put(host, opened, alloc, putting, input)
        }
        Word::Copy {
            paths,
            to,
            is_recursive,
        } => copy(opened, alloc, paths, to, *is_recursive),
        Word::Move { paths, to } => rename(opened, alloc, paths, to),
        Word::Remove {
            paths,
            is_recursive,
            is_forced,
        } => {
            let how = Removing {
                is_recursive: *is_recursive,
                is_forced: *is_forced,
            };
            remove(opened, alloc, paths, how)
        }
        Word::MakeFolder {
            paths,
            with_parents,
        } => make_folders(opened, alloc, paths, *with_parents),
        Word::RemoveFolder { paths } => remove_folders(opened, alloc, paths),
        _ => Ok(()),
    }
}

/// Does what a word asks for that changes a volume; nothing for any other.
pub fn change<H: Host, S: FlushStore + Drop>(
    host: &H,
    opened: &mut Opened<S>,
    alloc: Global,
    asked: (&Word, Sources),
    input: &mut impl Read,
) -> Result<(), Fault>
    ensures types { S.types_of opened.new.session.store ≡ S.types_of opened.old.session.store }
    ensures folder { opened.new.folder ≡ opened.old.folder }
    ensures does { WordDoes (S.types_of opened.old.session.store) opened.old.folder asked.entry.0.now
        opened.old.told opened.new.told (S.state_of opened.old.session.store) (S.state_of opened.new.session.store)
        opened.old.session.volume opened.new.session.volume result }
{
    let (word, sources) = asked;
    match word {
        Word::Link {
            target,
            path,
            is_symbolic,
        } => {
            let linking = if *is_symbolic {
                Linking::Symbolic
            } else {
                Linking::Hard
            };
            link(opened, alloc, target, path, linking)
        }
        Word::ChangeMode {
            mode,
            paths,
            is_recursive,
        } => change_mode(opened, alloc, (mode, paths), *is_recursive),
        Word::ChangeOwner {
            owner,
            paths,
            is_recursive,
        } => change_owner(opened, alloc, (owner, paths), *is_recursive),
        Word::Touch { paths, date } => set_times(opened, alloc, paths, *date),
        Word::Truncate { paths, size } => truncate(opened, alloc, paths, *size),
        _ => change_names(host, opened, alloc, (word, sources), input),
    }
}
