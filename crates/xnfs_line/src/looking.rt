// Words that only look.

ghost use Rattle.std.specs.Prelude.{◌≡◌};
ghost use Rattle.xnfs_line.specs.Words.{only_looks};

use host_trees::Host;
use std::alloc::Global;
use std::io::Write;
use tree_gets::{Getting, get};
use tree_lines::{Fault, Told, View};
use tree_looks::{
    Listing, Measuring, Sought, UsageForm, cat, list, measure, read_link, search, stat, tree, usage,
};
use treefs_format::Kind;
use xnfs_words::{FoundKind, ListForm, Word};

/// Whether a word changes no disk, so that one is opened for it without rights to write.
pub fn is_looking(word: &Word) -> bool
    ensures { result ≡ only_looks word.now }
{
    matches!(
        word,
        Word::List { .. }
            | Word::Tree { .. }
            | Word::Cat { .. }
            | Word::Stat { .. }
            | Word::ReadLink { .. }
            | Word::Find { .. }
            | Word::DiskUsage { .. }
            | Word::FreeSpace { .. }
            | Word::Get { .. }
            | Word::Check {
                is_repairing: false,
                ..
            }
    )
}

/// How a folder is listed.
fn listing_of(form: ListForm) -> Listing {
    Listing {
        is_long: form.is_long,
        has_hidden: form.has_hidden,
        is_recursive: form.is_recursive,
        is_human: form.is_human,
        is_json: form.is_json,
    }
}

/// How free space is told.
fn usage_form(is_json: bool, is_human: bool) -> UsageForm {
    if is_json {
        UsageForm::Json
    } else if is_human {
        UsageForm::Human
    } else {
        UsageForm::Blocks
    }
}

/// The kind of node that is looked for.
fn kind_of(kind: FoundKind) -> Kind {
    match kind {
        FoundKind::File => Kind::File,
        FoundKind::Folder => Kind::Directory,
        FoundKind::SymbolicLink => Kind::SymbolicLink,
    }
}

/// What words look at: the folder from which relative paths begin, and whether the volume has permissions, owners and times.
#[derive(Clone, Copy, Debug)]
pub struct Looked {
    pub folder: u32,
    pub has_attributes: bool,
}

/// Does what a word asks for that only looks; nothing for any other.
pub fn look<V: View, H: Host>(
    host: &H,
    view: &V,
    alloc: Global,
    told: &mut Told,
    (word, looked): (&Word, Looked),
    out: &mut impl Write,
) -> Result<(), Fault> {
    let folder = looked.folder;
    match word {
        Word::List { paths, form } => {
            list(view, alloc, told, (folder, paths), listing_of(*form), out)
        }
        Word::Tree { path } => tree(view, alloc, told, (folder, path), out),
        Word::Cat { paths } => cat(view, alloc, told, (folder, paths), out),
        Word::Stat { paths, is_json } => stat(view, alloc, told, (folder, paths), *is_json, out),
        Word::ReadLink { paths } => read_links(view, alloc, told, (folder, paths), out),
        Word::Find { paths, name, kind } => {
            let sought = Sought {
                name: *name,
                kind: kind.map(kind_of),
            };
            search(view, alloc, told, (folder, paths), sought, out)
        }
        Word::DiskUsage {
            paths,
            is_summary,
            is_human,
        } => {
            let how = Measuring {
                is_summary: *is_summary,
                is_human: *is_human,
            };
            measure(view, alloc, told, (folder, paths), how, out)
        }
        Word::FreeSpace { is_json, is_human } => {
            usage(view, alloc, usage_form(*is_json, *is_human), out)
        }
        Word::Get { paths, target } => {
            let getting = Getting {
                folder,
                paths,
                target,
                keeps_attributes: looked.has_attributes,
            };
            get(view, alloc, told, host, getting, out)
        }
        _ => Ok(()),
    }
}

/// `readlink`: what symbolic links lead to.
fn read_links<V: View>(
    view: &V,
    alloc: Global,
    told: &mut Told,
    (folder, paths): (u32, &[&str]),
    out: &mut impl Write,
) -> Result<(), Fault> {
    for path in paths {
        let done = read_link(view, alloc, (folder, path), out);
        told.go_on(done)?;
    }
    Ok(())
}
