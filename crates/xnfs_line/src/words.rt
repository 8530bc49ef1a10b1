// A word on an open volume of trees.

ghost use Rattle.std.specs.Prelude.{◌≡◌};
ghost use Rattle.xnfs_line.specs.Words.{RunsWord};

use crate::changing::{Sources, change};
use crate::looking::{Looked, is_looking, look};
use flush_store::FlushStore;
use host_trees::Host;
use std::alloc::Global;
use std::io::{Read, Write};
use tree_lines::{Fault, Opened, Session, Told};
use tree_looks::check;
use xnfs_words::Word;

/// Does what a word asks for that only looks, `check` among them, where relative paths begin at a folder.
pub fn look_at<H: Host, S: FlushStore + Drop>(
    host: &H,
    session: &Session<S>,
    alloc: Global,
    told: &mut Told,
    (word, folder): (&Word, u32),
    out: &mut impl Write,
) -> Result<(), Fault> {
    if let Word::Check { is_json, .. } = word {
        return check(alloc, session.store(), session.volume().tree, *is_json, out);
    }
    let looked = Looked {
        folder,
        has_attributes: true,
    };
    look(host, session, alloc, told, (word, looked), out)
}

/// Does what a word asks for on an open volume. What it changed is pending then. What a crash left was mended when the volume was opened, so that `check` has
/// no more to mend.
pub fn run_word<H: Host, S: FlushStore + Drop>(
    host: &H,
    opened: &mut Opened<S>,
    alloc: Global,
    asked: (&Word, Sources),
    input: &mut impl Read,
    out: &mut impl Write,
) -> Result<(), Fault>
    ensures types { S.types_of opened.new.session.store ≡ S.types_of opened.old.session.store }
    ensures folder { opened.new.folder ≡ opened.old.folder }
    ensures does { RunsWord (S.types_of opened.old.session.store) opened.old.folder asked.entry.0.now
        opened.old.told opened.new.told (S.state_of opened.old.session.store) (S.state_of opened.new.session.store)
        opened.old.session.volume opened.new.session.volume result }
{
    let (word, sources) = asked;
    if is_looking(word) || matches!(word, Word::Check { .. }) {
        let looked = (word, opened.folder);
        return look_at(host, &opened.session, alloc, &mut opened.told, looked, out);
    }
    change(host, opened, alloc, (word, sources), input)
}
