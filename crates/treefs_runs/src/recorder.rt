// A store that notes each call by which it changes, as a line of a transcript with its answer.

ghost use Rattle.std.specs.Prelude.{◌≡◌};

use crate::text::{Text, without_end};
use edit_list::{Edit, EditId, Fs};
use std::alloc::Global;
use std::marker::Model;
use store_types::{BLOCK_LEN, Refusal};
use xn_state::{State, Store};

/// A store, and the lines of the calls that changed it since they were last taken.
pub struct Recorder<S> {
    pub store: S,
    lines: Text,
    /// Whether nothing is noted.
    is_quiet: bool,
}

impl<S> Model for Recorder<S> {
    ghost Value = { S };

    ghost view = { λ a. a.store };
}

impl<S: Drop> Drop for Recorder<S> {
    fn drop(self) {
        let Recorder {
            store: _,
            lines: _,
            is_quiet: _,
        } = self;
    }
}

impl<S> Recorder<S> {
    /// The store, of which nothing is noted yet.
    pub fn new(alloc: Global, store: S) -> Recorder<S>
        ensures { result ≡ store }
    {
        Recorder {
            store,
            lines: Text::new(alloc),
            is_quiet: false,
        }
    }

    /// Notes nothing any more.
    pub fn be_quiet(&mut self)
        ensures { self.new ≡ self.old }
    {
        self.is_quiet = true;
    }

    /// Notes a part of a line.
    pub fn note(&mut self, part: &str)
        ensures { self.new ≡ self.old }
    {
        if !self.is_quiet {
            self.lines.put(part);
        }
    }

    /// Notes a part of a line, and a number behind it.
    pub fn note_number(&mut self, part: &str, number: u32)
        ensures { self.new ≡ self.old }
    {
        if !self.is_quiet {
            self.lines.number(part, number);
        }
    }

    /// Notes bytes.
    pub fn note_bytes(&mut self, bytes: &[u8])
        ensures { self.new ≡ self.old }
    {
        if !self.is_quiet {
            self.lines.bytes(bytes);
        }
    }

    /// Takes what was noted.
    pub fn take_lines(&mut self, alloc: Global) -> Text
        ensures { self.new ≡ self.old }
    {
        self.lines.take(alloc)
    }
}

impl Text {
    /// How a call ended: the number that it answered, or the refusal.
    fn end_line(&mut self, answer: &Result<EditId, Refusal>) {
        match answer {
            Ok(edit) => self.size(" > edit ", edit.number()),
            Err(refusal) => self.refused(*refusal),
        }
        self.put("\n");
    }

    /// That a call was refused.
    fn refused(&mut self, refusal: Refusal) {
        self.put(" > refused ");
        self.refusal(refusal);
    }

    /// The line of a block that is begun.
    fn init_line(
        &mut self,
        fs: Fs,
        ty: u32,
        bytes: &[u8; BLOCK_LEN],
        answer: &Result<(u32, EditId), Refusal>,
    ) {
        self.number("  init ", u32::from(fs.number()));
        self.number(" ", ty);
        self.put(" ");
        self.bytes(without_end(bytes));
        match answer {
            Ok((block, edit)) => {
                self.number(" > block ", *block);
                self.size(" edit ", edit.number());
            }
            Err(refusal) => self.refused(*refusal),
        }
        self.put("\n");
    }

    /// The line of an edit.
    fn edit_line(&mut self, fs: Fs, block: u32, edit: &Edit, answer: &Result<EditId, Refusal>) {
        self.number("  edit ", u32::from(fs.number()));
        self.number(" ", block);
        if let Some(after) = edit.after() {
            self.size(" @", after.number());
        }
        for patch in edit.patches.iter() {
            self.number(" ", u32::from(patch.offset));
            self.put("=");
            self.bytes(&patch.bytes);
        }
        for (added, ty) in edit.adds() {
            self.number(" +", *added);
            self.number(":", *ty);
        }
        for dropped in edit.drops() {
            self.number(" -", *dropped);
        }
        self.end_line(answer);
    }

    /// The line of a block that becomes the root.
    fn root_line(&mut self, fs: Fs, block: u32, answer: &Result<EditId, Refusal>) {
        self.number("  root ", u32::from(fs.number()));
        self.number(" ", block);
        self.end_line(answer);
    }

    /// The line of a block that is forgotten.
    fn forget_line(&mut self, fs: Fs, block: u32, answer: Result<(), Refusal>) {
        self.number("  forget ", u32::from(fs.number()));
        self.number(" ", block);
        match answer {
            Ok(()) => self.put(" > ok"),
            Err(refusal) => self.refused(refusal),
        }
        self.put("\n");
    }
}

impl<S: Store> Store for Recorder<S> {
    ghost types_of = { S.types_of };

    ghost state_of = { S.state_of };

    ghost with_state = { S.with_state };

    fn init(&mut self, fs: Fs, ty: u32, bytes: &[u8; BLOCK_LEN]) -> Result<(u32, EditId), Refusal> {
        let made = self.store.init(fs, ty, bytes);
        if !self.is_quiet {
            self.lines.init_line(fs, ty, bytes, &made);
        }
        made
    }

    fn propose(&mut self, fs: Fs, block: u32, edit: &Edit) -> Result<EditId, Refusal> {
        let made = self.store.propose(fs, block, edit);
        if !self.is_quiet {
            self.lines.edit_line(fs, block, edit, &made);
        }
        made
    }

    fn make_root(&mut self, fs: Fs, block: u32) -> Result<EditId, Refusal> {
        let made = self.store.make_root(fs, block);
        if !self.is_quiet {
            self.lines.root_line(fs, block, &made);
        }
        made
    }

    fn forget(&mut self, fs: Fs, block: u32) -> Result<(), Refusal> {
        let done = self.store.forget(fs, block);
        if !self.is_quiet {
            self.lines.forget_line(fs, block, done);
        }
        done
    }

    fn state(&self) -> &State {
        self.store.state()
    }
}
