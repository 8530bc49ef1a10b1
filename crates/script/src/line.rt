// A line of a script, with the event that it spells.

ghost use Rattle.std.specs.Prelude.{◌≡◌, IfNone, IfOk, IfSome};
ghost use Rattle.xn_state.specs.declared.event.Event.{Event};
ghost use Rattle.script.specs.Hex.{block_with};
ghost use Rattle.script.specs.Events.{SpellNothing};
ghost use Rattle.script.specs.Scripts.{LineSpells, SpellsSome, line_words};
ghost use Rattle.script.specs.Told.{only_patches, told_event};

use crate::hex::block_with;
use crate::told::LineEvent;
use crate::words::read_line;
use edit_list::{Edit, Patch};
use std::alloc::{AllocError, Global};
use std::marker::Model;
use xn_state::{Call, Event, Fs};

/// A line of a script that spells an event, which was read from it. Clauses see the line's text.
pub struct ScriptLine<'a> {
    text: &'a str,
    told: LineEvent,
}

impl<'a> Model for ScriptLine<'a> {
    ghost use Rattle.std.specs.Prelude.{List, ℕ};
    ghost use Rattle.script.specs.Scripts.{line_words};
    ghost use Rattle.script.specs.Told.{SpellsEvent};

    ghost Value = { List ℕ };

    ghost view = { λ line. line.text.now };

    ghost invariant = { λ line. SpellsEvent (line_words line.text.now) line.told };
}

/// Written by hand, so that a function that drops one calls this: a derived drop is proved anew in each such function.
impl<'a> Drop for ScriptLine<'a> {
    fn drop(self) {
        let ScriptLine { text: _, told: _ } = self;
    }
}

/// Leaves the event of the word `init` in `event`. It is not inlined, so that no other line clears the room of a block for it.
#[inline(never)]
fn put_init(fs: Fs, ty: u32, bytes: Vec<u8>, event: &mut Event)
    ensures { event.new ≡ Event.Call fs (Call.Init ty (block_with bytes.items)) }
{
    let bytes = block_with(&bytes);
    *event = Event::Call(fs, Call::Init { ty, bytes });
}

/// Leaves the event of the word `edit` in `event`. It is not inlined either.
#[inline(never)]
fn put_edit(fs: Fs, block: u32, edit: Box<Edit>, event: &mut Event)
    ensures { event.new ≡ Event.Call fs (Call.Propose block edit.value) }
{
    let edit = Box::into_inner(edit);
    *event = Event::Call(fs, Call::Propose { block, edit });
}

/// Leaves the event of the word `edit` with patches alone behind it in `event`. It is not inlined either.
#[inline(never)]
fn put_patches(fs: Fs, block: u32, patches: Vec<Patch>, event: &mut Event)
    ensures { event.new ≡ Event.Call fs (Call.Propose block (only_patches patches.items)) }
{
    let alloc = *patches.allocator();
    let edit = Edit {
        patches,
        adds: Vec::new(alloc),
        drops: Vec::new(alloc),
        after: None,
    };
    *event = Event::Call(fs, Call::Propose { block, edit });
}

/// Leaves the event of the word `install` in `event`. It is not inlined either.
#[inline(never)]
fn put_install(bytes: Vec<u8>, event: &mut Event)
    ensures { event.new ≡ Event.Install (block_with bytes.items) }
{
    *event = Event::Install(block_with(&bytes));
}

/// Leaves the event that a line tells in `event`. That holds a `Begin` until then, as nothing is to be dropped here: each of these assignments would
/// clear room for an edit to drop. It is not inlined, so that its room is not cleared once more where it is called.
#[inline(never)]
fn put_told(told: LineEvent, event: &mut Event)
    requires { event.old ≡ Event.Begin 0 }
    ensures { event.new ≡ told_event told }
{
    let Event::Begin(_) = event else {
        unreachable!()
    };
    match told {
        LineEvent::Init(fs, ty, bytes) => put_init(fs, ty, bytes, event),
        LineEvent::Patches(fs, block, patches) => put_patches(fs, block, patches, event),
        LineEvent::Edit(fs, block, edit) => put_edit(fs, block, edit, event),
        LineEvent::MakeRoot(fs, block) => *event = Event::Call(fs, Call::MakeRoot { block }),
        LineEvent::DropRoot(fs) => *event = Event::Call(fs, Call::DropRoot),
        LineEvent::Forget(fs, block) => *event = Event::Call(fs, Call::Forget { block }),
        LineEvent::Read(fs, block) => *event = Event::Call(fs, Call::Read { block }),
        LineEvent::Pending(fs) => *event = Event::Call(fs, Call::Pending),
        LineEvent::Floor(fs) => *event = Event::Call(fs, Call::Floor),
        LineEvent::Pick(fs) => *event = Event::Call(fs, Call::Pick),
        LineEvent::Drain(fs) => *event = Event::Call(fs, Call::Drain),
        LineEvent::Install(bytes) => put_install(bytes, event),
        LineEvent::Begin(block) => *event = Event::Begin(block),
        LineEvent::Land(block) => *event = Event::Land(block),
        LineEvent::Fail(block, new_bytes_stay) => *event = Event::Fail(block, new_bytes_stay),
        LineEvent::Sync(block) => *event = Event::Sync(block),
        LineEvent::FailSync(block) => *event = Event::FailSync(block),
        LineEvent::Finish(block) => *event = Event::Finish(block),
        LineEvent::Crash(kept) => *event = Event::Crash(kept),
    }
}

impl<'a> ScriptLine<'a> {
    /// Reads a line. `None` is for one that spells no event. `words` is room for the line's words, which is used again for the next line.
    pub fn read(
        alloc: Global,
        words: &mut Vec<&'a str>,
        text: &'a str,
    ) -> Result<Option<ScriptLine<'a>>, AllocError>
        ensures some { IfOk result (λ read. IfSome read (λ line. (line ≡ text.now) × SpellsSome text.now)) }
        ensures none { IfOk result (λ read. IfNone read (SpellNothing (line_words text.now))) }
    {
        match read_line(alloc, words, text)? {
            Some(told) => Ok(Some(ScriptLine { text, told })),
            None => Ok(None),
        }
    }

    /// Leaves the event that the line spells in `event`, which holds `Begin(0)` until then. An event has room for a block, and this one is not copied.
    #[inline(always)]
    pub fn event_into(self, event: &mut Event)
        requires { event.old ≡ Event.Begin 0 }
        ensures { LineSpells self.entry event.new }
    {
        let ScriptLine { text: _, told } = self;
        put_told(told, event);
    }
}
