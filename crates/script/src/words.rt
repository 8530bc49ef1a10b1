// The words of a line are read.

ghost use Rattle.std.specs.Prelude.{◌≡◌, ◌≢◌, ◌<◌, ◌==◌, ℕ, List, IfOk, OnOk, IfSome, IfNone, IsSome, [], ◌∷◌, codes, map, option_copied};
ghost use Rattle.std.specs.Fmt.{decimal};
ghost use Rattle.xn_state.specs.declared.event.Event.{Event};
ghost use Rattle.xn_state.specs.declared.call.Call.{Call};
ghost use Rattle.script.specs.Events.{Spells, SpellNothing, IsNoWrite};
ghost use Rattle.script.specs.Told.{SpellsEvent};
ghost use Rattle.script.specs.Scripts.{words_in, line_words};

use crate::hex::parse_start;
use crate::told::LineEvent;
use crate::{parse_edit, parse_numbers, parse_u32};
use edit_list::Edit;
use std::alloc::{AllocError, Global};
use std::mem;
use xn_state::Fs;

/// The file system that a word names.
fn parse_fs(word: &str) -> Option<Fs>
    ensures spelled { IfSome result (λ fs. word.now ≡ decimal fs.number) }
    ensures readable { (n : ℕ) → n < 32 → word.now ≡ decimal n → IsSome result }
{
    let number = u8::try_from(parse_u32(word)?).ok()?;
    Fs::new(number)
}

/// The event of the words `init`, these two and the words behind them.
fn parse_init(
    alloc: Global,
    fs: &str,
    ty: &str,
    words: &[&str],
) -> Result<Option<LineEvent>, AllocError>
    ensures some { IfOk result (λ read. IfSome read (SpellsEvent (codes "init" ∷ fs.now ∷ ty.now ∷ map (λ word. word.now) words.now))) }
    ensures none { IfOk result (λ read. IfNone read (SpellNothing (codes "init" ∷ fs.now ∷ ty.now ∷ map (λ word. word.now) words.now))) }
{
    let [bytes] = words else {
        return Ok(None);
    };
    let (Some(fs), Some(ty)) = (parse_fs(fs), parse_u32(ty)) else {
        return Ok(None);
    };
    match parse_start(alloc, bytes)? {
        Some(bytes) => Ok(Some(LineEvent::Init(fs, ty, bytes))),
        None => Ok(None),
    }
}

/// An edit of a block as a line tells it.
fn tell_edit(alloc: Global, fs: Fs, block: u32, mut edit: Edit) -> Result<LineEvent, AllocError>
    ensures { IfOk result (λ told. (words : List (List ℕ)) → Spells words (Event.Call fs (Call.Propose block edit)) → SpellsEvent words told) }
{
    if edit.adds.is_empty() && edit.drops.is_empty() && edit.after.is_none() {
        let patches = mem::replace(&mut edit.patches, Vec::new(alloc));
        return Ok(LineEvent::Patches(fs, block, patches));
    }
    Ok(LineEvent::Edit(fs, block, Box::new(alloc, edit)?))
}

/// The event of the words `edit`, these two and the words behind them.
fn parse_edit_event(
    alloc: Global,
    fs: &str,
    block: &str,
    words: &[&str],
) -> Result<Option<LineEvent>, AllocError>
    ensures some { IfOk result (λ read. IfSome read (SpellsEvent (codes "edit" ∷ fs.now ∷ block.now ∷ map (λ word. word.now) words.now))) }
    ensures none { IfOk result (λ read. IfNone read (SpellNothing (codes "edit" ∷ fs.now ∷ block.now ∷ map (λ word. word.now) words.now))) }
{
    let (Some(fs), Some(block)) = (parse_fs(fs), parse_u32(block)) else {
        return Ok(None);
    };
    let Some(edit) = parse_edit(alloc, words)? else {
        return Ok(None);
    };
    Ok(Some(tell_edit(alloc, fs, block, edit)?))
}

/// The event of a name and two words behind it, a file system and a block.
fn parse_place(name: &str, fs: &str, block: &str) -> Option<LineEvent>
    ensures some { IfSome result (SpellsEvent (name.now ∷ fs.now ∷ block.now ∷ [])) }
    ensures none { IfNone result (name.now ≢ codes "edit" → name.now ≢ codes "fail" → name.now ≢ codes "crash" →
        SpellNothing (name.now ∷ fs.now ∷ block.now ∷ [])) }
{
    let fs = parse_fs(fs)?;
    let block = parse_u32(block)?;
    match name {
        "root" => Some(LineEvent::MakeRoot(fs, block)),
        "forget" => Some(LineEvent::Forget(fs, block)),
        "read" => Some(LineEvent::Read(fs, block)),
        _ => None,
    }
}

/// The event of the word `fail` and two words behind it, a block and which bytes stay.
fn parse_fail(block: &str, bytes: &str) -> Option<LineEvent>
    ensures some { IfSome result (SpellsEvent (codes "fail" ∷ block.now ∷ bytes.now ∷ [])) }
    ensures none { IfNone result (SpellNothing (codes "fail" ∷ block.now ∷ bytes.now ∷ [])) }
{
    let block = parse_u32(block)?;
    match bytes {
        "old" => Some(LineEvent::Fail(block, false)),
        "new" => Some(LineEvent::Fail(block, true)),
        _ => None,
    }
}

/// The event of a name and two words behind it.
fn parse_triple(name: &str, first: &str, second: &str) -> Option<LineEvent>
    ensures some { IfSome result (SpellsEvent (name.now ∷ first.now ∷ second.now ∷ [])) }
    ensures none { IfNone result (name.now ≢ codes "edit" → name.now ≢ codes "crash" → SpellNothing (name.now ∷ first.now ∷ second.now ∷ [])) }
{
    if name == "fail" {
        parse_fail(first, second)
    } else {
        parse_place(name, first, second)
    }
}

/// The event of a name and one word behind it, a file system.
fn parse_system(name: &str, word: &str) -> Option<LineEvent>
    ensures some { IfSome result (SpellsEvent (name.now ∷ word.now ∷ [])) }
    ensures none { IfNone result (IsNoWrite name.now → name.now ≢ codes "install" → name.now ≢ codes "crash" → SpellNothing (name.now ∷ word.now ∷ [])) }
{
    let fs = parse_fs(word)?;
    match name {
        "unroot" => Some(LineEvent::DropRoot(fs)),
        "floor" => Some(LineEvent::Floor(fs)),
        "pending" => Some(LineEvent::Pending(fs)),
        _ => None,
    }
}

/// The event of the word `install` and the word behind it, a template's bytes.
fn parse_install(alloc: Global, word: &str) -> Result<Option<LineEvent>, AllocError>
    ensures some { IfOk result (λ read. IfSome read (SpellsEvent (codes "install" ∷ word.now ∷ []))) }
    ensures none { IfOk result (λ read. IfNone read (SpellNothing (codes "install" ∷ word.now ∷ []))) }
{
    if word == "-" {
        return Ok(None);
    }
    match parse_start(alloc, word)? {
        Some(bytes) => Ok(Some(LineEvent::Install(bytes))),
        None => Ok(None),
    }
}

/// The event of a name and one word behind it, where that is no template.
fn parse_short(name: &str, word: &str) -> Option<LineEvent>
    ensures some { IfSome result (SpellsEvent (name.now ∷ word.now ∷ [])) }
    ensures none { IfNone result (name.now ≢ codes "install" → name.now ≢ codes "crash" → SpellNothing (name.now ∷ word.now ∷ [])) }
{
    match name {
        "begin" => Some(LineEvent::Begin(parse_u32(word)?)),
        "land" => Some(LineEvent::Land(parse_u32(word)?)),
        "sync" => Some(LineEvent::Sync(parse_u32(word)?)),
        "failsync" => Some(LineEvent::FailSync(parse_u32(word)?)),
        "finish" => Some(LineEvent::Finish(parse_u32(word)?)),
        _ => parse_system(name, word),
    }
}

/// The event of a name alone, a call of file system 0.
fn parse_name(name: &str) -> Option<LineEvent>
    ensures some { IfSome result (SpellsEvent (name.now ∷ [])) }
    ensures none { IfNone result (name.now ≢ codes "crash" → SpellNothing (name.now ∷ [])) }
{
    let Some(fs) = Fs::new(0) else { unreachable!() };
    match name {
        "pick" => Some(LineEvent::Pick(fs)),
        "drain" => Some(LineEvent::Drain(fs)),
        _ => None,
    }
}

/// The event of a name, two words behind it and the words behind those.
fn parse_long(
    alloc: Global,
    name: &str,
    first: &str,
    second: &str,
    rest: &[&str],
) -> Result<Option<LineEvent>, AllocError>
    ensures some { IfOk result (λ read. IfSome read (SpellsEvent (name.now ∷ first.now ∷ second.now ∷ map (λ word. word.now) rest.now))) }
    ensures none { IfOk result (λ read. IfNone read
        (name.now ≢ codes "crash" → SpellNothing (name.now ∷ first.now ∷ second.now ∷ map (λ word. word.now) rest.now))) }
{
    match name {
        "init" => parse_init(alloc, first, second, rest),
        "edit" => parse_edit_event(alloc, first, second, rest),
        _ if rest.is_empty() => Ok(parse_triple(name, first, second)),
        _ => Ok(None),
    }
}

/// The event of the word `crash` and the words behind it, blocks.
fn parse_crash(alloc: Global, words: &[&str]) -> Result<Option<LineEvent>, AllocError>
    ensures some { IfOk result (λ read. IfSome read (SpellsEvent (codes "crash" ∷ map (λ word. word.now) words.now))) }
    ensures none { IfOk result (λ read. IfNone read (SpellNothing (codes "crash" ∷ map (λ word. word.now) words.now))) }
{
    match parse_numbers(alloc, words)? {
        Some(kept) => Ok(Some(LineEvent::Crash(kept))),
        None => Ok(None),
    }
}

/// The first word of a text, and what stands behind the space after it, where there is one.
fn first_word(text: &str) -> (&str, Option<&str>)
    ensures { line_words text.now ≡ result.0.now ∷ words_in (option_copied result.1) }
{
    match text.split_once(' ') {
        Some((word, rest)) => (word, Some(rest)),
        None => (text, None),
    }
}

/// Leaves the words of a text in `words`, or none where there is no text.
fn cut_words<'a>(text: Option<&'a str>, words: &mut Vec<&'a str>) -> Result<(), AllocError>
    ensures { OnOk result (map (λ word. word.now) words.new.items ≡ words_in (option_copied text.entry)) }
{
    words.clear();
    let mut rest = text;
    while let Some(text) = rest {
        let (word, behind) = first_word(text);
        words.push(word)?;
        rest = behind;
    }
    Ok(())
}

/// The event of a name and what stands behind it, where that is no crash.
fn read_words<'a>(
    alloc: Global,
    words: &mut Vec<&'a str>,
    name: &str,
    rest: Option<&'a str>,
) -> Result<Option<LineEvent>, AllocError>
    ensures some { IfOk result (λ read. IfSome read (SpellsEvent (name.now ∷ words_in (option_copied rest.entry)))) }
    ensures none { IfOk result (λ read. IfNone read (name.now ≢ codes "crash" → SpellNothing (name.now ∷ words_in (option_copied rest.entry)))) }
{
    let Some(rest) = rest else {
        return Ok(parse_name(name));
    };
    let (first, rest) = first_word(rest);
    let Some(rest) = rest else {
        return match name {
            "install" => parse_install(alloc, first),
            _ => Ok(parse_short(name, first)),
        };
    };
    let (second, rest) = first_word(rest);
    cut_words(rest, words)?;
    parse_long(alloc, name, first, second, words.as_slice())
}

/// The event of a line as it tells it, or `None` where it tells none. Crashes come last, as few lines are such.
pub fn read_line<'a>(
    alloc: Global,
    words: &mut Vec<&'a str>,
    line: &'a str,
) -> Result<Option<LineEvent>, AllocError>
    ensures some { IfOk result (λ read. IfSome read (SpellsEvent (line_words line.now))) }
    ensures none { IfOk result (λ read. IfNone read (SpellNothing (line_words line.now))) }
{
    let (name, rest) = first_word(line);
    match read_words(alloc, words, name, rest)? {
        None if name == "crash" => {
            cut_words(rest, words)?;
            parse_crash(alloc, words.as_slice())
        }
        told => Ok(told),
    }
}
