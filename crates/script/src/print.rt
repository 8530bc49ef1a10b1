// Replies are printed.

ghost use Rattle.std.specs.Prelude.{◌≡◌, ◌+◌, ◌≤◌, [], ◌∷◌, ◌++◌, OnOk, codes, length};
ghost use Rattle.std.specs.Fmt.{decimal};
ghost use Rattle.std.specs.Io.KnownBytes.{Appends};
ghost use Rattle.arrayvec.specs.ArrayVec.{array_vec_len};
ghost use Rattle.store_types.specs.Refusals.{refusal_text};
ghost use Rattle.script.specs.Replies.{answer_text, block_text, edit_text, installed_text, reply_line, result_text};
ghost use Rattle.script.specs.Bytes.{bytes_text};

use crate::print_bytes;
use arrayvec::ArrayVec;
use itoa::Buffer;
use std::io;
use std::io::Write;
use store_types::{BLOCK_LEN, Refusal};
use xn_state::{Answer, EditId, Installed, Reply};

/// Adds a text and a number behind it to a line.
fn add_count(line: &mut ArrayVec<u8, 128>, text: &str, number: u64)
    requires { array_vec_len line.old + length text.now ≤ 100 }
    ensures items { line.new.items ≡ line.old.items ++ (text.now ++ decimal number) }
    ensures short { array_vec_len line.new ≤ array_vec_len line.old + length text.now + 20 }
{
    add_bytes(line, text.as_bytes());
    add_bytes(line, Buffer::new().format(number).as_bytes());
}

/// Adds bytes to a line.
fn add_bytes(line: &mut ArrayVec<u8, 128>, bytes: &[u8])
    requires { array_vec_len line.old + length bytes.now ≤ 128 }
    ensures items { line.new.items ≡ line.old.items ++ bytes.now }
    ensures long { array_vec_len line.new ≡ array_vec_len line.old + length bytes.now }
{
    let Ok(()) = line.try_extend_from_slice(bytes) else {
        unreachable!()
    };
}

/// Prints a line of a text and a number. It is not inlined, so that no other reply clears room for its line.
#[inline(never)]
fn print_count<W: Write>(out: &mut W, text: &str, number: u64) -> io::Result<()>
    requires { length text.now ≤ 16 }
    ensures { OnOk result (Appends (W.contents out.old) (W.contents out.new) (text.now ++ decimal number ++ 10 ∷ [])) }
{
    let mut line = ArrayVec::new();
    add_count(&mut line, text, number);
    line.push(b'\n');
    out.write_all(line.as_slice())
}

/// Prints a line of two texts, each with a number behind it. It is not inlined either.
#[inline(never)]
fn print_counts<W: Write>(
    out: &mut W,
    text: &str,
    number: u64,
    other_text: &str,
    other: u64,
) -> io::Result<()>
    requires short { length text.now ≤ 16 }
    requires other_short { length other_text.now ≤ 16 }
    ensures { OnOk result (Appends (W.contents out.old) (W.contents out.new)
        (text.now ++ decimal number ++ other_text.now ++ decimal other ++ 10 ∷ [])) }
{
    let mut line = ArrayVec::new();
    add_count(&mut line, text, number);
    add_count(&mut line, other_text, other);
    line.push(b'\n');
    out.write_all(line.as_slice())
}

/// Prints the line of a reply.
pub fn print_reply<W: Write>(out: &mut W, reply: &Reply) -> io::Result<()>
    ensures { OnOk result (Appends (W.contents out.old) (W.contents out.new) (reply_line reply.now)) }
{
    match reply {
        Reply::Answered(answer) => print_answer(out, answer),
        Reply::Installed(made) => print_installed(out, made),
        Reply::Begun { entries } => print_count(out, "begun ", u64::from(*entries)),
        Reply::Landed => out.write_all(b"landed\n"),
        Reply::Synced => out.write_all(b"synced\n"),
        Reply::Fault => out.write_all(b"fault\n"),
        Reply::Finished(landed) => print_counts(
            out,
            "durable ",
            u64::from(landed.durable),
            " freed ",
            u64::from(landed.freed),
        ),
        Reply::Mounted { reached, free } => print_counts(
            out,
            "mounted ",
            u64::from(*reached),
            " ",
            u64::from(*free),
        ),
        Reply::NoTicket => out.write_all(b"no ticket\n"),
        Reply::Down => out.write_all(b"down\n"),
        Reply::Refused(refusal) => print_refusal(out, *refusal),
    }
}

/// Prints the line of the type, the block and the entries of an installed template. It is not inlined either.
#[inline(never)]
fn print_installed<W: Write>(out: &mut W, made: &Installed) -> io::Result<()>
    ensures { OnOk result (Appends (W.contents out.old) (W.contents out.new) (installed_text made.now ++ 10 ∷ [])) }
{
    let (first, second) = made.edits;
    let mut line = ArrayVec::new();
    add_count(&mut line, "type ", u64::from(made.ty));
    add_count(&mut line, " block ", u64::from(made.block));
    add_count(&mut line, " edits ", first.number());
    add_count(&mut line, " ", second.number());
    line.push(b'\n');
    out.write_all(line.as_slice())
}

/// Prints the line of a block's bytes. It is not inlined either.
#[inline(never)]
fn print_block_bytes<W: Write>(out: &mut W, bytes: &[u8; BLOCK_LEN]) -> io::Result<()>
    ensures { OnOk result (Appends (W.contents out.old) (W.contents out.new) (bytes_text bytes.now ++ 10 ∷ [])) }
{
    print_bytes(out, bytes)?;
    out.write_all(b"\n")
}

/// Prints the line of an answer.
fn print_answer<W: Write>(out: &mut W, answer: &Answer) -> io::Result<()>
    ensures { OnOk result (Appends (W.contents out.old) (W.contents out.new) (answer_text answer.now ++ 10 ∷ [])) }
{
    match answer {
        Answer::Init(Ok((block, entry))) => print_counts(
            out,
            "block ",
            u64::from(*block),
            " edit ",
            entry.number(),
        ),
        Answer::Init(Err(refusal)) => print_refusal(out, *refusal),
        Answer::Propose(edit) => print_edit(out, *edit),
        Answer::MakeRoot(edit) => print_edit(out, *edit),
        Answer::DropRoot(edit) => print_edit(out, *edit),
        Answer::Forget(Ok(())) => out.write_all(b"ok\n"),
        Answer::Forget(Err(refusal)) => print_refusal(out, *refusal),
        Answer::Read(Ok(bytes)) => print_block_bytes(out, bytes),
        Answer::Read(Err(refusal)) => print_refusal(out, *refusal),
        Answer::Root(block) => print_block(out, "root ", *block),
        Answer::Kind(Ok(ty)) => print_count(out, "kind ", u64::from(*ty)),
        Answer::Kind(Err(refusal)) => print_refusal(out, *refusal),
        Answer::Tainted(true) => out.write_all(b"tainted true\n"),
        Answer::Tainted(false) => out.write_all(b"tainted false\n"),
        Answer::Pending(entries) => print_count(out, "pending ", u64::from(*entries)),
        Answer::Floor(entry) => print_count(out, "floor ", *entry),
        Answer::Free(blocks) => print_count(out, "free ", u64::from(*blocks)),
        Answer::Pick(block) => print_block(out, "pick ", *block),
        Answer::Drain(Ok(writes)) => print_count(out, "writes ", u64::from(*writes)),
        Answer::Drain(Err(stopped)) => print_refusal(out, stopped.refusal),
    }
}

/// Prints the line of the entry of an edit, or of its refusal.
fn print_edit<W: Write>(out: &mut W, edit: Result<EditId, Refusal>) -> io::Result<()>
    ensures { OnOk result (Appends (W.contents out.old) (W.contents out.new) (result_text edit_text edit ++ 10 ∷ [])) }
{
    match edit {
        Ok(entry) => print_count(out, "edit ", entry.number()),
        Err(refusal) => print_refusal(out, refusal),
    }
}

/// Prints a line of a text and a block, or that there is none.
fn print_block<W: Write>(out: &mut W, text: &str, block: Option<u32>) -> io::Result<()>
    requires { length text.now ≤ 16 }
    ensures { OnOk result (Appends (W.contents out.old) (W.contents out.new) (text.now ++ block_text block ++ 10 ∷ [])) }
{
    match block {
        Some(block) => print_count(out, text, u64::from(block)),
        None => {
            out.write_all(text.as_bytes())?;
            out.write_all(b"none\n")
        }
    }
}

/// Prints the line of a refusal.
fn print_refusal<W: Write>(out: &mut W, refusal: Refusal) -> io::Result<()>
    ensures { OnOk result (Appends (W.contents out.old) (W.contents out.new) (codes "refused " ++ refusal_text refusal ++ 10 ∷ [])) }
{
    writeln!(out, "refused {refusal}")
}
