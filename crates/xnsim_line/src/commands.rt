// What each line asks for is done.

ghost use Rattle.std.specs.Prelude.{◌≡◌, ◌≤◌, [], None, IfErr, IfOk, IfSome, IsTrue, OnOk, length, map, string_bytes};
ghost use Rattle.std.specs.Str.{IsUtf8};
ghost use Rattle.std.specs.Io.KnownBytes.{Appends};
ghost use Rattle.templates.specs.Formats.{most_formatted};
ghost use Rattle.xnsim_line.specs.Done.{IsFaultOf, IsInputFault, IsLineDone, IsLineFault, PrintsAssembled, PrintsMounted, PrintsReplies, PrintsVerified};
ghost use Rattle.xnsim_line.specs.Checking.{PrintsChecked};
ghost use Rattle.xnsim_line.specs.Formatting.{made_line, PrintsMade};
ghost use Rattle.xnsim_line.specs.Lines.{IsNoLine};

use crate::assembling::{make_template, print_template};
use crate::checking::print_report;
use crate::files::DiskImage;
use crate::formatting::{all_templates, made_image, read_files};
use crate::invocation::{Stop, read};
use crate::program::verify_text;
use crate::replay::{run_on_image, run_script};
use crate::{Fault, Files, Invocation};
use bumpalo::Bump;
use crash_check::count;
use script::parse;
use std::alloc::Global;
use std::io::{ErrorKind, Read, Write};
use std::thread::Threads;
use std::{io, str};
use store_types::{BLOCK_LEN, MAX_BLOCKS, MAX_FORMAT_BLOCKS, MIN_BLOCKS};
use system_files::Access;
use templates::write_block;
use udf_verify::Role;

/// How many bytes the image of the largest disk has that is run.
const GREATEST_RUN_LEN: usize = BLOCK_LEN * MAX_FORMAT_BLOCKS as usize;

/// How many bytes the image of the largest disk has.
const GREATEST_IMAGE_LEN: usize = BLOCK_LEN * MAX_BLOCKS as usize;

/// How many bytes the text of a program has at most.
const GREATEST_TEXT_LEN: usize = 1024 * 1024;

/// How many bytes a script has at most.
const GREATEST_SCRIPT_LEN: usize = 64 * 1024 * 1024;

/// The name of standard input in what is told.
const STANDARD_INPUT: &str = "-";

/// Says what was formatted.
fn print_made<W: Write>(out: &mut W, blocks: u32, templates: usize) -> io::Result<()>
    ensures { OnOk result (Appends (W.contents out.old) (W.contents out.new) (made_line blocks templates)) }
{
    writeln!(out, "blocks {blocks} templates {templates}")
}

/// The text of bytes that were read under this name.
fn text_of<'a, 'b>(bytes: &'b [u8], name: &'a str) -> Result<&'b str, Fault<'a>>
    ensures text { IfOk result (λ text. text.now ≡ bytes.now) }
    ensures fault { IfErr result (λ fault. (fault ≡ Fault.CannotRead name.entry) × ¬ (IsUtf8 bytes.now)) }
{
    str::from_utf8(bytes).map_err(|_| Fault::CannotRead(name))
}

/// Writes a fresh image with the templates of these files, behind those of the library's file system where it is asked for,
/// and then says so.
fn format<'a, F: Files, W: Write>(
    alloc: Global,
    files: &mut F,
    out: &mut W,
    image: &'a str,
    blocks: u32,
    file_system: bool,
    names: &'a [String],
) -> Result<(), Fault<'a>>
    requires least { 32 ≤ blocks }
    requires greatest { blocks ≤ most_formatted }
    ensures done { OnOk result (PrintsMade (F.held files.old) (F.held files.new) image.entry.now blocks file_system (map string_bytes names.entry.now)
        (W.contents out.old) (W.contents out.new)) }
    ensures fault { IfErr result (IsFaultOf None (Invocation.Format image.entry blocks file_system names.entry)) }
{
    let read = read_files(alloc, files, names)?;
    let templates = all_templates(alloc, file_system, read.as_slice())?;
    let bytes = made_image(alloc, blocks, templates.as_slice())?;
    if !files.write_from(image, bytes.as_slice()) {
        return Err(Fault::CannotWrite(image));
    }
    print_made(out, blocks, templates.len())?;
    Ok(())
}

/// Whether a name leads to one of two files.
fn is_source<F: Files>(files: &mut F, owns: &str, size: &str, block: &str) -> bool
    ensures owns { owns.now ≡ block.now → IsTrue result }
    ensures size { size.now ≡ block.now → IsTrue result }
    ensures kept { F.held files.new ≡ F.held files.old }
{
    files.is_one_file(owns, block) || files.is_one_file(size, block)
}

/// Writes the block of the template whose programs have the texts of two files, and then says so. A file of one of these texts is not written.
fn assemble_files<'a, F: Files, W: Write>(
    alloc: Global,
    files: &mut F,
    out: &mut W,
    owns: &'a str,
    size: &'a str,
    block: &'a str,
) -> Result<(), Fault<'a>>
    ensures done { OnOk result (PrintsAssembled (F.held files.old) (F.held files.new) owns.entry.now size.entry.now block.entry.now (W.contents out.old)
        (W.contents out.new)) }
    ensures fault { IfErr result (IsFaultOf None (Invocation.Asm owns.entry size.entry block.entry)) }
{
    let owns_bytes = files
        .read_short(alloc, owns, GREATEST_TEXT_LEN)
        .ok_or(Fault::CannotRead(owns))?;
    let owns_text = text_of(owns_bytes.as_slice(), owns)?;
    let size_bytes = files
        .read_short(alloc, size, GREATEST_TEXT_LEN)
        .ok_or(Fault::CannotRead(size))?;
    let size_text = text_of(size_bytes.as_slice(), size)?;
    let template = make_template(alloc, owns_text, size_text)?;
    if is_source(files, owns, size, block)
        || !files.write_from(block, write_block(&template).as_slice())
    {
        return Err(Fault::CannotWrite(block));
    }
    print_template(out, &template)?;
    Ok(())
}

/// Runs the script of a file on the image of a file, to its end or to a stop before the block write that comes after so many,
/// and writes the image back.
fn run_files<'a, F: Files, W: Write>(
    rt: &(impl Threads + Sync),
    alloc: Global,
    files: &mut F,
    out: &mut W,
    image: &'a str,
    script: &'a str,
    stop: Option<Stop>,
) -> Result<(), Fault<'a>>
    ensures done { OnOk result (PrintsMounted (F.held files.old) (F.held files.new) image.entry.now script.entry.now stop (W.contents out.old)
        (W.contents out.new)) }
    ensures fault { IfErr result (IsFaultOf None (Invocation.Run image.entry script.entry stop)) }
{
    let before = files
        .read_disk(alloc, image, GREATEST_RUN_LEN + 1, Access::Alone)
        .ok_or(Fault::CannotRead(image))?;
    let text = files
        .read_short(alloc, script, GREATEST_SCRIPT_LEN)
        .ok_or(Fault::CannotRead(script))?;
    let lines = parse(alloc, text_of(text.as_slice(), script)?)?;
    // Blocks that no line writes take no page for their second lots.
    let rooms = Bump::new(alloc);
    let after = run_on_image(rt, alloc, &rooms, before, lines, stop, out)?;
    if !files.write_from(image, DiskImage::new(after)) {
        return Err(Fault::CannotWrite(image));
    }
    Ok(())
}

/// Checks the image of a file, and says what it holds.
fn check_file<'a, F: Files, W: Write>(
    rt: &(impl Threads + Sync),
    alloc: Global,
    files: &mut F,
    out: &mut W,
    image: &'a str,
) -> Result<(), Fault<'a>>
    ensures done { OnOk result (PrintsChecked (F.held files.old) (F.held files.new) image.entry.now (W.contents out.old) (W.contents out.new)) }
    ensures fault { IfErr result (IsFaultOf None (Invocation.Check image.entry)) }
{
    let bytes = files
        .read_disk(alloc, image, GREATEST_IMAGE_LEN + 1, Access::Shared)
        .ok_or(Fault::CannotRead(image))?;
    let counts = match count(rt, alloc, bytes.as_slice()) {
        Ok(counts) => counts,
        Err(fault) => return Err(Fault::Image(fault)),
    };
    print_report(out, counts.reached, counts.free)?;
    Ok(())
}

/// All that is left of standard input, which is a script: no more is read than one byte over what a script has at most.
fn read_input<'a, R: Read>(alloc: Global, input: &mut R) -> Result<Vec<u8>, Fault<'a>>
    ensures whole { IfOk result (λ text. IfSome (R.remaining input.old) (λ bytes. text.items ≡ bytes)) }
    ensures short { IfOk result (λ text. length text.items ≤ 67108864) }
    ensures fault { IfErr result (IsInputFault) }
{
    let mut text = Vec::new(alloc);
    let limit = GREATEST_SCRIPT_LEN as u64 + 1;
    match input.take(limit).read_to_end(&mut text) {
        Ok(_) => {}
        Err(error) if error.kind() == ErrorKind::OutOfMemory => return Err(Fault::NoMemory),
        Err(_) => return Err(Fault::CannotRead(STANDARD_INPUT)),
    }
    if text.len() > GREATEST_SCRIPT_LEN {
        return Err(Fault::CannotRead(STANDARD_INPUT));
    }
    Ok(text)
}

/// Runs the script on standard input on a fresh disk, of which nothing is kept.
fn run_input<'a, R: Read, W: Write>(
    rt: &(impl Threads + Sync),
    alloc: Global,
    input: &mut R,
    out: &mut W,
) -> Result<(), Fault<'a>>
    ensures told { OnOk result (PrintsReplies (R.remaining input.old) 32 [] (W.contents out.old) (W.contents out.new)) }
    ensures fault { IfErr result (IsFaultOf (R.remaining input.old) Invocation.Bare) }
{
    let text = read_input(alloc, input)?;
    let lines = parse(alloc, text_of(text.as_slice(), STANDARD_INPUT)?)?;
    run_script(rt, alloc, MIN_BLOCKS, &[], lines, out)?;
    Ok(())
}

/// Verifies the program of a text file, and says what it comes to.
fn verify_file<'a, F: Files, W: Write>(
    alloc: Global,
    files: &mut F,
    out: &mut W,
    text: &'a str,
    role: Role,
) -> Result<(), Fault<'a>>
    ensures done { OnOk result (PrintsVerified (F.held files.old) (F.held files.new) text.entry.now role (W.contents out.old) (W.contents out.new)) }
    ensures fault { IfErr result (IsFaultOf None (Invocation.Verify text.entry role)) }
{
    let bytes = files
        .read_short(alloc, text, GREATEST_TEXT_LEN)
        .ok_or(Fault::CannotRead(text))?;
    verify_text(alloc, text_of(bytes.as_slice(), text)?, role, out)
}

/// Does what the words ask for.
pub fn run<'a, F: Files, R: Read, W: Write>(
    rt: &(impl Threads + Sync),
    alloc: Global,
    words: &'a [String],
    files: &mut F,
    input: &mut R,
    out: &mut W,
) -> Result<(), Fault<'a>>
    ensures done { OnOk result (IsLineDone (R.remaining input.old) (F.held files.old) (F.held files.new) (map string_bytes words.entry.now) (W.contents out.old)
        (W.contents out.new)) }
    ensures fault { IfErr result (IsLineFault (R.remaining input.old) (map string_bytes words.entry.now)) }
    ensures usage { IfErr result (λ fault. fault ≡ Fault.Usage → IsNoLine (map string_bytes words.entry.now)) }
{
    match read(alloc, words)? {
        Invocation::Format {
            image,
            blocks,
            file_system,
            templates,
        } => format(alloc, files, out, image, blocks, file_system, templates),
        Invocation::Run {
            image,
            script,
            stop,
        } => run_files(rt, alloc, files, out, image, script, stop),
        Invocation::Check { image } => check_file(rt, alloc, files, out, image),
        Invocation::Asm { owns, size, block } => {
            assemble_files(alloc, files, out, owns, size, block)
        }
        Invocation::Verify { text, role } => verify_file(alloc, files, out, text, role),
        Invocation::Bare => run_input(rt, alloc, input, out),
    }
}
