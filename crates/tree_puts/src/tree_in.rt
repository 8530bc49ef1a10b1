// A folder of the system with all below it is brought in.

ghost use Rattle.std.specs.Prelude.{◌≡◌, ◌≤◌, ◌⊎◌, ◌↔◌, IfOk, IsTrue, MatchResult, length, map};
ghost use Rattle.tree_lines.specs.Telling.{Tells};
ghost use Rattle.tree_lines.specs.declared.fault.Fault.{Fault as LineFault};
ghost use Rattle.tree_puts.specs.Actions.{Performs};
ghost use Rattle.tree_puts.specs.Files.{IsPutBefore, PutsBelow, PutsRegular};
ghost use Rattle.tree_puts.specs.Folders.{EntersAt, EntersIn, FindsFolder, MakesFolder, ReadsNames, Settles, entered};
ghost use Rattle.tree_puts.specs.Lines.{line_of};
ghost use Rattle.tree_puts.specs.Trees.{Brings, BringsGoods, BringsNext, GoesOver, IsFull, Leaves, PutsFolder, StepsOn, StopsBy};

use crate::arriving::{Arriving, Goods};
use crate::linking::link;
use crate::pieces::OpenFile;
use flush_store::FlushStore;
use host_trees::{Attributes, Host, Kind, joined};
use std::alloc::{AllocError, Global};
use std::io;
use system_files::WriteFault;
use tree_lines::{
    Fault, Mkdir, Opened, Place, Reason, Told, at, at_bytes, at_word, below, not_written, system,
    there,
};

/// What is set of a folder of a volume once it is full.
#[derive(Clone, Copy, Debug, PartialEq, Eq)]
pub enum AtEnd {
    /// Nothing: it was there, and a line names it.
    Nothing,
    /// The time, as it was made for this.
    Time,
    /// All, as it was there.
    All,
}

/// A folder of the system that is brought in, and where.
#[derive(Debug, Drop)]
pub struct Frame {
    source: String,
    path: Vec<u8>,
    number: u32,
    attributes: Attributes,
    at_end: AtEnd,
    /// The names that are still to be brought in, the last one first.
    waiting: Vec<String>,
}

/// What is told of a folder of the system that has so many names that are no text.
fn odd_fault(alloc: Global, source: &str, odd: u64) -> Option<Fault> {
    if odd == 0 {
        return None;
    }
    Some(at_word(
        alloc,
        source,
        "has names that are no text, and they are left out",
    ))
}

/// What is told of a folder of the system whose names could not all be read.
fn unread_fault(alloc: Global, source: &str, error: Option<io::Error>) -> Option<Fault> {
    match error {
        Some(error) => Some(system(alloc, source.as_bytes(), error)),
        None => None,
    }
}

/// Tells a fault, if there is one.
fn tell_if(told: &mut Told, fault: Option<Fault>) -> Result<(), AllocError>
    ensures { IfOk result (λ done. (told.new ≡ told.old) ⊎ ((fault : LineFault) × Tells told.old told.new fault)) }
{
    match fault {
        Some(fault) => told.tell(fault),
        None => Ok(()),
    }
}

/// The names of a folder of the system, the last one first. Those that are no text are told, and so is what could not be read.
fn names_of<H: Host, S: FlushStore + Drop>(
    arriving: &Arriving<H>,
    volume: &mut Opened<S>,
    source: &str,
) -> Result<Vec<String>, Fault>
    ensures types { S.types_of volume.new.session.store ≡ S.types_of volume.old.session.store }
    ensures folder { volume.new.folder ≡ volume.old.folder }
    ensures does { ReadsNames result
        (line_of (S.types_of volume.old.session.store) (S.state_of volume.old.session.store) volume.old.folder volume.old.session.volume
        volume.old.told arriving.now.linked arriving.now.sources)
        (line_of (S.types_of volume.new.session.store) (S.state_of volume.new.session.store) volume.new.folder volume.new.session.volume
        volume.new.told arriving.now.linked arriving.now.sources) }
{
    let alloc = arriving.alloc;
    let found = match arriving.host.names(alloc, source) {
        Ok(found) => found,
        Err(error) => return Err(system(alloc, source.as_bytes(), error)),
    };
    let odd = odd_fault(alloc, source, found.odd);
    tell_if(&mut volume.told, odd)?;
    let unread = unread_fault(alloc, source, found.fault);
    tell_if(&mut volume.told, unread)?;
    let mut names = found.names;
    names.reverse();
    Ok(names)
}

/// Makes a folder at a place, with what the system tells of its own one, and answers its number.
fn new_folder<H: Host, S: FlushStore + Drop>(
    arriving: &Arriving<H>,
    volume: &mut Opened<S>,
    goods: Goods,
) -> Result<u32, Fault>
    ensures types { S.types_of volume.new.session.store ≡ S.types_of volume.old.session.store }
    ensures folder { volume.new.folder ≡ volume.old.folder }
    ensures told { volume.new.told ≡ volume.old.told }
    ensures does { Performs (S.types_of volume.old.session.store) volume.old.folder (MakesFolder goods.entry result)
        (S.state_of volume.old.session.store) (S.state_of volume.new.session.store) volume.old.session.volume volume.new.session.volume }
{
    let attributes = arriving.new_attributes(volume, goods.attributes);
    let mkdir = Mkdir {
        directory: goods.place.folder,
        name: goods.place.name,
        attributes,
    };
    volume.make_name(arriving.alloc, goods.path, &mkdir)
}

/// The folder of a volume that a folder of the system goes to, which is made where nothing is, and what is set of it at the end.
fn folder_at<H: Host, S: FlushStore + Drop>(
    arriving: &Arriving<H>,
    volume: &mut Opened<S>,
    goods: Goods,
) -> Result<(u32, AtEnd), Fault>
    ensures types { S.types_of volume.new.session.store ≡ S.types_of volume.old.session.store }
    ensures folder { volume.new.folder ≡ volume.old.folder }
    ensures does { FindsFolder goods.entry result
        (line_of (S.types_of volume.old.session.store) (S.state_of volume.old.session.store) volume.old.folder volume.old.session.volume
        volume.old.told arriving.now.linked arriving.now.sources)
        (line_of (S.types_of volume.new.session.store) (S.state_of volume.new.session.store) volume.new.folder volume.new.session.volume
        volume.new.told arriving.now.linked arriving.now.sources) }
{
    let alloc = arriving.alloc;
    let found = match there(&volume.session, goods.place) {
        Ok(found) => found,
        Err(reason) => return Err(at_bytes(alloc, goods.path, reason)),
    };
    let Some(node) = found else {
        return match new_folder(arriving, volume, goods) {
            Ok(number) => Ok((number, AtEnd::Time)),
            Err(fault) => Err(fault),
        };
    };
    if node.is_folder() {
        return Ok((node.number, AtEnd::All));
    }
    Err(at_bytes(alloc, goods.path, Reason::NoFolder))
}

/// Begins with a folder that goes to a place.
pub fn enter<H: Host, S: FlushStore + Drop>(
    arriving: &Arriving<H>,
    volume: &mut Opened<S>,
    goods: Goods,
) -> Result<Frame, Fault>
    ensures types { S.types_of volume.new.session.store ≡ S.types_of volume.old.session.store }
    ensures folder { volume.new.folder ≡ volume.old.folder }
    ensures does { EntersAt goods.entry result
        (line_of (S.types_of volume.old.session.store) (S.state_of volume.old.session.store) volume.old.folder volume.old.session.volume
        volume.old.told arriving.now.linked arriving.now.sources)
        (line_of (S.types_of volume.new.session.store) (S.state_of volume.new.session.store) volume.new.folder volume.new.session.volume
        volume.new.told arriving.now.linked arriving.now.sources) }
{
    let waiting = names_of(arriving, volume, goods.source)?;
    let (number, at_end) = folder_at(arriving, volume, goods)?;
    Ok(Frame {
        source: String::from_str(arriving.alloc, goods.source)?,
        path: Vec::from_slice(arriving.alloc, goods.path)?,
        number,
        attributes: *goods.attributes,
        at_end,
        waiting,
    })
}

/// Begins with a folder that fills one that is there, by its number.
pub fn enter_there<H: Host, S: FlushStore + Drop>(
    arriving: &Arriving<H>,
    volume: &mut Opened<S>,
    from: (&str, &Attributes),
    path: &[u8],
    number: u32,
) -> Result<Frame, Fault>
    ensures types { S.types_of volume.new.session.store ≡ S.types_of volume.old.session.store }
    ensures folder { volume.new.folder ≡ volume.old.folder }
    ensures does { EntersIn number from.entry.1.now result
        (line_of (S.types_of volume.old.session.store) (S.state_of volume.old.session.store) volume.old.folder volume.old.session.volume
        volume.old.told arriving.now.linked arriving.now.sources)
        (line_of (S.types_of volume.new.session.store) (S.state_of volume.new.session.store) volume.new.folder volume.new.session.volume
        volume.new.told arriving.now.linked arriving.now.sources) }
{
    let (source, attributes) = from;
    Ok(Frame {
        waiting: names_of(arriving, volume, source)?,
        source: String::from_str(arriving.alloc, source)?,
        path: Vec::from_slice(arriving.alloc, path)?,
        number,
        attributes: *attributes,
        at_end: AtEnd::Nothing,
    })
}

/// Ends with a folder that is full.
fn settle<H: Host, S: FlushStore + Drop>(
    arriving: &Arriving<H>,
    volume: &mut Opened<S>,
    frame: &Frame,
) -> Result<(), Fault>
    ensures types { S.types_of volume.new.session.store ≡ S.types_of volume.old.session.store }
    ensures folder { volume.new.folder ≡ volume.old.folder }
    ensures does { Settles (entered frame.now) result
        (line_of (S.types_of volume.old.session.store) (S.state_of volume.old.session.store) volume.old.folder volume.old.session.volume
        volume.old.told arriving.now.linked arriving.now.sources)
        (line_of (S.types_of volume.new.session.store) (S.state_of volume.new.session.store) volume.new.folder volume.new.session.volume
        volume.new.told arriving.now.linked arriving.now.sources) }
{
    match frame.at_end {
        AtEnd::Nothing => Ok(()),
        AtEnd::Time => arriving.set_time(
            volume,
            &frame.path,
            frame.number,
            frame.attributes.modified,
        ),
        AtEnd::All => arriving.set_all(volume, &frame.path, frame.number, &frame.attributes),
    }
}

/// Whether a regular file is in the volume already, under another name: then it gets this one too. The disk itself is refused.
pub fn is_done<H: Host, S: FlushStore + Drop>(
    arriving: &mut Arriving<H>,
    volume: &mut Opened<S>,
    goods: Goods,
) -> Result<bool, Fault>
    ensures types { S.types_of volume.new.session.store ≡ S.types_of volume.old.session.store }
    ensures folder { volume.new.folder ≡ volume.old.folder }
    ensures does { IsPutBefore goods.entry result
        (line_of (S.types_of volume.old.session.store) (S.state_of volume.old.session.store) volume.old.folder volume.old.session.volume
        volume.old.told arriving.old.linked arriving.old.sources)
        (line_of (S.types_of volume.new.session.store) (S.state_of volume.new.session.store) volume.new.folder volume.new.session.volume
        volume.new.told arriving.new.linked arriving.new.sources) }
{
    if let Some(disk) = &arriving.disk
        && disk.is_same(goods.attributes)
    {
        return Err(at_word(
            arriving.alloc,
            goods.source,
            "is the disk itself, and is left out",
        ));
    }
    match arriving.number_of(goods.attributes) {
        Some(number) => {
            link(arriving, volume, goods, number)?;
            Ok(true)
        }
        None => Ok(false),
    }
}

/// Puts a regular file that is open, with its time, and notes it where it has more names.
pub fn put_regular<H: Host, S: FlushStore + Drop>(
    arriving: &mut Arriving<H>,
    volume: &mut Opened<S>,
    goods: Goods,
    file: H::File,
    piece: &mut [u8],
) -> Result<(), Fault>
    ensures types { S.types_of volume.new.session.store ≡ S.types_of volume.old.session.store }
    ensures folder { volume.new.folder ≡ volume.old.folder }
    ensures does { 384 ≤ length piece.old → PutsRegular goods.entry (length piece.old) result
        (line_of (S.types_of volume.old.session.store) (S.state_of volume.old.session.store) volume.old.folder volume.old.session.volume
        volume.old.told arriving.old.linked arriving.old.sources)
        (line_of (S.types_of volume.new.session.store) (S.state_of volume.new.session.store) volume.new.folder volume.new.session.volume
        volume.new.told arriving.new.linked arriving.new.sources) }
{
    let mut incoming: OpenFile<H> = OpenFile { file };
    let number = arriving.put_file(volume, goods, &mut incoming, piece)?;
    arriving.note(goods.attributes, number)?;
    arriving.set_time(volume, goods.path, number, goods.attributes.modified)
}

/// Puts a file below a folder, or gives it one more name where it was put under another one.
fn put_file_below<H: Host, S: FlushStore + Drop>(
    arriving: &mut Arriving<H>,
    volume: &mut Opened<S>,
    goods: Goods,
    piece: &mut [u8],
) -> Result<(), Fault>
    ensures types { S.types_of volume.new.session.store ≡ S.types_of volume.old.session.store }
    ensures folder { volume.new.folder ≡ volume.old.folder }
    ensures does { 384 ≤ length piece.old → PutsBelow goods.entry (length piece.old) result
        (line_of (S.types_of volume.old.session.store) (S.state_of volume.old.session.store) volume.old.folder volume.old.session.volume
        volume.old.told arriving.old.linked arriving.old.sources)
        (line_of (S.types_of volume.new.session.store) (S.state_of volume.new.session.store) volume.new.folder volume.new.session.volume
        volume.new.told arriving.new.linked arriving.new.sources) }
{
    if is_done(arriving, volume, goods)? {
        return Ok(());
    }
    let source = goods.source.as_bytes();
    match arriving.host.open_below(goods.source) {
        Ok(Some((file, opened))) => {
            let goods = Goods {
                place: goods.place,
                path: goods.path,
                source: goods.source,
                attributes: &opened,
            };
            put_regular(arriving, volume, goods, file, piece)
        }
        Ok(None) => Err(not_written(arriving.alloc, source, WriteFault::Link)),
        Err(error) => Err(system(arriving.alloc, source, error)),
    }
}

/// Brings in what the system tells of. Answers the folder that it is, where it is one.
fn put_goods<H: Host, S: FlushStore + Drop>(
    arriving: &mut Arriving<H>,
    volume: &mut Opened<S>,
    goods: Goods,
    piece: &mut [u8],
) -> Result<Option<Frame>, Fault>
    ensures types { S.types_of volume.new.session.store ≡ S.types_of volume.old.session.store }
    ensures folder { volume.new.folder ≡ volume.old.folder }
    ensures does { 384 ≤ length piece.old → BringsGoods (length piece.old) goods.entry result
        (line_of (S.types_of volume.old.session.store) (S.state_of volume.old.session.store) volume.old.folder volume.old.session.volume
        volume.old.told arriving.old.linked arriving.old.sources)
        (line_of (S.types_of volume.new.session.store) (S.state_of volume.new.session.store) volume.new.folder volume.new.session.volume
        volume.new.told arriving.new.linked arriving.new.sources) }
{
    match goods.attributes.kind {
        Kind::Folder => match enter(arriving, volume, goods) {
            Ok(frame) => Ok(Some(frame)),
            Err(fault) => Err(fault),
        },
        Kind::File => match put_file_below(arriving, volume, goods, piece) {
            Ok(()) => Ok(None),
            Err(fault) => Err(fault),
        },
        Kind::SymbolicLink => match arriving.put_link(volume, goods) {
            Ok(()) => Ok(None),
            Err(fault) => Err(fault),
        },
        Kind::Other => Err(at(arriving.alloc, goods.source, Reason::Special)),
    }
}

/// Brings a name of a folder in. Answers the folder that it is, where it is one.
fn put_name<H: Host, S: FlushStore + Drop>(
    arriving: &mut Arriving<H>,
    volume: &mut Opened<S>,
    frame: (&str, &[u8], u32),
    name: &str,
    piece: &mut [u8],
) -> Result<Option<Frame>, Fault>
    ensures types { S.types_of volume.new.session.store ≡ S.types_of volume.old.session.store }
    ensures folder { volume.new.folder ≡ volume.old.folder }
    ensures does { 384 ≤ length piece.old → Brings (length piece.old) frame.entry.2 name.now result
        (line_of (S.types_of volume.old.session.store) (S.state_of volume.old.session.store) volume.old.folder volume.old.session.volume
        volume.old.told arriving.old.linked arriving.old.sources)
        (line_of (S.types_of volume.new.session.store) (S.state_of volume.new.session.store) volume.new.folder volume.new.session.volume
        volume.new.told arriving.new.linked arriving.new.sources) }
{
    let alloc = arriving.alloc;
    let (source, path, folder) = frame;
    let source = joined(alloc, source, name)?;
    let path = below(alloc, path, name.as_bytes())?;
    let attributes = match arriving.host.attributes(source.as_str()) {
        Ok(attributes) => attributes,
        Err(error) => return Err(system(alloc, source.as_bytes(), error)),
    };
    let goods = Goods {
        place: Place {
            folder,
            name: name.as_bytes(),
            has_slash: false,
        },
        path: &path,
        source: source.as_str(),
        attributes: &attributes,
    };
    put_goods(arriving, volume, goods, piece)
}

/// Whether nothing more can be brought in after a fault, though the volume is as good as ever.
fn is_full(fault: &Fault) -> bool
    ensures { IsTrue result ↔ IsFull fault.now }
{
    matches!(
        fault,
        Fault::At {
            path: _,
            reason: Reason::NoSpace { free: _ } | Reason::NoNumber,
        }
    )
}

/// Keeps a fault after which the next name is brought in, and passes those on after which that can't be.
fn go_on(told: &mut Told, fault: Fault) -> Result<(), Fault>
    ensures { MatchResult result (λ done. GoesOver fault told.old told.new) (λ last. StopsBy fault last) }
{
    if is_full(&fault) {
        return Err(fault);
    }
    told.go_on(Err(fault))
}

/// Ends with the last folder, and tells where that fails.
fn leave<H: Host, S: FlushStore + Drop>(
    arriving: &Arriving<H>,
    volume: &mut Opened<S>,
    last: &Frame,
) -> Result<(), Fault>
    ensures types { S.types_of volume.new.session.store ≡ S.types_of volume.old.session.store }
    ensures folder { volume.new.folder ≡ volume.old.folder }
    ensures does { Leaves (entered last.now) result
        (line_of (S.types_of volume.old.session.store) (S.state_of volume.old.session.store) volume.old.folder volume.old.session.volume
        volume.old.told arriving.now.linked arriving.now.sources)
        (line_of (S.types_of volume.new.session.store) (S.state_of volume.new.session.store) volume.new.folder volume.new.session.volume
        volume.new.told arriving.now.linked arriving.now.sources) }
{
    match settle(arriving, volume, last) {
        Ok(()) => Ok(()),
        Err(fault) => go_on(&mut volume.told, fault),
    }
}

/// Brings the next name of the last folder in, which goes back to those above it; where that fails it is told.
fn bring_next<H: Host, S: FlushStore + Drop>(
    arriving: &mut Arriving<H>,
    volume: &mut Opened<S>,
    frames: &mut Vec<Frame>,
    last: Frame,
    name: &str,
    piece: &mut [u8],
) -> Result<(), Fault>
    ensures types { S.types_of volume.new.session.store ≡ S.types_of volume.old.session.store }
    ensures folder { volume.new.folder ≡ volume.old.folder }
    ensures does { 384 ≤ length piece.old → BringsNext (length piece.old) (map entered frames.old.items) (entered last) name.now
        (map entered frames.new.items) result
        (line_of (S.types_of volume.old.session.store) (S.state_of volume.old.session.store) volume.old.folder volume.old.session.volume
        volume.old.told arriving.old.linked arriving.old.sources)
        (line_of (S.types_of volume.new.session.store) (S.state_of volume.new.session.store) volume.new.folder volume.new.session.volume
        volume.new.told arriving.new.linked arriving.new.sources) }
{
    let folder = (last.source.as_str(), last.path.as_slice(), last.number);
    let done = put_name(arriving, volume, folder, name, piece);
    frames.push(last)?;
    match done {
        Ok(Some(next)) => Ok(frames.push(next)?),
        Ok(None) => Ok(()),
        Err(fault) => go_on(&mut volume.told, fault),
    }
}

/// Brings the next name of the last folder in, which stands below some others; or ends with that folder, where no name waits.
fn step<H: Host, S: FlushStore + Drop>(
    arriving: &mut Arriving<H>,
    volume: &mut Opened<S>,
    frames: &mut Vec<Frame>,
    last: Frame,
    piece: &mut [u8],
) -> Result<(), Fault>
    ensures types { S.types_of volume.new.session.store ≡ S.types_of volume.old.session.store }
    ensures folder { volume.new.folder ≡ volume.old.folder }
    ensures does { 384 ≤ length piece.old → StepsOn (length piece.old) (map entered frames.old.items) (entered last)
        (map entered frames.new.items) result
        (line_of (S.types_of volume.old.session.store) (S.state_of volume.old.session.store) volume.old.folder volume.old.session.volume
        volume.old.told arriving.old.linked arriving.old.sources)
        (line_of (S.types_of volume.new.session.store) (S.state_of volume.new.session.store) volume.new.folder volume.new.session.volume
        volume.new.told arriving.new.linked arriving.new.sources) }
{
    let mut last = last;
    let Some(name) = last.waiting.pop() else {
        return leave(arriving, volume, &last);
    };
    bring_next(arriving, volume, frames, last, name.as_str(), piece)
}

/// Brings a folder of the system with all below it in, name by name. A name that can't be brought in is told and left out.
pub fn put_folder<H: Host, S: FlushStore + Drop>(
    arriving: &mut Arriving<H>,
    volume: &mut Opened<S>,
    alloc: Global,
    frame: Frame,
    piece: &mut [u8],
) -> Result<(), Fault>
    ensures types { S.types_of volume.new.session.store ≡ S.types_of volume.old.session.store }
    ensures folder { volume.new.folder ≡ volume.old.folder }
    ensures does { 384 ≤ length piece.old → PutsFolder (length piece.old) (entered frame) result
        (line_of (S.types_of volume.old.session.store) (S.state_of volume.old.session.store) volume.old.folder volume.old.session.volume
        volume.old.told arriving.old.linked arriving.old.sources)
        (line_of (S.types_of volume.new.session.store) (S.state_of volume.new.session.store) volume.new.folder volume.new.session.volume
        volume.new.told arriving.new.linked arriving.new.sources) }
{
    let mut frames = Vec::new(alloc);
    frames.push(frame)?;
    for _step in 0..u64::MAX {
        let Some(last) = frames.pop() else {
            break;
        };
        step(arriving, volume, &mut frames, last, piece)?;
    }
    Ok(())
}
