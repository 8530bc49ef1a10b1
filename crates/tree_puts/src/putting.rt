// The word `put`: files and folders of the system that are brought in.

ghost use Rattle.std.specs.Prelude.{◌≡◌, ◌<◌, ◌≤◌, IfOk, false, length, map, nat_lt};
ghost use Rattle.tree_lines.specs.Places.{goal_slash};
ghost use Rattle.tree_puts.specs.Lines.{line_of};
ghost use Rattle.tree_puts.specs.Sources.{FillsAt, FillsThere, GetsRights, GoesBy, IsSingle, PutsAll, PutsByKind, PutsFileTo, PutsFolderTo};
ghost use Rattle.tree_puts.specs.Sources.{PutsInTurn, PutsOne, PutsPlain, PutsSource, PutsSources, PutsSpecial, PutsStream, node_at};
ghost use Rattle.tree_puts.specs.Files.{PutsOnce};

use crate::arriving::{Arriving, Goods, room_for_piece};
use crate::pieces::{Incoming, OpenFile, Stream};
use crate::tree_in::{enter, enter_there, is_done, put_folder, put_regular};
use flush_store::FlushStore;
use host_trees::{Attributes, Host, Kind, own_name};
use std::alloc::Global;
use std::io::Read;
use tree_lines::{Fault, Goal, Node, Opened, Place, Reason, View, at, below, find_to, system};

/// The permissions of a file that standard input becomes.
const PERMISSIONS: u16 = 0o644;

/// What is to be brought in, and where it goes.
#[derive(Clone, Copy, Debug)]
pub struct Putting<'p> {
    /// Paths of the system; `-` is standard input.
    pub sources: &'p [&'p str],
    pub path: &'p str,
    /// The file of the system that is the disk itself, which is not brought in.
    pub disk: Option<&'p str>,
    /// Whether standard input has the lines of a shell.
    pub has_lines: bool,
}

/// What has the name of a place, where it can be seen.
fn seen_at<S: FlushStore + Drop>(volume: &Opened<S>, place: Place) -> Option<Node>
    ensures { result ≡ node_at (S.state_of volume.now.session.store) volume.now.session.volume place.entry.folder place.entry.name.now }
{
    match volume.session.look_up(place.folder, place.name) {
        Ok(number) => match volume.session.node(number) {
            Ok(node) => Some(node),
            Err(_) => None,
        },
        Err(_) => None,
    }
}

/// Permissions, user and group of a file that standard input becomes: those of the file that it replaces.
fn rights_of<H: Host>(host: &H, replaced: Option<Node>) -> (u16, u32, u32)
    ensures range { result.0 < 4096 }
    ensures rights { GetsRights replaced result.0 result.1 result.2 }
{
    match replaced {
        Some(node) if !node.is_link() => (node.permissions % 4_096, node.uid, node.gid),
        _ => {
            let (uid, gid) = host.own_ids();
            (PERMISSIONS, uid, gid)
        }
    }
}

/// What a file that standard input becomes is given.
fn stream_attributes<H: Host>(host: &H, replaced: Option<Node>) -> Attributes
    ensures { (result.size ≡ 0) × GetsRights replaced result.permissions result.uid result.gid }
{
    let (permissions, uid, gid) = rights_of(host, replaced);
    Attributes {
        kind: Kind::Other,
        permissions,
        uid,
        gid,
        modified: 0,
        size: 0,
        held: 0,
        links: 1,
        device: 0,
        inode: 0,
    }
}

/// The path by which is told what goes to a goal.
fn path_of(alloc: Global, goal: Goal, path: &str, name: &str) -> Result<Vec<u8>, Fault> {
    match goal {
        Goal::Into(_) => Ok(below(alloc, path.as_bytes(), name.as_bytes())?),
        Goal::To(_) => Ok(Vec::from_slice(alloc, path.as_bytes())?),
    }
}

/// Puts what arrives as a file.
fn put_plain<H: Host, S: FlushStore + Drop, I: Incoming<H>>(
    arriving: &mut Arriving<H>,
    volume: &mut Opened<S>,
    goods: Goods,
    incoming: &mut I,
    piece: &mut [u8],
) -> Result<(), Fault>
    ensures types { S.types_of volume.new.session.store ≡ S.types_of volume.old.session.store }
    ensures folder { volume.new.folder ≡ volume.old.folder }
    ensures does { 384 ≤ length piece.old → PutsPlain goods.entry (length piece.old) result
        (line_of (S.types_of volume.old.session.store) (S.state_of volume.old.session.store) volume.old.folder volume.old.session.volume
        volume.old.told arriving.old.linked arriving.old.sources)
        (line_of (S.types_of volume.new.session.store) (S.state_of volume.new.session.store) volume.new.folder volume.new.session.volume
        volume.new.told arriving.new.linked arriving.new.sources) }
{
    let _number = arriving.put_file(volume, goods, incoming, piece)?;
    Ok(())
}

/// Where standard input goes: to a place that is no folder.
fn stream_place<'p, S: FlushStore + Drop>(
    volume: &Opened<S>,
    alloc: Global,
    path: &'p str,
) -> Result<Place<'p>, Fault>
    ensures { IfOk result (λ place.
        IsSingle (S.state_of volume.now.session.store) volume.now.session.volume volume.now.folder path.now place) }
{
    match find_to(&volume.session, alloc, volume.folder, path, false)? {
        Goal::Into(_) => Err(at(alloc, path, Reason::Folder)),
        Goal::To(place) if place.has_slash => Err(at(alloc, path, Reason::NoFolder)),
        Goal::To(place) => Ok(place),
    }
}

/// Puts what standard input has at a path.
fn put_stream<H: Host, S: FlushStore + Drop>(
    arriving: &mut Arriving<H>,
    volume: &mut Opened<S>,
    putting: &Putting,
    piece: &mut [u8],
    input: &mut impl Read,
) -> Result<(), Fault>
    ensures types { S.types_of volume.new.session.store ≡ S.types_of volume.old.session.store }
    ensures folder { volume.new.folder ≡ volume.old.folder }
    ensures does { 384 ≤ length piece.old → PutsStream putting.now.has_lines putting.now.path.now (length piece.old) result
        (line_of (S.types_of volume.old.session.store) (S.state_of volume.old.session.store) volume.old.folder volume.old.session.volume
        volume.old.told arriving.old.linked arriving.old.sources)
        (line_of (S.types_of volume.new.session.store) (S.state_of volume.new.session.store) volume.new.folder volume.new.session.volume
        volume.new.told arriving.new.linked arriving.new.sources) }
{
    let alloc = arriving.alloc;
    if putting.has_lines {
        return Err(at(alloc, "-", Reason::Lines));
    }
    let place = stream_place(volume, alloc, putting.path)?;
    let attributes = stream_attributes(arriving.host, seen_at(volume, place));
    let goods = Goods {
        place,
        path: putting.path.as_bytes(),
        source: "-",
        attributes: &attributes,
    };
    put_plain(arriving, volume, goods, &mut Stream { input }, piece)
}

/// Puts a regular file, or gives it one more name where it was put under another one.
fn put_once<H: Host, S: FlushStore + Drop>(
    arriving: &mut Arriving<H>,
    volume: &mut Opened<S>,
    goods: Goods,
    piece: &mut [u8],
) -> Result<(), Fault>
    ensures types { S.types_of volume.new.session.store ≡ S.types_of volume.old.session.store }
    ensures folder { volume.new.folder ≡ volume.old.folder }
    ensures does { 384 ≤ length piece.old → PutsOnce goods.entry (length piece.old) result
        (line_of (S.types_of volume.old.session.store) (S.state_of volume.old.session.store) volume.old.folder volume.old.session.volume
        volume.old.told arriving.old.linked arriving.old.sources)
        (line_of (S.types_of volume.new.session.store) (S.state_of volume.new.session.store) volume.new.folder volume.new.session.volume
        volume.new.told arriving.new.linked arriving.new.sources) }
{
    if is_done(arriving, volume, goods)? {
        return Ok(());
    }
    match arriving.host.open(goods.source) {
        Ok(file) => put_regular(arriving, volume, goods, file, piece),
        Err(error) => Err(system(arriving.alloc, goods.source.as_bytes(), error)),
    }
}

/// Puts what a pipe or a device has.
fn put_special<H: Host, S: FlushStore + Drop>(
    arriving: &mut Arriving<H>,
    volume: &mut Opened<S>,
    goods: Goods,
    piece: &mut [u8],
) -> Result<(), Fault>
    ensures types { S.types_of volume.new.session.store ≡ S.types_of volume.old.session.store }
    ensures folder { volume.new.folder ≡ volume.old.folder }
    ensures does { 384 ≤ length piece.old → PutsSpecial goods.entry (length piece.old) result
        (line_of (S.types_of volume.old.session.store) (S.state_of volume.old.session.store) volume.old.folder volume.old.session.volume
        volume.old.told arriving.old.linked arriving.old.sources)
        (line_of (S.types_of volume.new.session.store) (S.state_of volume.new.session.store) volume.new.folder volume.new.session.volume
        volume.new.told arriving.new.linked arriving.new.sources) }
{
    let file = match arriving.host.open(goods.source) {
        Ok(file) => file,
        Err(error) => return Err(system(arriving.alloc, goods.source.as_bytes(), error)),
    };
    let mut incoming: OpenFile<H> = OpenFile { file };
    put_plain(arriving, volume, goods, &mut incoming, piece)
}

/// Puts a file, or what a pipe or a device has.
fn put_by_kind<H: Host, S: FlushStore + Drop>(
    arriving: &mut Arriving<H>,
    volume: &mut Opened<S>,
    goods: Goods,
    piece: &mut [u8],
) -> Result<(), Fault>
    ensures types { S.types_of volume.new.session.store ≡ S.types_of volume.old.session.store }
    ensures folder { volume.new.folder ≡ volume.old.folder }
    ensures does { 384 ≤ length piece.old → PutsByKind goods.entry (length piece.old) result
        (line_of (S.types_of volume.old.session.store) (S.state_of volume.old.session.store) volume.old.folder volume.old.session.volume
        volume.old.told arriving.old.linked arriving.old.sources)
        (line_of (S.types_of volume.new.session.store) (S.state_of volume.new.session.store) volume.new.folder volume.new.session.volume
        volume.new.told arriving.new.linked arriving.new.sources) }
{
    match goods.attributes.kind {
        Kind::File => put_once(arriving, volume, goods, piece),
        _ => put_special(arriving, volume, goods, piece),
    }
}

/// The place of what goes to a goal: where that is a folder, under its own name.
fn place_by<'p>(goal: Goal<'p>, source: &'p str) -> Place<'p>
    ensures goes { GoesBy result goal.entry source.now }
    ensures slash { result.has_slash ≡ goal_slash goal.entry }
{
    goal.place(own_name(source).as_bytes())
}

/// The place of what goes to a goal and is no folder, so that no slash may follow its name.
fn place_of_file<'p>(
    alloc: Global,
    goal: Goal<'p>,
    source: &'p str,
    path: &str,
) -> Result<Place<'p>, Fault>
    ensures { IfOk result (λ place. (goal_slash goal.entry ≡ false) × GoesBy place goal.entry source.now) }
{
    let place = place_by(goal, source);
    if place.has_slash {
        return Err(at(alloc, path, Reason::NoFolder));
    }
    Ok(place)
}

/// Puts a file at a goal, or what a pipe or a device has.
fn put_one_file<H: Host, S: FlushStore + Drop>(
    arriving: &mut Arriving<H>,
    volume: &mut Opened<S>,
    goal: Goal,
    from: (&str, &Attributes),
    path: &str,
    piece: &mut [u8],
) -> Result<(), Fault>
    ensures types { S.types_of volume.new.session.store ≡ S.types_of volume.old.session.store }
    ensures folder { volume.new.folder ≡ volume.old.folder }
    ensures does { 384 ≤ length piece.old → PutsFileTo from.entry.0.now goal.entry from.entry.1.now (length piece.old) result
        (line_of (S.types_of volume.old.session.store) (S.state_of volume.old.session.store) volume.old.folder volume.old.session.volume
        volume.old.told arriving.old.linked arriving.old.sources)
        (line_of (S.types_of volume.new.session.store) (S.state_of volume.new.session.store) volume.new.folder volume.new.session.volume
        volume.new.told arriving.new.linked arriving.new.sources) }
{
    let (source, attributes) = from;
    let place = place_of_file(arriving.alloc, goal, source, path)?;
    let told = path_of(arriving.alloc, goal, path, own_name(source))?;
    let goods = Goods {
        place,
        path: &told,
        source,
        attributes,
    };
    put_by_kind(arriving, volume, goods, piece)
}

/// Puts a folder into one that is there, by its number.
fn fill_there<H: Host, S: FlushStore + Drop>(
    arriving: &mut Arriving<H>,
    volume: &mut Opened<S>,
    from: (&str, &Attributes),
    path: &str,
    number: u32,
    piece: &mut [u8],
) -> Result<(), Fault>
    ensures types { S.types_of volume.new.session.store ≡ S.types_of volume.old.session.store }
    ensures folder { volume.new.folder ≡ volume.old.folder }
    ensures does { 384 ≤ length piece.old → FillsThere number from.entry.1.now (length piece.old) result
        (line_of (S.types_of volume.old.session.store) (S.state_of volume.old.session.store) volume.old.folder volume.old.session.volume
        volume.old.told arriving.old.linked arriving.old.sources)
        (line_of (S.types_of volume.new.session.store) (S.state_of volume.new.session.store) volume.new.folder volume.new.session.volume
        volume.new.told arriving.new.linked arriving.new.sources) }
{
    let alloc = arriving.alloc;
    let frame = enter_there(arriving, volume, from, path.as_bytes(), number)?;
    put_folder(arriving, volume, alloc, frame, piece)
}

/// Puts a folder at a place.
fn fill_at<H: Host, S: FlushStore + Drop>(
    arriving: &mut Arriving<H>,
    volume: &mut Opened<S>,
    goods: Goods,
    piece: &mut [u8],
) -> Result<(), Fault>
    ensures types { S.types_of volume.new.session.store ≡ S.types_of volume.old.session.store }
    ensures folder { volume.new.folder ≡ volume.old.folder }
    ensures does { 384 ≤ length piece.old → FillsAt goods.entry (length piece.old) result
        (line_of (S.types_of volume.old.session.store) (S.state_of volume.old.session.store) volume.old.folder volume.old.session.volume
        volume.old.told arriving.old.linked arriving.old.sources)
        (line_of (S.types_of volume.new.session.store) (S.state_of volume.new.session.store) volume.new.folder volume.new.session.volume
        volume.new.told arriving.new.linked arriving.new.sources) }
{
    let alloc = arriving.alloc;
    let frame = enter(arriving, volume, goods)?;
    put_folder(arriving, volume, alloc, frame, piece)
}

/// Puts a folder at a goal; one without a name of its own fills the folder that is there.
fn put_one_folder<H: Host, S: FlushStore + Drop>(
    arriving: &mut Arriving<H>,
    volume: &mut Opened<S>,
    goal: Goal,
    from: (&str, &Attributes),
    path: &str,
    piece: &mut [u8],
) -> Result<(), Fault>
    ensures types { S.types_of volume.new.session.store ≡ S.types_of volume.old.session.store }
    ensures folder { volume.new.folder ≡ volume.old.folder }
    ensures does { 384 ≤ length piece.old → PutsFolderTo from.entry.0.now goal.entry from.entry.1.now (length piece.old) result
        (line_of (S.types_of volume.old.session.store) (S.state_of volume.old.session.store) volume.old.folder volume.old.session.volume
        volume.old.told arriving.old.linked arriving.old.sources)
        (line_of (S.types_of volume.new.session.store) (S.state_of volume.new.session.store) volume.new.folder volume.new.session.volume
        volume.new.told arriving.new.linked arriving.new.sources) }
{
    let (source, attributes) = from;
    let name = own_name(source);
    match goal {
        Goal::Into(number) if name.is_empty() => {
            fill_there(arriving, volume, from, path, number, piece)
        }
        _ => {
            let told = path_of(arriving.alloc, goal, path, name)?;
            let goods = Goods {
                place: place_by(goal, source),
                path: &told,
                source,
                attributes,
            };
            fill_at(arriving, volume, goods, piece)
        }
    }
}

/// Puts what stands at a path of the system, whose links are followed.
fn put_one<H: Host, S: FlushStore + Drop>(
    arriving: &mut Arriving<H>,
    volume: &mut Opened<S>,
    putting: &Putting,
    source: &str,
    piece: &mut [u8],
) -> Result<(), Fault>
    ensures types { S.types_of volume.new.session.store ≡ S.types_of volume.old.session.store }
    ensures folder { volume.new.folder ≡ volume.old.folder }
    ensures does { 384 ≤ length piece.old → PutsOne putting.now.path.now (nat_lt 1 (length putting.now.sources.now)) (length piece.old)
        source.now result
        (line_of (S.types_of volume.old.session.store) (S.state_of volume.old.session.store) volume.old.folder volume.old.session.volume
        volume.old.told arriving.old.linked arriving.old.sources)
        (line_of (S.types_of volume.new.session.store) (S.state_of volume.new.session.store) volume.new.folder volume.new.session.volume
        volume.new.told arriving.new.linked arriving.new.sources) }
{
    let alloc = arriving.alloc;
    if source.is_empty() {
        return Err(Fault::Volume(Reason::Empty));
    }
    let attributes = match arriving.host.attributes_through(source) {
        Ok(attributes) => attributes,
        Err(error) => return Err(system(alloc, source.as_bytes(), error)),
    };
    let folder = volume.folder;
    let are_several = putting.sources.len() > 1;
    let goal = find_to(&volume.session, alloc, folder, putting.path, are_several)?;
    let from = (source, &attributes);
    match attributes.kind {
        Kind::Folder => put_one_folder(arriving, volume, goal, from, putting.path, piece),
        _ => put_one_file(arriving, volume, goal, from, putting.path, piece),
    }
}

/// Puts a source: standard input, or what stands at a path of the system.
fn put_source<H: Host, S: FlushStore + Drop>(
    arriving: &mut Arriving<H>,
    volume: &mut Opened<S>,
    putting: &Putting,
    source: &str,
    piece: &mut [u8],
    input: &mut impl Read,
) -> Result<(), Fault>
    ensures types { S.types_of volume.new.session.store ≡ S.types_of volume.old.session.store }
    ensures folder { volume.new.folder ≡ volume.old.folder }
    ensures does { 384 ≤ length piece.old → PutsSource putting.now.has_lines putting.now.path.now (nat_lt 1 (length putting.now.sources.now))
        (length piece.old) source.now result
        (line_of (S.types_of volume.old.session.store) (S.state_of volume.old.session.store) volume.old.folder volume.old.session.volume
        volume.old.told arriving.old.linked arriving.old.sources)
        (line_of (S.types_of volume.new.session.store) (S.state_of volume.new.session.store) volume.new.folder volume.new.session.volume
        volume.new.told arriving.new.linked arriving.new.sources) }
{
    if source == "-" {
        return put_stream(arriving, volume, putting, piece, input);
    }
    put_one(arriving, volume, putting, source, piece)
}

/// Puts sources one behind the other, and keeps their faults.
fn put_each<H: Host, S: FlushStore + Drop>(
    arriving: &mut Arriving<H>,
    volume: &mut Opened<S>,
    putting: &Putting,
    piece: &mut [u8],
    input: &mut impl Read,
) -> Result<(), Fault>
    ensures types { S.types_of volume.new.session.store ≡ S.types_of volume.old.session.store }
    ensures folder { volume.new.folder ≡ volume.old.folder }
    ensures does { 384 ≤ length piece.old → PutsInTurn putting.now.has_lines putting.now.path.now (nat_lt 1 (length putting.now.sources.now))
        (length piece.old) (map (λ source. source.now) putting.now.sources.now) result
        (line_of (S.types_of volume.old.session.store) (S.state_of volume.old.session.store) volume.old.folder volume.old.session.volume
        volume.old.told arriving.old.linked arriving.old.sources)
        (line_of (S.types_of volume.new.session.store) (S.state_of volume.new.session.store) volume.new.folder volume.new.session.volume
        volume.new.told arriving.new.linked arriving.new.sources) }
{
    for source in putting.sources {
        let done = put_source(arriving, volume, putting, source, piece, input);
        volume.told.go_on(done)?;
    }
    Ok(())
}

/// Puts all sources.
fn put_all<H: Host, S: FlushStore + Drop>(
    arriving: &mut Arriving<H>,
    volume: &mut Opened<S>,
    putting: &Putting,
    input: &mut impl Read,
) -> Result<(), Fault>
    ensures types { S.types_of volume.new.session.store ≡ S.types_of volume.old.session.store }
    ensures folder { volume.new.folder ≡ volume.old.folder }
    ensures does { PutsSources putting.now.has_lines putting.now.path.now (nat_lt 1 (length putting.now.sources.now)) 1048576
        (map (λ source. source.now) putting.now.sources.now) result
        (line_of (S.types_of volume.old.session.store) (S.state_of volume.old.session.store) volume.old.folder volume.old.session.volume
        volume.old.told arriving.old.linked arriving.old.sources)
        (line_of (S.types_of volume.new.session.store) (S.state_of volume.new.session.store) volume.new.folder volume.new.session.volume
        volume.new.told arriving.new.linked arriving.new.sources) }
{
    let mut piece = room_for_piece(arriving.alloc)?;
    if putting.sources.len() > 1 {
        let (folder, path) = (volume.folder, putting.path);
        let _goal = find_to(&volume.session, arriving.alloc, folder, path, true)?;
    }
    put_each(arriving, volume, putting, &mut piece, input)
}

/// `put`: brings files in, folders with all below them, and what standard input has. Into a folder that is there each goes under its own name, and of a folder
/// that is named without one, as by `/.` at its end, what is in it. Where there are several sources the path has to be a folder. A file takes the place of one
/// that is there. Its name comes behind all its bytes, so that it is whole at each moment.
pub fn put<H: Host, S: FlushStore + Drop>(
    host: &H,
    volume: &mut Opened<S>,
    alloc: Global,
    putting: Putting,
    input: &mut impl Read,
) -> Result<(), Fault>
    ensures types { S.types_of volume.new.session.store ≡ S.types_of volume.old.session.store }
    ensures folder { volume.new.folder ≡ volume.old.folder }
    ensures does { PutsAll putting.entry.has_lines putting.entry.path.now (nat_lt 1 (length putting.entry.sources.now)) 1048576
        (map (λ source. source.now) putting.entry.sources.now) result
        (line_of (S.types_of volume.old.session.store) (S.state_of volume.old.session.store) volume.old.folder volume.old.session.volume volume.old.told)
        (line_of (S.types_of volume.new.session.store) (S.state_of volume.new.session.store) volume.new.folder volume.new.session.volume volume.new.told) }
{
    let disk = match putting.disk {
        Some(path) => host.attributes_through(path).ok(),
        None => None,
    };
    let mut arriving = Arriving::begin(host, alloc, disk);
    let done = put_all(&mut arriving, volume, &putting, input);
    arriving.end();
    done
}
