// A file of the system with several names is put once, and gets the others as links.

ghost use Rattle.std.specs.Prelude.{◌≡◌, IfOk, None, string_bytes};
ghost use Rattle.tree_lines.specs.Trees.{IsThereIn};
ghost use Rattle.tree_puts.specs.Actions.{Performs};
ghost use Rattle.tree_puts.specs.Lines.{line_of};
ghost use Rattle.tree_puts.specs.Linking.{GetsName, LinksAs, LinksOver, MovesToPlace, TakesBack};

use crate::arriving::{Arriving, Goods};
use flush_store::FlushStore;
use host_trees::Host;
use tree_lines::{Change, Fault, Opened, Place, Reason, at_bytes, there};

/// So many names are tried for what has no name of its own yet.
const MOST_NAMES: u32 = 10_000;

/// A name in the folder of a place, which nothing has. A crash may leave it.
pub fn free_name<H: Host, S: FlushStore + Drop>(
    arriving: &Arriving<H>,
    volume: &Opened<S>,
    goods: Goods,
) -> Result<String, Fault>
    ensures { IfOk result (λ name.
        IsThereIn (S.state_of volume.now.session.store) volume.now.session.volume goods.entry.place.folder (string_bytes name) None) }
{
    let alloc = arriving.alloc;
    for number in 0..MOST_NAMES {
        let name = format!(in alloc; ".xnfs-copy-{number}")?;
        let place = Place {
            folder: goods.place.folder,
            name: name.as_bytes(),
            has_slash: false,
        };
        match there(&volume.session, place) {
            Ok(None) => return Ok(name),
            Ok(Some(_)) => {}
            Err(reason) => return Err(at_bytes(alloc, goods.path, reason)),
        }
    }
    Err(at_bytes(alloc, goods.path, Reason::There))
}

/// Gives a file one more name.
fn link_as<H: Host, S: FlushStore + Drop>(
    arriving: &Arriving<H>,
    volume: &mut Opened<S>,
    goods: Goods,
    number: u32,
    name: &[u8],
) -> Result<(), Fault>
    ensures types { S.types_of volume.new.session.store ≡ S.types_of volume.old.session.store }
    ensures folder { volume.new.folder ≡ volume.old.folder }
    ensures told { volume.new.told ≡ volume.old.told }
    ensures does { Performs (S.types_of volume.old.session.store) volume.old.folder (LinksAs goods.entry number name.now result)
        (S.state_of volume.old.session.store) (S.state_of volume.new.session.store) volume.old.session.volume volume.new.session.volume }
{
    let link = Change::Link {
        number,
        directory: goods.place.folder,
        name,
    };
    volume.make_name(arriving.alloc, goods.path, &link)
}

/// Has what has a name of its folder take that of a place, also where that is another file's. Where that fails the name is taken away.
pub fn move_to_place<H: Host, S: FlushStore + Drop>(
    arriving: &Arriving<H>,
    volume: &mut Opened<S>,
    goods: Goods,
    name: &str,
) -> Result<(), Fault>
    ensures types { S.types_of volume.new.session.store ≡ S.types_of volume.old.session.store }
    ensures folder { volume.new.folder ≡ volume.old.folder }
    ensures told { volume.new.told ≡ volume.old.told }
    ensures does { Performs (S.types_of volume.old.session.store) volume.old.folder (MovesToPlace goods.entry name.now result)
        (S.state_of volume.old.session.store) (S.state_of volume.new.session.store) volume.old.session.volume volume.new.session.volume }
{
    let directory = goods.place.folder;
    let rename = Change::Rename {
        directory,
        name: name.as_bytes(),
        new_directory: directory,
        new_name: goods.place.name,
    };
    let done = volume.make_name(arriving.alloc, goods.path, &rename);
    if done.is_err() {
        take_back(arriving, volume, goods, name);
    }
    done
}

/// Takes a name of the folder of a place away. That this fails is not told beside the fault that was before.
pub fn take_back<H: Host, S: FlushStore + Drop>(
    arriving: &Arriving<H>,
    volume: &mut Opened<S>,
    goods: Goods,
    name: &str,
)
    ensures types { S.types_of volume.new.session.store ≡ S.types_of volume.old.session.store }
    ensures folder { volume.new.folder ≡ volume.old.folder }
    ensures told { volume.new.told ≡ volume.old.told }
    ensures does { Performs (S.types_of volume.old.session.store) volume.old.folder (TakesBack goods.entry name.now)
        (S.state_of volume.old.session.store) (S.state_of volume.new.session.store) volume.old.session.volume volume.new.session.volume }
{
    if volume.is_broken() {
        return;
    }
    let unlink = Change::Unlink {
        directory: goods.place.folder,
        name: name.as_bytes(),
    };
    let _unlinked = volume.make(arriving.alloc, goods.path, &unlink);
}

/// Gives a file one more name, in the place of what has it: under a name beside it first, which then becomes that one.
fn link_over<H: Host, S: FlushStore + Drop>(
    arriving: &Arriving<H>,
    volume: &mut Opened<S>,
    goods: Goods,
    number: u32,
) -> Result<(), Fault>
    ensures types { S.types_of volume.new.session.store ≡ S.types_of volume.old.session.store }
    ensures folder { volume.new.folder ≡ volume.old.folder }
    ensures does { LinksOver goods.entry number result
        (line_of (S.types_of volume.old.session.store) (S.state_of volume.old.session.store) volume.old.folder volume.old.session.volume
        volume.old.told arriving.now.linked arriving.now.sources)
        (line_of (S.types_of volume.new.session.store) (S.state_of volume.new.session.store) volume.new.folder volume.new.session.volume
        volume.new.told arriving.now.linked arriving.now.sources) }
{
    let beside = free_name(arriving, volume, goods)?;
    link_as(arriving, volume, goods, number, beside.as_bytes())?;
    move_to_place(arriving, volume, goods, beside.as_str())
}

/// Gives a file that was put the name of a place, which may be that of another file.
pub fn link<H: Host, S: FlushStore + Drop>(
    arriving: &mut Arriving<H>,
    volume: &mut Opened<S>,
    goods: Goods,
    number: u32,
) -> Result<(), Fault>
    ensures types { S.types_of volume.new.session.store ≡ S.types_of volume.old.session.store }
    ensures folder { volume.new.folder ≡ volume.old.folder }
    ensures does { GetsName goods.entry number result
        (line_of (S.types_of volume.old.session.store) (S.state_of volume.old.session.store) volume.old.folder volume.old.session.volume
        volume.old.told arriving.old.linked arriving.old.sources)
        (line_of (S.types_of volume.new.session.store) (S.state_of volume.new.session.store) volume.new.folder volume.new.session.volume
        volume.new.told arriving.new.linked arriving.new.sources) }
{
    let node = match there(&volume.session, goods.place) {
        Ok(node) => node,
        Err(reason) => return Err(at_bytes(arriving.alloc, goods.path, reason)),
    };
    let Some(node) = node else {
        return link_as(arriving, volume, goods, number, goods.place.name);
    };
    if node.number == number {
        return Ok(());
    }
    if node.is_folder() {
        return Err(at_bytes(arriving.alloc, goods.path, Reason::Folder));
    }
    arriving.forget(volume, goods.place);
    link_over(arriving, volume, goods, number)
}
