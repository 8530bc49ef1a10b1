// The library's types on a world that runs.

ghost use Rattle.std.specs.Prelude.{◌≡◌, ◌≤◌, ◌<◌, ◌+◌, ℕ, IfSome, IsTrue, false};
ghost use Rattle.xn_model.specs.Languages.{Extends};
ghost use Rattle.xn_model.specs.Root.{has_type};
ghost use Rattle.ffs_model.specs.Library.{library_layout};
ghost use Rattle.ffs_model.specs.Volumes.{HasNoRoot, VolumeKeeps, no_edits};
ghost use Rattle.templates.specs.Tables.{HasTemplate};
ghost use Rattle.ffs_format.specs.Library.{file_system_templates};
ghost use Rattle.xn_state.specs.States.{own_types};
ghost use Rattle.xn_state.specs.Events.{reply_of};
ghost use Rattle.volume_pair.specs.Kept.{HasLibrary};
ghost use Rattle.volume_pair.specs.LibraryTypes.{IsInstalledAt, IsLibraryType, IsRemounted};

use ffs_format::law::templates_are_the_librarys;
use ffs_format::templates;
use std::alloc::Global;
use store_types::BLOCK_LEN;
use templates::law::templates_are_read;
use templates::{Template, pointer, write_block};
use world::{Event, Reply, Running};

/// How many types the library has, from 3 on.
const TYPES: usize = 3;

/// How many of the library's types block 0 has, from the first one on.
fn types_there(root: &[u8; BLOCK_LEN]) -> usize
    ensures few { result ≤ 3 }
    ensures there { (i : ℕ) → i < result → IsTrue (has_type root.now (3 + i)) }
    ensures next { result < 3 → has_type root.now (3 + result) ≡ false }
{
    if pointer(root, 0) == 0 {
        0
    } else if pointer(root, 1) == 0 {
        1
    } else if pointer(root, 2) == 0 {
        2
    } else {
        TYPES
    }
}

/// Whether a template was installed, at this place of the catalogue.
fn is_installed_at(reply: &Reply, place: usize) -> bool
    requires { place < 3 }
    ensures { IsTrue result → IsInstalledAt (reply_of reply.now) place }
{
    match reply {
        Reply::Installed(made) => made.ty as usize == TYPES + place,
        _ => false,
    }
}

/// Installs a template; whether it has this place of the catalogue then.
fn install_at(running: &mut Running, template: &Template, place: usize) -> bool
    requires { place < 3 }
    ensures says { IsTrue result → HasTemplate (own_types running.new.state) (3 + place) template.now }
    ensures more { Extends (own_types running.old.state) (own_types running.new.state) }
    ensures rootless { (fs : ℕ) → fs < 32 → HasNoRoot running.old.state.lives fs → HasNoRoot running.new.state.lives fs }
{
    templates_are_read();
    running.rules();
    let block = write_block(template);
    let event = Event::Install(block);
    is_installed_at(&running.step(&event), place)
}

/// Installs the library's types from a place of the catalogue on; whether all are there then.
fn install_from(running: &mut Running, templates: &[Template], there: usize) -> bool
    requires few { there ≤ 3 }
    requires templates { templates.now ≡ file_system_templates }
    requires types { (i : ℕ) → i < there → IsLibraryType (own_types running.old.state) (3 + i) }
    ensures types { IsTrue result → (i : ℕ) → i < 3 → IsLibraryType (own_types running.new.state) (3 + i) }
    ensures rootless { (fs : ℕ) → fs < 32 → HasNoRoot running.old.state.lives fs → HasNoRoot running.new.state.lives fs }
{
    for place in there..TYPES {
        if !install_at(running, &templates[place], place) {
            return false;
        }
    }
    true
}

/// A world that was just mounted, with those of the library's types installed that are not there; they are not on the disk yet. What
/// is known of volumes stays. `None` where a template is refused, or other types stand in their places.
pub fn with_library(alloc: Global, running: Running) -> Option<Running>
    requires { IsRemounted running }
    ensures has { IfSome result (λ r. HasLibrary (own_types r.state) r.state) }
    ensures keeps { IfSome result (λ r. (fs : ℕ) → fs < 32 → VolumeKeeps (own_types running.state) library_layout fs no_edits running.state →
        VolumeKeeps (own_types r.state) library_layout fs no_edits r.state) }
{
    templates_are_the_librarys();
    running.rules();
    let there = types_there(running.root_bytes());
    if there == TYPES {
        return Some(running);
    }
    let Ok(templates) = templates(alloc) else {
        return None;
    };
    let mut running = running;
    if !install_from(&mut running, &templates, there) {
        return None;
    }
    running.rules();
    Some(running)
}
