// The templates of all types.

ghost use Rattle.std.specs.Prelude.{◌≡◌, ◌⊎◌, ◌↔◌, ℕ, List, ◌+◌, ◌-◌, ◌≤◌, length, map, slice_set, Some, None, IsTrue, IfOk, IfSome};
ghost use Rattle.std.specs.Option.{option_copied};
ghost use Rattle.xn_model.specs.Lists.{put};
ghost use Rattle.templates.specs.Decided.{DecidesOwned};
ghost use Rattle.templates.specs.Filled.{Inserts};
ghost use Rattle.templates.specs.Meaning.{numbers_of_pair};
ghost use Rattle.templates.specs.Tables.{IsTable, no_templates, template_of, table_types};

use crate::built_ins::builtin;
use crate::root::CATALOGUE_PLACES;
use crate::template::Template;
use arrayvec::ArrayVec;
use std::alloc::{AllocError, Global};
use std::marker::Model;
use store_types::BLOCK_LEN;
use udf_run::{Pair, ReadSet, constant_size, owns, owns_tracked, size};
use udf_verify::Role;

/// The type of blocks that hold a template.
pub const TEMPLATE_TYPE: u32 = 1;

/// The type of the catalogue's first place.
pub const FIRST_INSTALLED_TYPE: u32 = 3;

/// Whether blocks of the type point to nothing and may use all their bytes, as those of templates and of data: no program is run for them.
fn is_leaf(ty: u32) -> bool
    ensures { IsTrue result ↔ ((ty ≡ 1) ⊎ (ty ≡ 2)) }
{
    ty == 1 || ty == 2
}

/// The templates by type: 0 to 2 are built in, and type 3 + i stands at place i of the catalogue, i from 0 to 15.
pub struct Table {
    root: Template,
    leaf: Template,
    places: Vec<Option<Template>>,
}

impl Model for Table {
    ghost use Rattle.std.specs.Prelude.{◌≡◌};
    ghost use Rattle.templates.specs.Tables.{TableValue, IsTable};
    ghost use Rattle.templates.specs.BuiltIns.{built_in_root, leaf_template};

    ghost Value = { TableValue };

    ghost view = { λ t. t.places.items };

    ghost invariant = { λ t. IsTable t.places.items × (t.root ≡ built_in_root) × (t.leaf ≡ leaf_template) };
}

/// Written by hand, so that a function that drops one calls this: a derived drop is proved anew in each such function.
impl Drop for Table {
    fn drop(self) {
        let Table {
            root: _,
            leaf: _,
            places: _,
        } = self;
    }
}

impl Table {
    /// The built-in templates alone.
    pub fn new(alloc: Global) -> Result<Table, AllocError>
        ensures { IfOk result (λ table. table ≡ no_templates) }
    {
        let root = builtin(alloc, 0)?;
        let leaf = builtin(alloc, 2)?;
        let mut places = Vec::with_capacity(alloc, CATALOGUE_PLACES)?;
        for _place in 0..CATALOGUE_PLACES {
            places.push_reserved(None);
        }
        Ok(Table { root, leaf, places })
    }

    /// Puts a template into the empty place of a type from 3 to 18.
    pub fn put(&mut self, ty: u32, template: Template)
        requires first { 3 ≤ ty }
        requires last { ty ≤ 18 }
        requires empty { template_of self.old ty ≡ None }
        ensures { self.new ≡ slice_set self.old (ty - 3) (Some template) }
    {
        prove!(template.owns().role() == Role::Owns);
        self.places[(ty - FIRST_INSTALLED_TYPE) as usize] = Some(template);
    }

    /// What is known of every table. This does nothing.
    pub fn rules(&self)
        ensures { IsTable self.now }
    {
        let _root = &self.root;
    }

    /// The template of a type, or `None` where the type is not installed.
    pub fn get(&self, ty: u32) -> Option<&Template>
        ensures value { option_copied result ≡ template_of self.now ty }
        ensures table { IsTable self.now }
    {
        match ty {
            0 => Some(&self.root),
            1 | 2 => Some(&self.leaf),
            _ => match self.places.get((ty - FIRST_INSTALLED_TYPE) as usize) {
                Some(place) => place.as_ref(),
                None => None,
            },
        }
    }

    /// Whether there is such a type.
    pub fn is_installed(&self, ty: u32) -> bool
        ensures { result ≡ (table_types self.now).installed ty }
    {
        self.get(ty).is_some()
    }

    /// Leaves in `out` the blocks that a block of an installed type points to, each with its type, in the order of its
    /// owns program, whatever stood there.
    pub fn owns(&self, ty: u32, block: &[u8; BLOCK_LEN], out: &mut ArrayVec<Pair, 128>)
        requires { IsTrue ((table_types self.now).installed ty) }
        ensures { map numbers_of_pair out.new.items ≡ (table_types self.now).owned ty block.now }
    {
        if is_leaf(ty) {
            return out.clear();
        }
        match self.get(ty) {
            Some(template) => owns(template.owns(), block, out),
            None => unreachable!(),
        }
    }

    /// The same, and which chunks of the block decide it.
    pub fn owns_tracked(
        &self,
        ty: u32,
        block: &[u8; BLOCK_LEN],
        out: &mut ArrayVec<Pair, 128>,
    ) -> ReadSet
        requires { IsTrue ((table_types self.now).installed ty) }
        ensures pairs { map numbers_of_pair out.new.items ≡ (table_types self.now).owned ty block.now }
        ensures reads { DecidesOwned (table_types self.now) ty block.now result.chunks }
    {
        match self.get(ty) {
            Some(template) => owns_tracked(template.owns(), block, out),
            None => unreachable!(),
        }
    }

    /// The chunks that decide which blocks a block of a type points to once bytes are written into it at a place, where these put exactly the blocks `adds`
    /// into slots of it that named none, and leave the other pointers, as far as that is seen with no run of a program.
    pub fn filled(
        &self,
        ty: u32,
        old: &[u8; BLOCK_LEN],
        at: usize,
        bytes: &[u8],
        adds: &[(u32, u32)],
    ) -> Option<ReadSet>
        requires { at + length bytes.now ≤ 512 }
        ensures pairs { IfSome result (λ reads. Inserts (table_types self.now) ty old.now adds.now (put old.now at bytes.now)) }
        ensures reads { IfSome result (λ reads. DecidesOwned (table_types self.now) ty (put old.now at bytes.now) reads.chunks) }
    {
        if is_leaf(ty) {
            return None;
        }
        let rows = self.get(ty)?.rows()?;
        if rows.is_fill(old, at, bytes, adds) {
            Some(rows.reads())
        } else {
            None
        }
    }

    /// Whether each block of a type may use all its bytes, as far as that is known with no run of a program.
    pub fn may_use_all(&self, ty: u32) -> bool
        ensures { IsTrue result → (block : List ℕ) → (table_types self.now).size ty block ≡ 512 }
    {
        if is_leaf(ty) {
            return true;
        }
        match self.get(ty) {
            Some(template) => match constant_size(template.size()) {
                Some(size) => size == BLOCK_LEN as u16,
                None => false,
            },
            None => false,
        }
    }

    /// From which byte on a block of an installed type is zero, at most 512.
    pub fn size(&self, ty: u32, block: &[u8; BLOCK_LEN]) -> u16
        requires { IsTrue ((table_types self.now).installed ty) }
        ensures value { result ≡ (table_types self.now).size ty block.now }
        ensures small { result ≤ 512 }
    {
        if is_leaf(ty) {
            return BLOCK_LEN as u16;
        }
        match self.get(ty) {
            Some(template) => size(template.size(), block),
            None => unreachable!(),
        }
    }
}
