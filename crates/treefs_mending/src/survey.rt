// A walk over all names of a volume.

ghost use Rattle.std.specs.Prelude.{◌≡◌, ◌++◌, ◌∷◌, [], IfOk};
ghost use Rattle.treefs_lookup.specs.Readable.{readable};
ghost use Rattle.treefs_mending.specs.Surveys.{first_survey, inode_count, met, names_below, survey_of, visited, walked, with_unreached};
ghost use Rattle.treefs_mending.specs.Tallies.{with_name};

use crate::lead::{Lead, lead_at, lead_of};
use crate::names::{Name, push_name, push_names};
use crate::tally::{Tally, count_name};
use std::alloc::{AllocError, Global};
use std::marker::Model;
use treefs_edits::Tree;
use treefs_format::paths::LEAVES;
use treefs_lookup::{find_inode, next_leaf};
use xn_state::Store;

/// A directory that a name leads to, or inode 1.
#[derive(Clone, Copy)]
pub struct Directory {
    /// Its number.
    pub number: u32,
    /// The block of its inode.
    pub block: u32,
}

/// What the names of a volume lead to.
pub struct Survey {
    /// The names that are one too many: they lead to no inode, to inode 1, or to a directory that another name leads to that was met before; or
    /// they stand in a directory that is not found. In the order in which they were met.
    pub surplus: Vec<Name>,
    /// The directories that the other names lead to, in the order in which they were found, inode 1 before all others.
    pub directories: Vec<Directory>,
    /// By inode number, how many of the other names lead there; as far as they lead.
    pub tallies: Vec<Tally>,
}

impl Model for Survey {
    ghost use Rattle.treefs_mending.specs.Surveys as value;

    ghost Value = { value.Survey };

    ghost view = { λ s. record {
      surplus = s.surplus.items;
      directories = s.directories.items;
      tallies = s.tallies.items;
    } };
}

/// Written by hand, so that a function that drops one calls this: a derived drop is proved anew in each such function.
impl Drop for Survey {
    fn drop(self) {
        let Survey {
            surplus: _,
            directories: _,
            tallies: _,
        } = self;
    }
}

/// Before any name is met.
fn first_survey<S: Store>(alloc: Global, store: &S, tree: Tree) -> Result<Survey, AllocError>
    ensures { IfOk result (λ survey. survey ≡ first_survey (readable (S.state_of store.now) tree.fs.number) tree.top) }
{
    let mut directories = Vec::new(alloc);
    if let Lead::NewDirectory(block) = lead_of(find_inode(store, tree.fs, tree.top, 1), false) {
        directories.push(Directory { number: 1, block })?;
    }
    Ok(Survey {
        surplus: Vec::new(alloc),
        directories,
        tallies: Vec::new(alloc),
    })
}

impl Survey {
    /// A directory is found, by a name in the directory of a number.
    fn find(&mut self, number: u32, block: u32, directory: u32) -> Result<(), AllocError>
        ensures { IfOk result (λ _. self.new ≡ record self.old {
          directories = self.old.directories ++ record { number = number; block = block } ∷ [];
          tallies = with_name self.old.tallies number directory;
        }) }
    {
        self.directories.push(Directory { number, block })?;
        count_name(&mut self.tallies, number, directory)
    }

    /// A name is met in the directory of a number.
    fn meet<S: Store>(
        &mut self,
        store: &S,
        tree: Tree,
        directory: u32,
        name: Name,
    ) -> Result<(), AllocError>
        ensures { IfOk result (λ _. self.new ≡ met (readable (S.state_of store.now) tree.fs.number) tree.top directory self.old name) }
    {
        match lead_at(store, tree, &self.tallies, name.number) {
            Lead::Surplus => push_name(&mut self.surplus, name),
            Lead::NewDirectory(block) => self.find(name.number, block, directory),
            Lead::File => count_name(&mut self.tallies, name.number, directory),
        }
    }

    /// All names of a directory are met.
    fn visit<S: Store>(
        &mut self,
        alloc: Global,
        store: &S,
        tree: Tree,
        directory: Directory,
    ) -> Result<(), AllocError>
        ensures { IfOk result (λ _. self.new ≡ visited (readable (S.state_of store.now) tree.fs.number) tree.top self.old directory) }
    {
        let mut names = Vec::new(alloc);
        push_names(&mut names, store, tree.fs, directory.block)?;
        for name in &names {
            self.meet(store, tree, directory.number, *name)?;
        }
        Ok(())
    }

    /// The directories are visited in the order in which they are found.
    fn walk<S: Store>(&mut self, alloc: Global, store: &S, tree: Tree) -> Result<(), AllocError>
        ensures { IfOk result (λ _. self.new ≡ walked (readable (S.state_of store.now) tree.fs.number) tree.top inode_count 0 self.old) }
    {
        for place in 0..LEAVES as usize {
            if place >= self.directories.len() {
                return Ok(());
            }
            let directory = self.directories[place];
            self.visit(alloc, store, tree, directory)?;
        }
        Ok(())
    }

    /// The names of a directory are one too many, if it is one and is not found.
    fn note_names_below<S: Store>(
        &mut self,
        store: &S,
        tree: Tree,
        lead: Lead,
    ) -> Result<(), AllocError>
        ensures { IfOk result (λ _. self.new ≡ record self.old { surplus = self.old.surplus ++ names_below (readable (S.state_of store.now) tree.fs.number) lead }) }
    {
        match lead {
            Lead::NewDirectory(block) => push_names(&mut self.surplus, store, tree.fs, block),
            Lead::Surplus | Lead::File => Ok(()),
        }
    }

    /// The names of directories that are not found are one too many.
    fn note_unreached<S: Store>(&mut self, store: &S, tree: Tree) -> Result<(), AllocError>
        ensures { IfOk result (λ _. self.new ≡ with_unreached (readable (S.state_of store.now) tree.fs.number) tree.top self.old) }
    {
        let mut from = 0;
        while let Some(leaf) = next_leaf(store, tree.fs, tree.top, from) {
            let lead = lead_at(store, tree, &self.tallies, leaf.number + 1);
            self.note_names_below(store, tree, lead)?;
            from = leaf.number + 1;
        }
        Ok(())
    }
}

/// Surveys all names of a volume, breadth-first from inode 1, the buckets of a directory rising; then those of directories that no name leads to,
/// numbers rising. `Err` comes only for want of memory.
pub fn survey_names<S: Store>(alloc: Global, store: &S, tree: Tree) -> Result<Survey, AllocError>
    ensures { IfOk result (λ survey. survey ≡ survey_of (readable (S.state_of store.now) tree.fs.number) tree.top) }
{
    let mut survey = first_survey(alloc, store, tree)?;
    survey.walk(alloc, store, tree)?;
    survey.note_unreached(store, tree)?;
    Ok(survey)
}
