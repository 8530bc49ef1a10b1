// All that stands below a folder, name by name.

ghost use Rattle.std.specs.Prelude.{◌≡◌, ◌∷◌, ◌++◌, IfErr, IfOk, None, OnOk, Some, [], length, map, reverse};
ghost use Rattle.std.specs.Option.{option_map};
ghost use Rattle.tree_lines.specs.Walks.{ComesTo, IsUnmet, IsUnseen, LeavesInner, MeetsName, NextName, PassesOver, Reads, Sees};
ghost use Rattle.tree_lines.specs.Walks.{begun, entry_of, gone_into, met_of, outcome_of, progress, step_outcome, with_name, without};
ghost use Rattle.tree_lines.specs.declared.fault.Fault.TheVariants.{NoMemory};

use crate::fault::{Fault, at_bytes};
use crate::node::{Named, Node};
use crate::reason::Reason;
use crate::told::Told;
use crate::view::View;
use std::alloc::{AllocError, Global};
use std::collections::BTreeSet;

/// A name below a folder.
#[derive(Debug, Drop)]
pub struct Step {
    /// In how many folders it stands below the first one.
    pub depth: usize,
    /// The number of the folder that has it.
    pub folder: u32,
    pub name: Vec<u8>,
    /// What stands there.
    pub node: Node,
}

/// What a walk comes to.
#[derive(Debug, Drop)]
pub enum Visit {
    /// A name, a folder's before what is in it.
    Met(Step),
    /// A folder, behind all that is in it.
    Left(Step),
}

/// A folder in which a walk is.
#[derive(Debug, Drop)]
struct Frame {
    /// Its number.
    folder: u32,
    /// How it was met; nothing of the folder where the walk began.
    step: Option<Step>,
    /// Whether its names were read.
    is_read: bool,
    /// Those of them that are still to be met, the last one first.
    waiting: Vec<Named>,
    /// How many bytes its path has.
    length: usize,
}

/// A walk below a folder, in rising order, each folder before what is in it. It keeps the names of the folders in which it is, and no others; so what it
/// comes to may be changed between two steps. The names of a folder are read when the first of them is asked for. A folder that is met a second time, which no
/// sound volume has, is told and left out.
#[derive(Debug, Drop)]
pub struct Walk {
    frames: Vec<Frame>,
    path: Vec<u8>,
    seen: BTreeSet<u32>,
}

/// The names of a folder, the last one first. What can't be read is told.
fn waiting_of<V: View>(
    view: &V,
    alloc: Global,
    told: &mut Told,
    path: &[u8],
    folder: u32,
) -> Result<Vec<Named>, Fault>
    ensures names { IfOk result (λ names. Reads (V.lists view.now) folder told.old told.new (map entry_of (reverse names.items))) }
    ensures err { IfErr result (λ fault. fault ≡ NoMemory) }
{
    match view.names(alloc, folder) {
        Ok(mut names) => {
            names.reverse();
            Ok(names)
        }
        Err(reason) => {
            told.go_on(Err(at_bytes(alloc, path, reason)))?;
            Ok(Vec::new(alloc))
        }
    }
}

/// Adds a name behind a path.
fn push_name(path: &mut Vec<u8>, name: &[u8]) -> Result<(), AllocError>
    ensures { OnOk result (path.new.items ≡ with_name path.old.items name.now) }
{
    if !path.is_empty() && path.last() != Some(&b'/') {
        path.push(b'/')?;
    }
    path.extend_from_slice(name)
}

impl Walk {
    /// A walk below the folder of a number, by whose path all is told.
    pub fn below(alloc: Global, path: &[u8], folder: u32) -> Result<Walk, AllocError>
        ensures { IfOk result (λ walk. progress walk ≡ begun path.now folder) }
    {
        let frame = Frame {
            folder,
            step: None,
            is_read: false,
            waiting: Vec::new(alloc),
            length: path.len(),
        };
        let mut seen = BTreeSet::new(alloc);
        let _is_new = seen.insert(folder)?;
        Ok(Walk {
            frames: Vec::from_array(alloc, [frame])?,
            path: Vec::from_slice(alloc, path)?,
            seen,
        })
    }

    /// Leaves a folder out, by its number, wherever it is met: it is told as one that is met a second time.
    pub fn leave_out(&mut self, folder: u32) -> Result<(), AllocError>
        ensures { OnOk result (progress self.new ≡ without (progress self.old) folder) }
    {
        let _is_new = self.seen.insert(folder)?;
        Ok(())
    }

    /// The path of what was met or left last.
    pub fn path(&self) -> &[u8]
        ensures { result.now ≡ (progress self.now).path }
    {
        &self.path
    }

    /// Leaves out what is in the folder that was met last.
    pub fn pass_over(&mut self)
        ensures { PassesOver (progress self.old) (progress self.new) }
    {
        if let Some(frame) = self.frames.last_mut() {
            frame.is_read = true;
            frame.waiting.clear();
        }
    }

    /// Goes into a folder that was just met.
    fn enter(&mut self, alloc: Global, step: &Step) -> Result<(), AllocError>
        ensures { OnOk result (progress self.new ≡ record (progress self.old) {
          folders =
              (progress self.old).folders ++ gone_into (length self.old.path.items) (met_of step.now) ∷ [];
        }) }
    {
        let (depth, folder) = (step.depth, step.folder);
        let name = Vec::from_slice(alloc, &step.name)?;
        let node = step.node;
        self.frames.push(Frame {
            folder: node.number,
            step: Some(Step {
                depth,
                folder,
                name,
                node,
            }),
            is_read: false,
            waiting: Vec::new(alloc),
            length: self.path.len(),
        })?;
        Ok(())
    }

    /// What stands at a number, as a walk takes it: a folder that was seen before is left out.
    fn look<V: View>(&mut self, view: &V, number: u32) -> Result<Result<Node, Reason>, AllocError>
        ensures frames { self.new.frames ≡ self.old.frames }
        ensures path { self.new.path ≡ self.old.path }
        ensures sees { IfOk result (λ node. Sees (V.shows view.now) number self.old.seen.keys self.new.seen.keys node) }
    {
        let node = match view.node(number) {
            Ok(node) => node,
            Err(reason) => return Ok(Err(reason)),
        };
        if node.is_folder() && !self.seen.insert(node.number)? {
            return Ok(Err(Reason::TwoNames));
        }
        Ok(Ok(node))
    }

    /// Meets a name of a folder; `None` where nothing is to be seen there, which is told.
    fn meet<V: View>(
        &mut self,
        view: &V,
        alloc: Global,
        told: &mut Told,
        folder: u32,
        named: Named,
    ) -> Result<Option<Step>, Fault>
        ensures meets { IfOk result (λ step. MeetsName (V.shows view.now) (progress self.old) told.old (progress self.new) told.new folder
            (entry_of named) (option_map met_of step)) }
        ensures err { IfErr result (λ fault. fault ≡ NoMemory) }
    {
        let depth = self.frames.len().saturating_sub(1);
        push_name(&mut self.path, &named.name)?;
        match self.look(view, named.number)? {
            Ok(node) => {
                let step = Step {
                    depth,
                    folder,
                    name: named.name,
                    node,
                };
                if node.is_folder() {
                    self.enter(alloc, &step)?;
                }
                Ok(Some(step))
            }
            Err(reason) => {
                told.go_on(Err(at_bytes(alloc, &self.path, reason)))?;
                Ok(None)
            }
        }
    }

    /// The next name of the folder in which the walk is, with the number of that folder.
    fn next_name<V: View>(
        &mut self,
        view: &V,
        alloc: Global,
        told: &mut Told,
    ) -> Result<Option<(u32, Named)>, Fault>
        ensures next { IfOk result (λ next. NextName (V.lists view.now) (progress self.old) told.old (progress self.new) told.new
            (option_map (λ x. (x.0, entry_of x.1)) next)) }
        ensures err { IfErr result (λ fault. fault ≡ NoMemory) }
    {
        let Some(frame) = self.frames.last_mut() else {
            return Ok(None);
        };
        self.path.truncate(frame.length);
        if !frame.is_read {
            frame.is_read = true;
            frame.waiting = waiting_of(view, alloc, told, &self.path, frame.folder)?;
        }
        match frame.waiting.pop() {
            Some(name) => Ok(Some((frame.folder, name))),
            None => Ok(None),
        }
    }

    /// What the walk comes to next; nothing at its end. What can't be seen is told.
    pub fn next<V: View>(
        &mut self,
        view: &V,
        alloc: Global,
        told: &mut Told,
    ) -> Result<Option<Visit>, Fault>
        ensures comes { IfOk result (λ visit. ComesTo (V.lists view.now) (V.shows view.now) IsUnseen (progress self.old) told.old (progress self.new) told.new
            (outcome_of visit)) }
        ensures err { IfErr result (λ fault. fault ≡ NoMemory) }
    {
        for _name in 0..u64::MAX {
            let Some((folder, named)) = self.next_name(view, alloc, told)? else {
                return Ok(self.leave());
            };
            if let Some(step) = self.meet(view, alloc, told, folder, named)? {
                return Ok(Some(Visit::Met(step)));
            }
        }
        Ok(None)
    }

    /// The name that the walk comes to next, where it is not asked when a folder is left; nothing at its end.
    pub fn next_met<V: View>(
        &mut self,
        view: &V,
        alloc: Global,
        told: &mut Told,
    ) -> Result<Option<Step>, Fault>
        ensures comes { IfOk result (λ step. ComesTo (V.lists view.now) (V.shows view.now) IsUnmet (progress self.old) told.old (progress self.new) told.new
            (step_outcome step)) }
        ensures err { IfErr result (λ fault. fault ≡ NoMemory) }
    {
        for _visit in 0..u64::MAX {
            match self.next(view, alloc, told)? {
                Some(Visit::Met(step)) => return Ok(Some(step)),
                Some(Visit::Left(_step)) => {}
                None => break,
            }
        }
        Ok(None)
    }

    /// Leaves the folder in which the walk is.
    fn leave(&mut self) -> Option<Visit>
        ensures { LeavesInner (progress self.old) (progress self.new) (outcome_of result) }
    {
        let Frame {
            folder: _,
            step,
            is_read: _,
            waiting: _,
            length: _,
        } = self.frames.pop()?;
        match step {
            Some(step) => Some(Visit::Left(step)),
            None => None,
        }
    }
}
