// One file or symbolic link of a volume that is brought out.

use crate::filling::Outgoing;
use host_trees::{Attributes, Host, Kind, PIECE, Progress, Settings};
use std::alloc::{AllocError, Global};
use std::collections::BTreeMap;
use std::io::ErrorKind;
use std::str;
use system_files::{Links, WriteFault};
use tree_lines::{Fault, Node, Reason, Told, View, at, at_bytes, not_written, system};

/// Where a file is brought to.
#[derive(Clone, Copy, Debug)]
pub struct Goal<'g> {
    /// A path of the system.
    pub target: &'g str,
    pub links: Links,
    /// Whether permissions and owner of a file that is there stay, while it gets other bytes and another time.
    pub keeps_owner: bool,
}

/// What a line that brings files out keeps.
pub struct Leaving<'v, V: View, H: Host> {
    pub view: &'v V,
    pub host: &'v H,
    pub alloc: Global,
    pub told: &'v mut Told,
    /// Whether permissions, owner and time are set.
    pub keeps_attributes: bool,
    pub progress: Progress,
    /// Room for a piece.
    piece: Vec<u8>,
    /// Where files with several names were brought to, by their numbers.
    linked: BTreeMap<u32, String>,
    /// Their numbers, by where they were brought to.
    numbers: BTreeMap<String, u32>,
}

impl<'v, V: View, H: Host> Drop for Leaving<'v, V, H> {
    fn drop(self) {
        let Leaving {
            view: _,
            host: _,
            alloc: _,
            told: _,
            keeps_attributes: _,
            progress: _,
            piece: _,
            linked: _,
            numbers: _,
        } = self;
    }
}

impl<'v, V: View, H: Host> Leaving<'v, V, H> {
    /// Nothing is brought out yet.
    pub fn begin(
        view: &'v V,
        host: &'v H,
        alloc: Global,
        told: &'v mut Told,
        keeps_attributes: bool,
    ) -> Result<Leaving<'v, V, H>, AllocError> {
        Ok(Leaving {
            view,
            host,
            alloc,
            told,
            keeps_attributes,
            progress: Progress::begin(host),
            piece: vec![in alloc; 0u8; PIECE]?,
            linked: BTreeMap::new(alloc),
            numbers: BTreeMap::new(alloc),
        })
    }

    /// Takes the line of progress away.
    pub fn end(self) {
        let Leaving {
            view: _,
            host,
            alloc: _,
            told: _,
            keeps_attributes: _,
            progress,
            piece: _,
            linked: _,
            numbers: _,
        } = self;
        progress.end(host);
    }

    /// What is set of what is brought out.
    pub fn settings_of(&self, node: &Node) -> Option<Settings> {
        if self.keeps_attributes {
            Some(Settings {
                permissions: node.permissions,
                uid: node.uid,
                gid: node.gid,
                modified: node.modified,
            })
        } else {
            None
        }
    }

    /// What stands at a path of the system, if something does. No link is followed.
    pub fn attributes_at(&self, target: &str) -> Result<Option<Attributes>, Fault> {
        match self.host.attributes(target) {
            Ok(attributes) => Ok(Some(attributes)),
            Err(error) if error.kind() == ErrorKind::NotFound => Ok(None),
            Err(error) => Err(system(self.alloc, target.as_bytes(), error)),
        }
    }

    /// The bytes of a file of the volume, as they are written out.
    pub fn outgoing(&mut self, node: &Node) -> Outgoing<'_, V, H> {
        Outgoing {
            view: self.view,
            host: self.host,
            alloc: self.alloc,
            number: node.number,
            size: node.size,
            piece: &mut self.piece,
            progress: &mut self.progress,
            fault: None,
        }
    }

    /// What is set of a file that is brought to a goal.
    fn settings_at(&self, node: &Node, goal: Goal) -> Option<Settings> {
        let settings = self.settings_of(node)?;
        match self.host.attributes_through(goal.target) {
            Ok(there) if goal.keeps_owner && there.kind == Kind::File => Some(Settings {
                permissions: there.permissions,
                uid: there.uid,
                gid: there.gid,
                modified: settings.modified,
            }),
            _ => Some(settings),
        }
    }

    /// Writes a file of the system that has the bytes of one of the volume.
    fn write(&mut self, node: &Node, path: &[u8], goal: Goal) -> Result<(), Fault> {
        let (alloc, host) = (self.alloc, self.host);
        let settings = self.settings_at(node, goal);
        let mut outgoing = self.outgoing(node);
        let done = host.write_file(goal.target, goal.links, settings.as_ref(), &mut outgoing);
        let fault = outgoing.fault;
        match (fault, done) {
            (Some(reason), _) => Err(at_bytes(alloc, path, reason)),
            (None, Ok(())) => Ok(()),
            (None, Err(fault)) => Err(not_written(alloc, goal.target.as_bytes(), fault)),
        }
    }

    /// Gives a file that was brought out one more name, where that can be. Answers whether it has it.
    fn link(&mut self, old: &str, target: &str) -> Result<bool, Fault> {
        let is_over = match self.attributes_at(target)? {
            None => false,
            Some(there) if there.kind == Kind::File => {
                if self
                    .attributes_at(old)?
                    .is_some_and(|first| first.is_same(&there))
                {
                    return Ok(true);
                }
                true
            }
            Some(_) => return Ok(false),
        };
        match self.host.make_hard_link(self.alloc, old, target, is_over) {
            Ok(()) => Ok(true),
            Err(WriteFault::System(_)) => Ok(false),
            Err(fault) => Err(not_written(self.alloc, target.as_bytes(), fault)),
        }
    }

    /// Keeps where a file was brought to, to link it where another of its names is met.
    fn note(&mut self, node: &Node, target: &str) -> Result<(), AllocError> {
        let path = String::from_str(self.alloc, target)?;
        let _before = self.linked.insert(node.number, path)?;
        let path = String::from_str(self.alloc, target)?;
        let _before = self.numbers.insert(path, node.number)?;
        Ok(())
    }

    /// Forgets the file that was brought to a path, where something else takes that: what stands there then is no name of it.
    fn forget(&mut self, target: &str) {
        if let Some(number) = self.numbers.remove(target) {
            let _path = self.linked.remove(&number);
        }
    }

    /// Brings a file out that has several names.
    fn bring_linked(&mut self, node: &Node, path: &[u8], goal: Goal) -> Result<(), Fault> {
        let alloc = self.alloc;
        let old = match self.linked.get(&node.number) {
            Some(old) => Some(String::from_str(alloc, old.as_str())?),
            None => None,
        };
        if let Some(old) = old
            && self.link(old.as_str(), goal.target)?
        {
            return Ok(());
        }
        self.write(node, path, goal)?;
        self.note(node, goal.target)?;
        Ok(())
    }

    /// Brings a file out to a path of the system; one that is there is replaced as a whole.
    pub fn bring_file(&mut self, node: &Node, path: &[u8], goal: Goal) -> Result<(), Fault> {
        self.forget(goal.target);
        if node.links > 1 {
            self.bring_linked(node, path, goal)?;
        } else {
            self.write(node, path, goal)?;
        }
        self.progress.add_file(self.host, self.alloc);
        Ok(())
    }

    /// The same below a folder: a link, a device or the like that is there stays as it is.
    pub fn bring_file_below(
        &mut self,
        node: &Node,
        path: &[u8],
        target: &str,
        keeps_owner: bool,
    ) -> Result<(), Fault> {
        match self.attributes_at(target)? {
            Some(there) if there.kind == Kind::Other => {
                Err(at(self.alloc, target, Reason::Special))
            }
            _ => {
                let goal = Goal {
                    target,
                    links: Links::Refused,
                    keeps_owner,
                };
                self.bring_file(node, path, goal)
            }
        }
    }

    /// Brings a symbolic link out; one that is there is replaced.
    pub fn bring_link(&mut self, node: &Node, path: &[u8], target: &str) -> Result<(), Fault> {
        let alloc = self.alloc;
        let leads = match self.view.target(alloc, node.number) {
            Ok(leads) => leads,
            Err(reason) => return Err(at_bytes(alloc, path, reason)),
        };
        let Ok(leads) = str::from_utf8(&leads) else {
            return Err(at_bytes(alloc, path, Reason::NotText));
        };
        let is_over = match self.attributes_at(target)? {
            None => false,
            Some(there) if there.kind == Kind::SymbolicLink => true,
            Some(_) => return Err(at(alloc, target, Reason::There)),
        };
        let settings = self.settings_of(node);
        match self
            .host
            .make_symbolic_link(alloc, leads, target, is_over, settings.as_ref())
        {
            Ok(()) => Ok(()),
            Err(error) => Err(system(alloc, target.as_bytes(), error)),
        }
    }
}
