// Faults that end nothing, and are told at the end of a line.

ghost use Rattle.std.specs.Prelude.{◌≡◌, ◌<◌, ◌==◌, ◌↔◌, IfErr, IfOk, IsTrue, length};
ghost use Rattle.tree_lines.specs.Telling.{EndsLine, GoesOn, Tells, count_of};
ghost use Rattle.tree_lines.specs.declared.fault.Fault.TheVariants.{NoMemory};

use crate::fault::Fault;
use std::alloc::{AllocError, Global};

/// So many faults of one line are told; of more their number.
const MOST_TOLD: usize = 1_000;

/// Faults that ended nothing, and are to be told at the end of a line.
#[derive(Debug, Drop)]
pub struct Told {
    faults: Vec<Fault>,
    more: u64,
}

impl Told {
    /// Nothing is to be told.
    pub fn nothing(alloc: Global) -> Told
        ensures { length result.faults.items ≡ 0 }
    {
        Told {
            faults: Vec::new(alloc),
            more: 0,
        }
    }

    /// Keeps a fault that ends nothing. `Err` comes only for want of memory.
    pub fn tell(&mut self, fault: Fault) -> Result<(), AllocError>
        ensures { IfOk result (λ done. Tells self.old self.new fault) }
    {
        if self.faults.len() < MOST_TOLD {
            self.faults.push(fault)?;
        } else {
            self.more = self.more.saturating_add(1);
        }
        Ok(())
    }

    /// Keeps the fault of a path after which a word goes on with the next one, and passes those on after which it can't: want of memory, and of streams and
    /// of the disk.
    pub fn go_on(&mut self, done: Result<(), Fault>) -> Result<(), Fault>
        ensures { GoesOn self.old self.new done result }
    {
        match done {
            Ok(()) => Ok(()),
            Err(fault) => {
                if ends_line(&fault) {
                    return Err(fault);
                }
                Ok(self.tell(fault)?)
            }
        }
    }

    /// How many faults there are so far.
    pub fn count(&self) -> u64
        ensures { result ≡ count_of self.now }
    {
        self.more.saturating_add(self.faults.len() as u64)
    }

    /// Whether nothing is to be told.
    pub fn is_empty(&self) -> bool
        ensures { result ≡ (length self.now.faults.items == 0) }
    {
        self.faults.is_empty()
    }

    /// What is to be told of a line, of which nothing is kept any more.
    pub fn take(&mut self, alloc: Global) -> Vec<Fault>
        ensures { 0 < length self.old.faults.items → 0 < length result.items }
    {
        let mut told = Vec::new(alloc);
        std::mem::swap(&mut told, &mut self.faults);
        if self.more > 0 {
            let _ = told.push(Fault::More(self.more));
            self.more = 0;
        }
        told
    }
}

/// Whether nothing more of a line can be done after a fault.
fn ends_line(fault: &Fault) -> bool
    ensures { IsTrue result ↔ EndsLine fault.now }
{
    match fault {
        Fault::NoMemory | Fault::Stream(_) | Fault::Flush(_) | Fault::Disk(_) => true,
        _ => false,
    }
}
