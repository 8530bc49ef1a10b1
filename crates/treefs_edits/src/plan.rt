// A plan of a call, and how it is carried out.

ghost use Rattle.std.specs.Prelude.{◌≡◌, ◌⊎◌, ◌++◌, [], IfErr, IfOk, List, Ok, Err};
ghost use Rattle.treefs_model.specs.Acts as model;
ghost use Rattle.treefs_edits.specs.Plans.{Begins, Does, Keeps, LacksMemory, Plan};

use crate::act::Act;
use crate::runs::run;
use crate::start::{Start, begin_all, forget_all, lacks_memory};
use edit_list::Fs;
use std::alloc::{AllocError, Global};
use store_types::Refusal;
use treefs_model::Fault;
use xn_state::Store;

/// What a call is to do.
pub trait Planned {
    /// As a value.
    ghost plan: { Self → Plan };

    /// Adds the blocks that it begins. `Err` comes only for want of memory.
    fn push_starts(&self, starts: &mut Vec<Start>) -> Result<(), AllocError>
        ensures { IfOk result (λ _. starts.new.items ≡ starts.old.items ++ (plan self.now).starts) };

    /// Adds its acts, which may name these blocks, in the order in which they were begun. `Err` comes only for want of memory.
    fn push_acts(&self, alloc: Global, acts: &mut Vec<Act>, begun: &[u32]) -> Result<(), AllocError>
        ensures { IfOk result (λ _. acts.new.items ≡ acts.old.items ++ (plan self.now).acts begun.now) };
}

/// What a call is to do that begins no block.
pub trait ActsAlone {
    /// Its acts, as values.
    ghost acts_of: { Self → List model.Act };

    /// Adds its acts. `Err` comes only for want of memory.
    fn push_alone(&self, alloc: Global, acts: &mut Vec<Act>) -> Result<(), AllocError>
        ensures { IfOk result (λ _. acts.new.items ≡ acts.old.items ++ acts_of self.now) };
}

impl<P: ActsAlone> Planned for P {
    ghost plan = { λ p. record { starts = []; acts = λ begun. P.acts_of p } };

    fn push_starts(&self, _starts: &mut Vec<Start>) -> Result<(), AllocError> {
        Ok(())
    }

    fn push_acts(
        &self,
        alloc: Global,
        acts: &mut Vec<Act>,
        _begun: &[u32],
    ) -> Result<(), AllocError> {
        self.push_alone(alloc, acts)
    }
}

/// Carries out a plan. Where it stops, the acts before the one that was refused stand, and of the begun blocks those are forgotten that
/// nothing names. `NoSpace` comes where no block is free; all other faults are the kernel's.
pub fn carry_out<S: Store, P: Planned>(
    alloc: Global,
    store: &mut S,
    fs: Fs,
    planned: &P,
) -> Result<(), Fault>
    ensures types { S.types_of store.new ≡ S.types_of store.old }
    ensures does { Does (S.types_of store.old) fs.number (P.plan planned.now) (S.state_of store.old) (S.state_of store.new) result }
{
    match begin_planned(alloc, store, fs, planned) {
        Ok(begun) => make_acts(alloc, store, fs, planned, &begun),
        Err(fault) => Err(fault),
    }
}

/// Begins the blocks of a plan, all or none, and answers their numbers in their order.
fn begin_planned<S: Store, P: Planned>(
    alloc: Global,
    store: &mut S,
    fs: Fs,
    planned: &P,
) -> Result<Vec<u32>, Fault>
    ensures types { S.types_of store.new ≡ S.types_of store.old }
    ensures ok { IfOk result (λ begun. Begins (S.types_of store.old) fs.number (P.plan planned.now).starts [] (S.state_of store.old) (S.state_of store.new)
        (Ok begun.items)) }
    ensures err { IfErr result (λ fault. LacksMemory (S.state_of store.old) (S.state_of store.new) fault
        ⊎ Begins (S.types_of store.old) fs.number (P.plan planned.now).starts [] (S.state_of store.old) (S.state_of store.new) (Err fault)) }
{
    let mut starts = Vec::new(alloc);
    match planned.push_starts(&mut starts) {
        Ok(()) => begin_all(alloc, store, fs, &starts),
        Err(error) => Err(lacks_memory(error)),
    }
}

/// Makes the acts of a plan. Where one is refused, the begun blocks are forgotten.
fn make_acts<S: Store, P: Planned>(
    alloc: Global,
    store: &mut S,
    fs: Fs,
    planned: &P,
    begun: &[u32],
) -> Result<(), Fault>
    ensures types { S.types_of store.new ≡ S.types_of store.old }
    ensures keeps { Keeps (S.types_of store.old) fs.number begun.now ((P.plan planned.now).acts begun.now) (S.state_of store.old) (S.state_of store.new)
        result }
{
    let mut acts = Vec::new(alloc);
    let made = match planned.push_acts(alloc, &mut acts, begun) {
        Ok(()) => run(store, fs, acts),
        Err(AllocError) => Err(Refusal::NoMemory),
    };
    match made {
        Ok(()) => Ok(()),
        Err(reason) => {
            forget_all(store, fs, begun);
            Err(Fault::Kernel(reason))
        }
    }
}
