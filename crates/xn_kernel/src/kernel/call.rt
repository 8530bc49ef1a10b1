// Calls as values, and the call that no store has.

ghost use Rattle.std.specs.Prelude.{◌≡◌, ◌≢◌};
ghost use Rattle.xn_model.specs.Results.{Gives};
ghost use Rattle.xn_model.specs.Calls.{drop_root_of, read_of};
ghost use Rattle.xn_state.specs.declared.answer.Answer.TheVariants.{Read};
ghost use Rattle.xn_state.specs.declared.call.Call.TheVariants.{Drain};
ghost use Rattle.xn_state.specs.Answers.{StateAnswers};
ghost use Rattle.xn_model.specs.Lives.{StoreState};
ghost use Rattle.xn_state.specs.States.{own_types};
ghost use Rattle.xn_kernel.specs.Kernels.{KernelValue};

use crate::kernel::Kernel;
use disk::Lane;
use xn_state::{Answer, Call, EditId, Fs, Refusal, Store};

impl<L: Lane> Kernel<L> {
    /// Makes a call for a file system, any but `drain`.
    pub fn call(&mut self, fs: Fs, call: &Call) -> Answer
        requires { call.now ≢ Drain }
        ensures answer { StateAnswers (own_types self.old.state) self.old.state fs.number call.now self.new.state result }
        ensures rest { self.new ≡ record self.old { state = self.new.state } }
    {
        let mut answer = Answer::Free(0);
        self.call_into(fs, call, &mut answer);
        answer
    }

    /// The same, with the answer left where the caller keeps answers: an answer has room for a block's bytes.
    #[inline(always)]
    pub fn call_into(&mut self, fs: Fs, call: &Call, answer: &mut Answer)
        requires { call.now ≢ Drain }
        ensures answer { StateAnswers (own_types self.old.state) self.old.state fs.number call.now self.new.state answer.new }
        ensures rest { self.new ≡ record self.old { state = self.new.state } }
    {
        match call {
            Call::Init { ty, bytes } => *answer = Answer::Init(self.init(fs, *ty, bytes)),
            Call::Propose { block, edit } => *answer = Answer::Propose(self.propose(
                fs, *block, edit,
            )),
            Call::MakeRoot { block } => *answer = Answer::MakeRoot(self.make_root(fs, *block)),
            Call::DropRoot => *answer = Answer::DropRoot(self.drop_root(fs)),
            Call::Forget { block } => *answer = Answer::Forget(self.forget(fs, *block)),
            Call::Read { block } => self.read_into(fs, *block, answer),
            Call::Root => *answer = Answer::Root(self.root(fs)),
            Call::Kind { block } => *answer = Answer::Kind(self.kind(fs, *block)),
            Call::Tainted { block } => *answer = Answer::Tainted(self.state().tainted(*block)),
            Call::Pending => *answer = Answer::Pending(self.pending(fs)),
            Call::Floor => *answer = Answer::Floor(self.floor(fs)),
            Call::Free => *answer = Answer::Free(self.state().free()),
            Call::Pick => *answer = Answer::Pick(self.state().pick()),
            Call::Drain => unreachable!(),
        }
    }

    /// A copy of a block's newest bytes. It is not inlined, so that no other call clears the room of one.
    #[inline(never)]
    fn read_into(&self, fs: Fs, block: u32, answer: &mut Answer)
        ensures { answer.new ≡ Read (read_of self.now.state fs.number block) }
    {
        *answer = Answer::Read(self.read(fs, block).copied());
    }

    /// Empties the file system's root slot, in block 0: the block that stood there is dropped. Refused are, in this order, an
    /// empty slot (`NotOwned`), a block that points to others (`NotEmpty`), too many pending entries (`TooManyPending`), no
    /// number left (`Exhausted`), last `NoMemory`. A refusal changes nothing.
    pub fn drop_root(&mut self, fs: Fs) -> Result<EditId, Refusal>
        ensures state { Gives (drop_root_of (own_types self.old.state) self.old.state fs.number) self.old.state self.new.state result }
        ensures rest { self.new ≡ record self.old { state = self.new.state } }
    {
        self.state.drop_root(fs)
    }
}
