// The calls of clients.

ghost use Rattle.std.specs.Prelude.{◌≡◌};
ghost use Rattle.xn_model.specs.Worlds as model;
ghost use Rattle.xn_state.specs.declared.answer.Answer.{Answer};
ghost use Rattle.xn_state.specs.declared.reply.Reply.TheVariants.{Answered};
ghost use Rattle.xn_state.specs.Answers.{call_of};
ghost use Rattle.xn_state.specs.Events.{reply_of};
ghost use Rattle.world.specs.Worlds.{world_with};

use crate::running::Running;
use std::alloc::Allocator;
use store_types::BLOCK_LEN;
use xn_kernel::DrainStop;
use xn_state::{Answer, Call, Fs, Reply, Stopped, Store};

/// Makes a reply an answer, if it is none.
#[inline(always)]
fn make_answer(reply: &mut Reply)
    ensures { (answer : Answer) × (reply.new ≡ Answered answer) }
{
    match reply {
        Reply::Answered(_) => {}
        _ => *reply = Reply::Answered(Answer::Free(0)),
    }
}

impl<A: Allocator> Running<A> {
    /// A client's call. Its answer is left in the reply at once.
    #[inline(always)]
    pub(crate) fn call(&mut self, fs: Fs, call: &Call, reply: &mut Reply)
        ensures { model.Step (world_with self.old) (model.Client fs.number (call_of call.now)) (reply_of reply.new) (world_with self.new) }
    {
        match call {
            Call::Drain => self.drain(fs, reply),
            _ => {
                make_answer(reply);
                match reply {
                    Reply::Answered(answer) => self.kernel.call_into(fs, call, answer),
                    _ => unreachable!(),
                }
            }
        }
    }

    /// A template is installed.
    #[inline(never)]
    pub(crate) fn install(&mut self, template: &[u8; BLOCK_LEN], reply: &mut Reply)
        ensures { model.Step (world_with self.old) (model.Install template.now) (reply_of reply.new) (world_with self.new) }
    {
        *reply = match self.kernel.install(template) {
            Ok(installed) => Reply::Installed(installed),
            Err(refusal) => Reply::Refused(refusal),
        };
    }

    /// Writes all that is pending. It is not inlined either.
    #[inline(never)]
    fn drain(&mut self, fs: Fs, reply: &mut Reply)
        ensures { model.Step (world_with self.old) (model.Client fs.number model.Drain) (reply_of reply.new) (world_with self.new) }
    {
        match self.kernel.drain() {
            Ok(writes) => *reply = Reply::Answered(Answer::Drain(Ok(writes))),
            Err(
                DrainStop {
                    writes,
                    ticket,
                    refusal,
                },
            ) => match ticket {
                None => *reply = Reply::Answered(Answer::Drain(Err(Stopped { writes, refusal }))),
                Some(_ticket) => unreachable!(),
            },
        }
    }
}
