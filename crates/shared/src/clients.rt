// The calls of a client, in a thread of its own.

ghost use Rattle.std.specs.Prelude.{◌≢◌, All, IfOk};
ghost use Rattle.std.specs.List.{AllZip};
ghost use Rattle.xn_state.specs.declared.call.Call.TheVariants.{Drain};
ghost use Rattle.shared.specs.Hubs.{MayAnswer};

use crate::lock::Gate;
use crate::sharing::Shared;
use disk::Lane;
use durable_floor::Naming;
use std::alloc::{AllocError, Global};
use std::sync::Wait;
use xn_kernel::{Answer, Call, Fs};

/// Makes the calls of a file system one after another, each under the lock, and none of them a `drain`. The answers are as
/// many as the calls, each that of its call. `Err` comes only for want of memory, before any call.
pub fn worker<L: Lane, G: Gate, K: Naming, R: Wait>(
    shared: &Shared<L, G, K>,
    rt: &R,
    alloc: Global,
    fs: Fs,
    calls: &[Call],
) -> Result<Vec<Answer>, AllocError>
    requires { All (λ call. call ≢ Drain) calls.now }
    ensures { IfOk result (λ answers. AllZip (MayAnswer L.bytes_of L.crash_leaves fs.number) calls.now answers.items) }
{
    let mut answers = Vec::with_capacity(alloc, calls.len())?;
    for call in calls {
        let answer = shared.call(rt, fs, call);
        answers.push_reserved(answer);
    }
    Ok(answers)
}
