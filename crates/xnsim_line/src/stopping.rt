// A script is run up to a stop: it ends immediately before the block write that comes after so many.

ghost use Rattle.std.specs.Prelude.{◌≡◌, ◌+◌, ◌++◌, ◌∷◌, ◌<◌, ◌≤◌, ◌^◌, [], codes, cond, map, false, IfErr, IfNone, IfOk, IfSome, IsTrue, MatchBool, OnOk};
ghost use Rattle.std.specs.Io.KnownBytes.{Appends};
ghost use Rattle.xn_model.specs.Calls.{pick_of};
ghost use Rattle.xn_model.specs.Images.{joined};
ghost use Rattle.xn_model.specs.Worlds as model;
ghost use Rattle.xn_model.specs.Worlds.{drain_for, write_out};
ghost use Rattle.script.specs.Scripts.{SpellEvents};
ghost use Rattle.xn_state.specs.Events.{event_of, reply_of};
ghost use Rattle.world.specs.Worlds.{is_any_in_flight, world_with};
ghost use Rattle.xnsim_line.specs.Done.{IsRunFault};
ghost use Rattle.xnsim_line.specs.Runs.{RunsLines};
ghost use Rattle.xnsim_line.specs.Stops.{is_drain, is_write, writes_by, IsHeldBack, IsLineHeldBack, IsLineWithin, IsStoppedRun};

use crate::Fault;
use crate::invocation::Stop;
use script::{ScriptLine, print_reply};
use std::alloc::{Allocator, Global};
use std::io;
use std::io::Write;
use std::thread::Threads;
use world::{Answer, Call, Event, Reply, World};
use xn_state::Fs;

/// Prints that the run stopped.
fn print_stopped<W: Write>(out: &mut W) -> io::Result<()>
    ensures { OnOk result (Appends (W.contents out.old) (W.contents out.new) (codes "stopped" ++ 10 ∷ [])) }
{
    writeln!(out, "stopped")
}

/// Whether the event writes a block by itself: it lands a write that is under way, or lets it fail.
fn is_write<A: Allocator>(world: &World<A>, event: &Event) -> bool
    ensures write { result ≡ is_write (world_with world.now) (event_of event.now) }
    ensures up { IsTrue result → world.now.down ≡ false }
{
    match event {
        Event::Land(block) => world.is_in_flight(*block),
        Event::Fail(block, _) => world.is_in_flight(*block),
        _ => false,
    }
}

/// Whose drain an event is, if it is one.
fn drained_by(event: &Event) -> Option<Fs>
    ensures some { IfSome result (λ fs. event_of event.now ≡ model.Client fs.number model.Drain) }
    ensures none { IfNone result (is_drain (event_of event.now) ≡ false) }
{
    match event {
        Event::Call(fs, Call::Drain) => Some(*fs),
        _ => None,
    }
}

/// How many block writes came of an event with this reply. A sync that fails is none.
fn writes_by(event: &Event, reply: &Reply) -> u32
    ensures { result ≡ writes_by (event_of event.now) (reply_of reply.now) }
{
    if let Event::FailSync(_) = event {
        return 0;
    }
    match reply {
        Reply::Landed | Reply::Fault => 1,
        Reply::Answered(Answer::Drain(Ok(writes))) => *writes,
        _ => 0,
    }
}

/// The block that is picked.
fn pick<A: Allocator>(rt: &(impl Threads + Sync), world: &mut World<A>, fs: Fs) -> Option<u32>
    requires { world.old.down ≡ false }
    ensures picked { result ≡ pick_of world.old.state }
    ensures same { world_with world.new ≡ world_with world.old }
{
    match world.step(rt, &Event::Call(fs, Call::Pick)) {
        Reply::Answered(Answer::Pick(picked)) => picked,
        _ => unreachable!(),
    }
}

/// Writes a block, from its begin to its finish.
fn write_out<A: Allocator>(rt: &(impl Threads + Sync), world: &mut World<A>, block: u32)
    requires { world.old.down ≡ false }
    ensures written { world_with world.new ≡ write_out (world_with world.old) block }
    ensures up { world.new.down ≡ false }
{
    let _begun = world.step(rt, &Event::Begin(block));
    let _landed = world.step(rt, &Event::Land(block));
    let _synced = world.step(rt, &Event::Sync(block));
    let _finished = world.step(rt, &Event::Finish(block));
}

/// Writes the picked block again and again, at most so many times, and answers how often that was.
fn write_at_most<A: Allocator>(
    rt: &(impl Threads + Sync),
    world: &mut World<A>,
    fs: Fs,
    limit: u32,
) -> u32
    requires { world.old.down ≡ false }
    ensures rounds { drain_for limit 0 (world_with world.old) ≡ (result, world_with world.new) }
    ensures few { result ≤ limit }
    ensures up { world.new.down ≡ false }
{
    for writes in 0..limit {
        match pick(rt, world, fs) {
            None => return writes,
            Some(block) => write_out(rt, world, block),
        }
    }
    limit
}

/// One event, of which as many block writes come as may.
fn step_counted<A: Allocator>(
    rt: &(impl Threads + Sync),
    world: &mut World<A>,
    event: &Event,
    left: &mut u64,
) -> Reply
    requires { (reply : model.Reply) (after : model.World) → model.Step (world_with world.old) (event_of event.now) reply after →
        writes_by (event_of event.now) reply < 2 ^ 32 → writes_by (event_of event.now) reply ≤ left.old }
    ensures step { model.Step (world_with world.old) (event_of event.now) (reply_of result) (world_with world.new) }
    ensures counted { writes_by (event_of event.now) (reply_of result) + left.new ≡ left.old }
{
    let reply = world.step(rt, event);
    *left -= u64::from(writes_by(event, &reply));
    reply
}

/// A drain with no write under way, of which at most so many may come: those that are left. `None` is for one more.
fn drain_counted<A: Allocator>(
    rt: &(impl Threads + Sync),
    world: &mut World<A>,
    fs: Fs,
    limit: u32,
    left: &mut u64,
) -> Option<Reply>
    requires up { world.old.down ≡ false }
    requires calm { is_any_in_flight world.old.state ≡ false }
    requires limit { left.old ≡ limit }
    ensures some { IfSome result (λ reply. model.Step (world_with world.old) (model.Client fs.number model.Drain) (reply_of reply) (world_with world.new)
        × (writes_by (model.Client fs.number model.Drain) (reply_of reply) + left.new ≡ left.old)) }
    ensures none { IfNone result (IsHeldBack (world_with world.old) (model.Client fs.number model.Drain) left.old (world_with world.new)) }
{
    world.rules();
    let writes = write_at_most(rt, world, fs, limit);
    match pick(rt, world, fs) {
        None => {
            *left -= u64::from(writes);
            Some(Reply::Answered(Answer::Drain(Ok(writes))))
        }
        Some(_block) => None,
    }
}

/// A drain. `None` is for a block write that may not come any more.
fn drain_within<A: Allocator>(
    rt: &(impl Threads + Sync),
    world: &mut World<A>,
    fs: Fs,
    left: &mut u64,
) -> Option<Reply>
    ensures some { IfSome result (λ reply. model.Step (world_with world.old) (model.Client fs.number model.Drain) (reply_of reply) (world_with world.new)
        × (writes_by (model.Client fs.number model.Drain) (reply_of reply) + left.new ≡ left.old)) }
    ensures none { IfNone result (IsHeldBack (world_with world.old) (model.Client fs.number model.Drain) left.old (world_with world.new)) }
{
    let drain = Event::Call(fs, Call::Drain);
    if world.is_down() {
        return Some(step_counted(rt, world, &drain, left));
    }
    if world.is_any_in_flight() {
        return Some(step_counted(rt, world, &drain, left));
    }
    match u32::try_from(*left) {
        Ok(limit) => drain_counted(rt, world, fs, limit, left),
        Err(_) => Some(step_counted(rt, world, &drain, left)),
    }
}

/// An event that is no drain. `None` is for a block write that may not come any more.
fn step_within<A: Allocator>(
    rt: &(impl Threads + Sync),
    world: &mut World<A>,
    event: &Event,
    left: &mut u64,
) -> Option<Reply>
    requires { is_drain (event_of event.now) ≡ false }
    ensures some { IfSome result (λ reply. model.Step (world_with world.old) (event_of event.now) (reply_of reply) (world_with world.new)
        × (writes_by (event_of event.now) (reply_of reply) + left.new ≡ left.old)) }
    ensures none { IfNone result (IsHeldBack (world_with world.old) (event_of event.now) left.old (world_with world.new)) }
{
    if !is_write(world, event) {
        return Some(step_counted(rt, world, event, left));
    }
    if *left == 0 {
        return None;
    }
    Some(step_counted(rt, world, event, left))
}

/// One event. `None` is for a block write that may not come any more; the world is then as before that write.
fn go_on_within<A: Allocator>(
    rt: &(impl Threads + Sync),
    world: &mut World<A>,
    event: &Event,
    left: &mut u64,
) -> Option<Reply>
    ensures some { IfSome result (λ reply. model.Step (world_with world.old) (event_of event.now) (reply_of reply) (world_with world.new)
        × (writes_by (event_of event.now) (reply_of reply) + left.new ≡ left.old)) }
    ensures none { IfNone result (IsHeldBack (world_with world.old) (event_of event.now) left.old (world_with world.new)) }
{
    match drained_by(event) {
        Some(fs) => drain_within(rt, world, fs, left),
        None => step_within(rt, world, event, left),
    }
}

/// Runs the event that a line spells, and prints its reply; or prints that the run stopped, where a block write may not come any
/// more, and answers false.
fn run_line_within<'a, A: Allocator, W: Write>(
    rt: &(impl Threads + Sync),
    world: &mut World<A>,
    line: ScriptLine<'_>,
    left: &mut u64,
    out: &mut W,
) -> Result<bool, Fault<'a>>
    ensures run { IfOk result (λ ran. MatchBool ran
        (IsLineWithin (world_with world.old) line.entry left.old (W.contents out.old) (W.contents out.new) (world_with world.new) left.new)
        (IsLineHeldBack (world_with world.old) line.entry left.old (W.contents out.old) (W.contents out.new) (world_with world.new))) }
    ensures fault { IfErr result IsRunFault }
{
    let mut event = Event::Begin(0);
    line.event_into(&mut event);
    match go_on_within(rt, world, &event, left) {
        Some(reply) => {
            print_reply(out, &reply)?;
            Ok(true)
        }
        None => {
            print_stopped(out)?;
            Ok(false)
        }
    }
}

/// Where a stop loses what is not settled, the disk has from then on what a crash leaves that keeps no open write.
fn lose_unsettled<A: Allocator>(
    rt: &(impl Threads + Sync),
    alloc: Global,
    world: &mut World<A>,
    stop: Stop,
)
    ensures { world.new.image ≡ cond stop.loses (model.left (world_with world.old) []) world.old.image }
{
    if stop.loses {
        let _mounted = world.step(rt, &Event::Crash(Vec::new(alloc)));
    }
}

/// Runs the events that these lines spell on a world, to their end or to a stop immediately before the block write that comes after
/// so many, where perhaps all that is not settled is lost. Prints a reply an event, and whether the run stopped.
pub fn run_lines_until<'a, A: Allocator, W: Write>(
    rt: &(impl Threads + Sync),
    alloc: Global,
    world: &mut World<A>,
    lines: Vec<ScriptLine<'_>>,
    stop: Stop,
    out: &mut W,
) -> Result<(), Fault<'a>>
    requires { SpellEvents lines.items }
    ensures run { OnOk result (RunsLines lines.entry.items (λ events. IsStoppedRun (world_with world.old) events stop (W.contents out.old) (W.contents out.new)
        (joined world.new.image))) }
    ensures fault { IfErr result IsRunFault }
{
    let mut left = stop.writes;
    for line in lines {
        if !run_line_within(rt, world, line, &mut left, out)? {
            lose_unsettled(rt, alloc, world, stop);
            return Ok(());
        }
    }
    Ok(())
}
