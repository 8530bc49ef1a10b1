// A script is run.

ghost use Rattle.std.specs.Prelude.{◌≡◌, ◌≤◌, length, IfOk, IfErr, IsOk, OnOk};
ghost use Rattle.xn_model.specs.Images.{joined};
ghost use Rattle.script.specs.Scripts.{SpellEvents};
ghost use Rattle.templates.specs.Formats.{most_formatted};
ghost use Rattle.world.specs.Opened.{IsHeldWhole};
ghost use Rattle.world.specs.Worlds.{world_with};
ghost use Rattle.xnsim_line.specs.Done.{IsFaultOnImage, IsRunFault};
ghost use Rattle.xnsim_line.specs.Runs.{fresh_world, IsPrintedRun, IsRunLine, RunsLines};
ghost use Rattle.xnsim_line.specs.Stops.{IsAskedOn, IsAskedRun};

use crate::Fault;
use crate::invocation::Stop;
use crate::stopping::run_lines_until;
use script::{ScriptLine, print_reply};
use std::alloc::{AllocError, Allocator, Global};
use std::io::Write;
use std::thread::Threads;
use templates::{FormatFault, Template};
use world::{Event, Reply, World};

/// The first mount of a fresh disk.
fn fresh_world(
    rt: &(impl Threads + Sync),
    alloc: Global,
    blocks: u32,
    templates: &[Template],
) -> Result<World, AllocError>
    requires least { 32 ≤ blocks }
    requires most { blocks ≤ most_formatted }
    requires few { length templates.now ≤ 16 }
    ensures { IfOk result (λ world. world_with world ≡ fresh_world blocks templates.now) }
{
    match World::format(rt, alloc, blocks, templates) {
        Ok(world) => Ok(world),
        Err(FormatFault::NoMemory) => Err(AllocError),
        Err(_) => unreachable!(),
    }
}

/// Leaves the event that a line spells in `event`, which holds `Begin(0)` until then, runs it on a world, leaves its reply in `reply`, and prints it.
fn run_line<'a, A: Allocator, W: Write>(
    rt: &(impl Threads + Sync),
    world: &mut World<A>,
    line: ScriptLine<'_>,
    event: &mut Event,
    reply: &mut Reply,
    out: &mut W,
) -> Result<(), Fault<'a>>
    requires { event.old ≡ Event.Begin 0 }
    ensures run { OnOk result (IsRunLine (world_with world.old) line.entry (W.contents out.old) (W.contents out.new) (world_with world.new)) }
    ensures fault { IfErr result IsRunFault }
{
    line.event_into(event);
    world.step_into(rt, event, reply);
    print_reply(out, reply)?;
    Ok(())
}

/// Runs the events that these lines spell on a world, and prints a reply an event. Events and replies have their room here, where it is cleared once
/// for all lines.
#[tactic(auto, using(crate::proofs::ScriptRuns::line_run))]
fn run_lines<'a, A: Allocator, W: Write>(
    rt: &(impl Threads + Sync),
    world: &mut World<A>,
    lines: Vec<ScriptLine<'_>>,
    out: &mut W,
) -> Result<(), Fault<'a>>
    ensures run { OnOk result (RunsLines lines.entry.items (λ events. IsPrintedRun (world_with world.old) events (W.contents out.old) (W.contents out.new)
        (joined world.new.image))) }
    ensures fault { IfErr result IsRunFault }
{
    let mut reply = Reply::Down;
    for line in lines {
        let mut event = Event::Begin(0);
        run_line(rt, world, line, &mut event, &mut reply, out)?;
    }
    Ok(())
}

/// Runs the events that these lines spell on a world, to their end or to a stop.
fn run_asked<'a, A: Allocator, W: Write>(
    rt: &(impl Threads + Sync),
    alloc: Global,
    world: &mut World<A>,
    lines: Vec<ScriptLine<'_>>,
    stop: Option<Stop>,
    out: &mut W,
) -> Result<(), Fault<'a>>
    requires { SpellEvents lines.items }
    ensures run { OnOk result (RunsLines lines.entry.items (λ events. IsAskedOn stop (world_with world.old) events (W.contents out.old) (W.contents out.new)
        (joined world.new.image))) }
    ensures fault { IfErr result IsRunFault }
{
    match stop {
        None => run_lines(rt, world, lines, out),
        Some(stop) => run_lines_until(rt, alloc, world, lines, stop, out),
    }
}

/// The world after a run that ended well.
fn end_run<'a, A: Allocator>(
    world: World<A>,
    ran: Result<(), Fault<'a>>,
) -> Result<World<A>, Fault<'a>>
    requires { IfErr ran IsRunFault }
    ensures ran { OnOk result (IsOk ran.entry) }
    ensures world { IfOk result (λ after. after ≡ world) }
    ensures fault { IfErr result IsRunFault }
{
    ran?;
    Ok(world)
}

/// Runs the events that these lines spell on a fresh disk of so many blocks with these templates, prints a reply an event, and
/// answers the world after them.
pub fn run_script<'a, W: Write>(
    rt: &(impl Threads + Sync),
    alloc: Global,
    blocks: u32,
    templates: &[Template],
    lines: Vec<ScriptLine<'_>>,
    out: &mut W,
) -> Result<World, Fault<'a>>
    requires least { 32 ≤ blocks }
    requires most { blocks ≤ most_formatted }
    requires few { length templates.now ≤ 16 }
    requires lines { SpellEvents lines.items }
    ensures run { IfOk result (λ world. RunsLines lines.entry.items
        (λ events. IsPrintedRun (fresh_world blocks templates.now) events (W.contents out.old) (W.contents out.new) (joined world.image))) }
    ensures fault { IfErr result IsRunFault }
{
    let mut world = fresh_world(rt, alloc, blocks, templates)?;
    let ran = run_lines(rt, &mut world, lines, out);
    end_run(world, ran)
}

/// Runs the events that these lines spell on the disk of a sound image, to their end or to a stop before the block write that comes after so many,
/// prints a reply an event, and answers the world after them. Of any other image the fault is told. Blocks' second lots of bytes have their memory from
/// `rooms`.
pub fn run_on_image<'a, A: Allocator + Copy, W: Write>(
    rt: &(impl Threads + Sync),
    alloc: Global,
    rooms: A,
    image: Vec<u8>,
    lines: Vec<ScriptLine<'_>>,
    stop: Option<Stop>,
    out: &mut W,
) -> Result<World<A>, Fault<'a>>
    requires lines { SpellEvents lines.items }
    ensures run { IfOk result (λ after. RunsLines lines.entry.items
        (λ events. IsAskedRun stop image.items events (W.contents out.old) (W.contents out.new) (joined after.image))) }
    ensures held { OnOk result (IsHeldWhole image.items) }
    ensures fault { IfErr result (IsFaultOnImage image.items) }
{
    match World::open_image(rt, alloc, rooms, image) {
        Ok(mut world) => {
            let ran = run_asked(rt, alloc, &mut world, lines, stop, out);
            end_run(world, ran)
        }
        Err(fault) => Err(Fault::Image(fault)),
    }
}
