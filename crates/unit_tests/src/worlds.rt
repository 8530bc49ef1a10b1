// A list of events, and an image that is read.

use crate::disks::{fs, is, same};
use store_types::BLOCK_LEN;
use world::{Answer, Call, Event, Reply, World};
use xn_kernel::{EditId, Refusal};

#[test]
fn events_of_a_list_are_run_in_their_order(rt: HostRuntime) {
    let owner = fs(&rt, 0);
    let mut world = World::format(&rt, rt.alloc(), 32, &[]).expect(&rt, "a world");
    let bytes = [0x41; BLOCK_LEN];
    let events = [
        Event::Call(owner, Call::Init { ty: 2, bytes }),
        Event::Call(owner, Call::MakeRoot { block: 1 }),
        Event::Begin(0),
        Event::Finish(1),
        Event::Call(owner, Call::Drain),
        Event::Crash(Vec::new(rt.alloc())),
    ];
    let replies = world.run(&rt, &events).expect(&rt, "memory");
    let want = [
        Reply::Answered(Answer::Init(Ok((1, EditId(1))))),
        Reply::Answered(Answer::MakeRoot(Ok(EditId(2)))),
        Reply::Refused(Refusal::NothingSafe),
        Reply::NoTicket,
        Reply::Answered(Answer::Drain(Ok(2))),
        Reply::Mounted {
            reached: 2,
            free: 30,
        },
    ];
    is(&rt, "the replies", replies.as_slice() == want.as_slice());
    let image = world.image().expect(&rt, "memory");
    same(&rt, "the bytes of an image", image.len(), 16384);
    let block = image.as_slice().get(512..1024).unwrap_or(&[]);
    is(&rt, "block 1", block == bytes.as_slice());
}
