// One thread by itself, and a reader beside the publisher.

ghost use Rattle.std.specs.Prelude.{◌≡◌, ◌<◌, true};

use super::*;
use std::test::*;
use std::thread::{Threads, join};

#[test]
fn raises_reads_and_meets(rt: HostRuntime) -> Result<(), Fail> {
    let (floor, mut publisher, mut readers) = Floor::new(rt.alloc(), 2)?;
    let mut one = readers.pop().ok_or("a reader")?;
    let mut two = readers.pop().ok_or("a reader")?;
    assert_eq!(rt; floor.read(&mut one, 31), 0);
    floor.raise(&mut publisher, 31, 7);
    floor.raise(&mut publisher, 31, 5);
    assert_eq!(rt; floor.read(&mut one, 31), 7);
    assert_eq!(rt; floor.meet(&mut publisher, &mut two, 31), 7);
    assert_eq!(rt; floor.read(&mut two, 30), 0);
    Ok(())
}

/// Raises a word by ones.
fn climb(floor: &Floor, publisher: Publisher, fs: u8) -> Publisher
    requires same { publisher.floor ≡ floor.now }
    requires few { fs < 32 }
{
    let mut publisher = publisher;
    for to in 0..1000 {
        floor.raise(&mut publisher, fs, to);
    }
    publisher
}

/// Whether what a reader finds never goes back.
fn watch(floor: &Floor, reader: Reader, fs: u8) -> bool
    requires same { reader.floor ≡ floor.now }
    requires few { fs < 32 }
    ensures { result ≡ true }
{
    let mut reader = reader;
    let mut last = 0;
    for _ in 0..1000 {
        let found = floor.read(&mut reader, fs);
        if found < last {
            return false;
        }
        last = found;
    }
    true
}

#[test]
fn a_reader_beside_the_publisher(rt: HostRuntime) -> Result<(), Fail> {
    let (floor, publisher, mut readers) = Floor::new(rt.alloc(), 1)?;
    let reader = readers.pop().ok_or("a reader")?;
    let (_publisher, rising) = join(
        &rt,
        || climb(&floor, publisher, 3),
        || watch(&floor, reader, 3),
    );
    assert!(rt; rising);
    Ok(())
}
