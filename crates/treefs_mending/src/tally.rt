// How many names lead to each inode.

ghost use Rattle.std.specs.Prelude.{◌≡◌, IfOk};
ghost use Rattle.treefs_mending.specs.Tallies.{is_found, named, padded, tally_at, with_name};

use std::alloc::AllocError;

/// The names that lead to an inode.
#[derive(Clone, Copy)]
pub struct Tally {
    /// How many they are; 2^32 - 1 stands for all that are more.
    pub names: u32,
    /// The number of the directory in which the first one stands; 0 where there is none.
    pub directory: u32,
}

/// Of an inode to which no name leads.
const NO_NAMES: Tally = Tally {
    names: 0,
    directory: 0,
};

/// The names that lead to the inode of a number.
pub fn tally_at(tallies: &[Tally], number: u32) -> Tally
    ensures { result ≡ tally_at tallies.now number }
{
    match tallies.get(number as usize) {
        Some(tally) => *tally,
        None => NO_NAMES,
    }
}

/// With one more name, in a directory.
fn named(tally: Tally, directory: u32) -> Tally
    ensures { result ≡ named tally directory }
{
    Tally {
        names: tally.names.saturating_add(1),
        directory: if tally.names == 0 {
            directory
        } else {
            tally.directory
        },
    }
}

/// Whether some name leads to the inode of a number, or it is inode 1.
pub(crate) fn is_found(tallies: &[Tally], number: u32) -> bool
    ensures { result ≡ is_found tallies.now number }
{
    number == 1 || tally_at(tallies, number).names > 0
}

/// Makes places for so many numbers, where there are fewer.
fn pad(tallies: &mut Vec<Tally>, count: usize) -> Result<(), AllocError>
    ensures { IfOk result (λ _. tallies.new.items ≡ padded tallies.old.items count) }
{
    while tallies.len() < count {
        tallies.push(NO_NAMES)?;
    }
    Ok(())
}

/// Counts one more name of the inode of a number, in a directory. `Err` comes only for want of memory.
pub(crate) fn count_name(
    tallies: &mut Vec<Tally>,
    number: u32,
    directory: u32,
) -> Result<(), AllocError>
    ensures { IfOk result (λ _. tallies.new.items ≡ with_name tallies.old.items number directory) }
{
    let tally = named(tally_at(tallies, number), directory);
    pad(tallies, number as usize + 1)?;
    tallies[number as usize] = tally;
    Ok(())
}
