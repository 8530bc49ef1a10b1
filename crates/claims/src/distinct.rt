// Whether no number occurs twice.

ghost use Rattle.std.specs.Prelude.{◌≡◌, ◌≤◌, length, map};
ghost use Rattle.xn_model.specs.Lists.{blocks_of, distinct, has_number};

use arrayvec::ArrayVec;

/// Whether a number is among these.
pub(crate) fn has_number(numbers: &[u32], number: u32) -> bool
    ensures { result ≡ has_number numbers.now number }
{
    numbers.iter().any(|other| *other == number)
}

/// Whether no number occurs twice. A number is looked for among those before it only where one of these has the same last ten
/// bits, so the time mostly grows with their count alone.
pub fn are_distinct(numbers: &[u32]) -> bool
    ensures { result ≡ distinct numbers.now }
{
    if numbers.len() < 2 {
        return true;
    }
    let mut is_marked = [false; 1024];
    for (place, number) in numbers.iter().enumerate() {
        let mark = (*number % 1024) as usize;
        if is_marked[mark] && has_number(&numbers[..place], *number) {
            return false;
        }
        is_marked[mark] = true;
    }
    true
}

/// The blocks that pairs name.
fn blocks_of(pairs: &[(u32, u32)]) -> ArrayVec<u32, 128>
    requires { length pairs.now ≤ 128 }
    ensures { result.items ≡ blocks_of pairs.now }
{
    let mut blocks = ArrayVec::<u32, 128>::new();
    for pair in pairs {
        blocks.push(pair.0);
    }
    blocks
}

/// Whether no block is named twice.
pub fn are_blocks_distinct(pairs: &[(u32, u32)]) -> bool
    requires { length pairs.now ≤ 128 }
    ensures { result ≡ distinct (blocks_of pairs.now) }
{
    pairs.is_empty() || are_distinct(blocks_of(pairs).as_slice())
}
