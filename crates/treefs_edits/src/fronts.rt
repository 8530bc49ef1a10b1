// The first items of a list, and those behind them.

ghost use Rattle.std.specs.Prelude.{◌≡◌, drop, slice_index, take};

/// The first items, so many where there are.
pub fn front<T>(items: &[T], count: usize) -> &[T]
    ensures { result.now ≡ take count items.now }
{
    &items[..count.min(items.len())]
}

/// Those behind the first ones.
pub fn behind<T>(items: &[T], count: usize) -> &[T]
    ensures { result.now ≡ drop count items.now }
{
    &items[count.min(items.len())..]
}

/// The block at a place; 0 where there is none.
pub fn block_at(blocks: &[u32], place: usize) -> u32
    ensures { result ≡ slice_index blocks.now place }
{
    if place < blocks.len() {
        blocks[place]
    } else {
        0
    }
}

/// The offset at a place; 0 where there is none.
pub fn offset_at(offsets: &[u16], place: usize) -> u16
    ensures { result ≡ slice_index offsets.now place }
{
    if place < offsets.len() {
        offsets[place]
    } else {
        0
    }
}
