//! Elements in blocks: what moves them within a block, and from one block to the next.

ghost use Rattle.std.specs.Prelude.{◌≡◌, ◌+◌, ◌-◌, ◌*◌, ◌/◌, ◌%◌, ◌<◌, ◌≤◌, ℕ, length, slice_index, slice_set};
ghost use Rattle.block_lists.specs.Blocks.{AreBlocks, AreSame, stored_at};
ghost use Rattle.block_lists.specs.Blocks.{IsMovedBack, IsMovedOn, IsShiftedBack, IsShiftedOn};

use std::mem::replace;

/// How many elements a block holds.
pub(crate) const BLOCK: usize = 256;

/// Where the element of a place is stored.
pub(crate) fn stored_at(starts: &[u8], place: usize) -> usize
    requires known { place / 256 < length starts.now }
    requires turned { slice_index starts.now (place / 256) < 256 }
    ensures { result ≡ stored_at starts.now place }
{
    let block = place / BLOCK;
    let at = (usize::from(starts[block]) + place % BLOCK) % BLOCK;
    block * BLOCK + at
}

/// Puts the elements of a block in their order from its first place on.
pub(crate) fn settle<T>(stored: &mut [T], starts: &mut [u8], block: usize)
    requires blocks { AreBlocks starts.old (length stored.old) }
    requires within { block ≤ length stored.old / 256 }
    ensures starts { starts.new ≡ slice_set starts.old block 0 }
    ensures length { length stored.new ≡ length stored.old }
    ensures same { AreSame starts.new stored.new starts.old stored.old }
{
    let first = block * BLOCK;
    let count = (stored.len() - first).min(BLOCK);
    stored[first..first + count].rotate_left(usize::from(starts[block]));
    starts[block] = 0;
}

/// Puts an element at a place, moves those from there on by one up to an end, and takes the last.
fn shift_on<T>(stored: &mut [T], place: usize, end: usize, item: T) -> T
    requires order { place < end }
    requires within { end ≤ length stored.old }
    ensures { IsShiftedOn stored.old stored.new place end item result }
{
    stored[place..end].rotate_right(1);
    replace(&mut stored[place], item)
}

/// Takes the element at a place, moves those behind it back by one, and puts another before an end.
fn shift_back<T>(stored: &mut [T], place: usize, end: usize, item: T) -> T
    requires order { place < end }
    requires within { end ≤ length stored.old }
    ensures { IsShiftedBack stored.old stored.new place end item result }
{
    let taken = replace(&mut stored[place], item);
    stored[place..end].rotate_left(1);
    taken
}

/// Puts an element before those of some full blocks, and takes the last of them.
fn carry_on<T>(stored: &mut [T], starts: &mut [u8], first: usize, last: usize, item: T) -> T
    requires blocks { AreBlocks starts.old (length stored.old) }
    requires order { first ≤ last }
    requires within { last ≤ length stored.old / 256 }
    ensures { IsMovedOn starts.old stored.old starts.new stored.new (first * 256) (last * 256)
        item result }
{
    let mut carried = item;
    for block in first..last {
        let at = (usize::from(starts[block]) + (BLOCK - 1)) % BLOCK;
        carried = replace(&mut stored[block * BLOCK + at], carried);
        starts[block] = at as u8;
    }
    carried
}

/// Puts an element behind those of some full blocks, and takes the first of them.
fn carry_back<T>(stored: &mut [T], starts: &mut [u8], first: usize, last: usize, item: T) -> T
    requires blocks { AreBlocks starts.old (length stored.old) }
    requires order { first ≤ last }
    requires within { last ≤ length stored.old / 256 }
    ensures { IsMovedBack starts.old stored.old starts.new stored.new (first * 256) (last * 256)
        item result }
{
    let mut carried = item;
    let mut block = last;
    while block > first {
        block -= 1;
        let at = usize::from(starts[block]);
        carried = replace(&mut stored[block * BLOCK + at], carried);
        starts[block] = ((at + 1) % BLOCK) as u8;
    }
    carried
}

/// Puts an element at a place, moves those from there on by one up to an end, and takes the last.
/// The end is the place itself, or where the last block begins.
pub(crate) fn move_on<T>(
    stored: &mut [T],
    starts: &mut [u8],
    place: usize,
    end: usize,
    item: T,
) -> T
    requires blocks { AreBlocks starts.old (length stored.old) }
    requires order { place ≤ end }
    requires end { place < end → end ≡ length stored.old / 256 * 256 }
    ensures { IsMovedOn starts.old stored.old starts.new stored.new place end item result }
{
    if place == end {
        return item;
    }
    let block = place / BLOCK;
    settle(stored, starts, block);
    let carried = shift_on(stored, place, block * BLOCK + BLOCK, item);
    carry_on(stored, starts, block + 1, end / BLOCK, carried)
}

/// Takes the element at a place, moves those behind it back by one, and puts another before an end.
/// The end is the place itself, or where the last block begins.
pub(crate) fn move_back<T>(
    stored: &mut [T],
    starts: &mut [u8],
    place: usize,
    end: usize,
    item: T,
) -> T
    requires blocks { AreBlocks starts.old (length stored.old) }
    requires order { place ≤ end }
    requires end { place < end → end ≡ length stored.old / 256 * 256 }
    ensures { IsMovedBack starts.old stored.old starts.new stored.new place end item result }
{
    if place == end {
        return item;
    }
    let block = place / BLOCK;
    let carried = carry_back(stored, starts, block + 1, end / BLOCK, item);
    settle(stored, starts, block);
    shift_back(stored, place, block * BLOCK + BLOCK, carried)
}

/// Puts all elements in order from the first on.
pub(crate) fn settle_all<T>(stored: &mut [T], starts: &mut [u8])
    requires { AreBlocks starts.old (length stored.old) }
    ensures length { length stored.new ≡ length stored.old }
    ensures starts { length starts.new ≡ length starts.old }
    ensures settled { (block : ℕ) → slice_index starts.new block ≡ 0 }
    ensures same { AreSame starts.new stored.new starts.old stored.old }
{
    for block in 0..stored.len() / BLOCK {
        settle(stored, starts, block);
    }
}
