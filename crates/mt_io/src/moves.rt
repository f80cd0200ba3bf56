// What the objects in memory do with their bytes.
ghost use Rattle.std.specs.Prelude.{◌≡◌, ◌↔◌, ◌<◌, ◌≤◌, ◌+◌, ◌-◌, ◌++◌, [], length, drop, take, min, Contains, IsTrue, vec_len, vec_capacity};

// Moves the bytes from a place on to the front of `buf`, at most `piece` of them.
pub(crate) fn give(bytes: &[u8], at: usize, piece: usize, buf: &mut [u8]) -> usize
    // a place in the bytes, and at least one byte at a time
    requires within { at ≤ length bytes.now }
    requires piece { 1 ≤ piece }

    // how many bytes are moved
    ensures count { result ≡ min (min (length bytes.now - at) piece) (length buf.old) }
    ensures within { at + result ≤ length bytes.now }

    // which bytes they are, and when none is left
    ensures len { length buf.new ≡ length buf.old }
    ensures moved { drop at bytes.now ≡ take result buf.new ++ drop (at + result) bytes.now }
    ensures end { result ≡ 0 → 0 < length buf.old → drop (at + result) bytes.now ≡ [] }
{
    let left = bytes.len() - at;
    let count = left.min(piece).min(buf.len());
    let next = at + count;
    buf[..count].copy_from_slice(&bytes[at..next]);
    count
}

// Appends bytes for which there is room.
pub(crate) fn append(held: &mut Vec<u8>, bytes: &[u8])
    requires { vec_len held.old + length bytes.now ≤ vec_capacity held.old }
    ensures items { held.new.items ≡ held.old.items ++ bytes.now }
    ensures capacity { vec_capacity held.old ≤ vec_capacity held.new }
{
    let _ = held.extend_from_slice(bytes);
}

// Whether a number is in a list.
pub(crate) fn is_listed(numbers: &[u64], number: u64) -> bool
    ensures { IsTrue result ↔ Contains numbers.now number }
{
    numbers.contains(&number)
}
