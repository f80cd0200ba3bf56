//! Want of memory, and copies that keep their room.

ghost use Rattle.std.specs.Prelude.{◌≡◌, ◌+◌, ◌<◌, ◌≤◌, ◌^◌, length, vec_capacity, IfOk};

use std::alloc::Global;

/// There was no memory for what was to be made.
pub type OutOfMemory = std::alloc::AllocError;

/// A copy of these items, with room for so many more. `OutOfMemory` where there is no memory.
pub fn copy_with_room<T: Copy>(
    alloc: Global,
    items: &[T],
    spare: u32,
) -> Result<Vec<T>, OutOfMemory>
    requires { length items.now < 2 ^ 32 }
    ensures items { IfOk result (λ all. all.items ≡ items.now) }
    ensures room { IfOk result (λ all. length items.now + spare ≤ vec_capacity all) }
{
    let mut all = Vec::with_capacity(alloc, items.len() + spare as usize)?;
    all.extend_from_slice(items)?;
    Ok(all)
}
