//! Growth of a `Vec` with a bound on its capacity: `Vec::reserve` does not say how large the capacity is afterwards. And items that are
//! appended where there is room, so that nothing can fail.
#![tactic(auto)]

ghost use Rattle.std.specs.Prelude.{◌≡◌, ◌≤◌, ◌+◌, ◌⊎◌, ◌++◌, length, max, OnOk, OnErr, IsOk, vec_len, vec_capacity};

use std::alloc::AllocError;

/// Makes room for `count` more items. If the spare capacity is too small, it becomes `count` or the number of items,
/// whichever is larger. So items that are pushed one by one take amortised constant time each.
///
/// # Errors
///
/// `AllocError` if the allocation fails. `vec` is then unchanged.
pub fn reserve<T>(vec: &mut Vec<T>, count: usize) -> Result<(), AllocError>
    ensures items { vec.new.items ≡ vec.old.items }
    ensures len { vec_len vec.new ≡ vec_len vec.old }
    ensures ok { OnOk result (vec_len vec.new + count ≤ vec_capacity vec.new) }
    ensures room_is_there { vec_len vec.old + count ≤ vec_capacity vec.old → IsOk result × (vec_capacity vec.new ≡ vec_capacity vec.old) }
    ensures room_stays { vec_capacity vec.old ≤ vec_capacity vec.new }
    ensures doubles { OnOk result ((vec_capacity vec.new ≡ vec_capacity vec.old) ⊎ (vec_len vec.old + max count (vec_len vec.old) ≤ vec_capacity vec.new)) }
    ensures at_most { vec_capacity vec.new ≤ max (vec_capacity vec.old) (vec_len vec.old + max count (vec_len vec.old)) }
    ensures err { OnErr result (vec_capacity vec.new ≡ vec_capacity vec.old) }
{
    if count <= vec.capacity() - vec.len() {
        return Ok(());
    }
    vec.reserve_exact(count.max(vec.len()))
}

/// Appends items. There must be room for them. Allocates nothing.
pub fn extend_reserved<T: Copy>(vec: &mut Vec<T>, items: &[T])
    requires room { vec_len vec.old + length items.now ≤ vec_capacity vec.old }
    ensures items { vec.new.items ≡ vec.old.items ++ items.now }
    ensures len { vec_len vec.new ≡ vec_len vec.old + length items.now }
    ensures room_stays { vec_capacity vec.old ≤ vec_capacity vec.new }
{
    let Ok(()) = vec.extend_from_slice(items) else {
        unreachable!()
    };
}
