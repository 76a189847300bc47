//! A move of a run of items inside one block. If the direction is known, the compiler turns the loop into a `memmove`.
ghost use Rattle.std.specs.Prelude.{ℕ, List};
ghost use Rattle.std.specs.Borrow.{sem};
ghost use Rattle.core.specs.Ptr.{memory_before_copy, memory_after_copy};
ghost use Rattle.split_vector.specs.Cells.{LiesApart};

// Moves `count` items from `src` to `dst`: `up`, the last item first, or down, the first one first. The ghost number is
// the distance between the two. Callers pass a literal for `up`: inlined, the loop does not test it.
#[inline(always)]
pub(crate) unsafe fn move_run<T>(src: *const T, dst: *mut T, count: usize, up: bool)
    ghost g: { ℕ × List T }
    requires* { ⌜ LiesApart T.row up g.0 count src dst ⌝ ∗ sem 𝓛 (memory_before_copy T.row up g.0 count src dst g.1) }
    ensures* { sem 𝓛 (memory_after_copy T.row up g.0 count src dst g.1) }
{
    let mut i = 0;
    while i < count {
        let at = if up { count - 1 - i } else { i };
        unsafe {
            dst.add(at).write(src.add(at).read());
        }
        i += 1;
    }
}
