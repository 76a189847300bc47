//! The block, and all raw pointers of this crate: a row of cells, of which those in the gap hold nothing.
//!
//! `Base` is the address alone, and may be copied. `Cells` is the right to use the cells, and `Deed` the right to free
//! the block. Both take no bytes and exist once for each block; a function that needs them takes them as arguments.
ghost use Rattle.std.specs.Prelude.{◌≡◌, ℕ, ◌+◌, ◌-◌, ◌*◌, ◌^◌, ◌<◌, ◌≤◌, ◌⊎◌, List, [], ◌∷◌, ◌++◌, map, length, take, drop, slice_set, Some, IfOk, OnErr, ⊤, not};
ghost use Rattle.std.specs.Vec.Ownership.{FitsInBlock};
ghost use base.Fml.{ftrue};
ghost use denote.RawPtr.{Ptr};
ghost use Rattle.split_vector.specs.Cells.{CanMove, Held, IsRun, IsWritten, Run, beside};
ghost use Rattle.split_vector.specs.Ownership.{cells_of, cells_own, cells_lent, deed_owns};

use crate::raw::move_run;
use std::alloc::{AllocError, Allocator};
use std::marker::{Model, PhantomData};
use std::mem::{align_of, size_of};
use std::slice;

/// The address of the block. It owns nothing.
pub struct Base<T> {
    ptr: *mut T,
}

impl<T> Clone for Base<T> {
    ghost is_clone = { λ x y. y ≡ x };

    ghost is_infallible = { λ _. ⊤ };

    fn clone(&self) -> Result<Base<T>, AllocError> {
        Ok(*self)
    }
}

impl<T> Copy for Base<T> {}

/// The owner of the cells: the items `left` of the gap, `spare` empty cells, and the items `right` of the gap.
pub struct Cells<T> {
    mark: PhantomData<*const T>,
    ghost at: { Ptr },
    ghost left: { List T },
    ghost spare: { ℕ },
    ghost right: { List T },
}

impl<T> Model for Cells<T> {
    ghost also_owns = { λ c. cells_own T.row c.at (cells_of c.left c.spare c.right) };

    ghost also_shares = { λ c _ κ. cells_lent T.row c.at (cells_of c.left c.spare c.right) κ };
}

/// The right to return the block of `len` cells at `at` to `alloc`. If `len` is 0, there is no block.
pub struct Deed<T, A: Allocator> {
    mark: PhantomData<*const (T, A)>,
    ghost at: { Ptr },
    ghost len: { ℕ },
    ghost alloc: { A },
}

impl<T, A: Allocator> Model for Deed<T, A> {
    ghost also_owns = { λ d. deed_owns T.row (A.dealloc_token d.alloc) d.at d.len };

    ghost also_shares = { λ _ _ _. ftrue };
}

/// Returns no cells at all. The address points nowhere, and nothing is read through it.
pub(crate) fn no_cells<T, A: Allocator>(_alloc: &A) -> (Base<T>, Cells<T>, Deed<T, A>)
    ensures { (result.1.at ≡ result.0.ptr) × (result.1.left ≡ []) × (result.1.spare ≡ 0) × (result.1.right ≡ []) × (result.2.at ≡ result.0.ptr) × (result.2.len ≡ 0) × (result.2.alloc ≡ _alloc.now) }
{
    let none: [T; 0] = [];
    let base = Base {
        ptr: &raw const none as *mut T,
    };
    (
        base,
        Cells { mark: PhantomData },
        Deed { mark: PhantomData },
    )
}

/// Allocates a block of `len` cells.
pub(crate) fn allocate<T, A: Allocator>(
    alloc: &A,
    len: usize,
) -> Result<(Base<T>, Cells<T>, Deed<T, A>), AllocError>
    requires { FitsInBlock T.row len × (0 < len) }
    ensures { IfOk result (λ r. (r.1.at ≡ r.0.ptr) × (r.1.left ≡ []) × (r.1.spare ≡ len) × (r.1.right ≡ []) × (r.2.at ≡ r.0.ptr) × (r.2.len ≡ len) × (r.2.alloc ≡ alloc.now)) }
{
    match alloc.allocate(len * size_of::<T>(), align_of::<T>()) {
        Ok(block) => {
            let base = Base {
                ptr: block as *mut T,
            };
            Ok((
                base,
                Cells { mark: PhantomData },
                Deed { mark: PhantomData },
            ))
        }
        Err(error) => Err(error),
    }
}

/// Lets the allocator enlarge a block of `old` cells to `new`. No item lies behind the gap, since the allocator keeps
/// the first items alone. On `Err` nothing changes.
pub(crate) fn enlarge<T, A: Allocator>(
    alloc: &A,
    base: Base<T>,
    len: usize,
    old: usize,
    new: usize,
    cells: Cells<T>,
    deed: Deed<T, A>,
) -> (Result<Base<T>, AllocError>, Cells<T>, Deed<T, A>)
    requires { (cells.at ≡ base.ptr) × (len ≡ length cells.left) × (len + cells.spare ≡ old) × (length cells.right ≡ 0) × (0 < old) × (old ≤ new) × FitsInBlock T.row new × (deed.at ≡ base.ptr) × (deed.len ≡ old) × (deed.alloc ≡ alloc.now) }
    ensures ok { IfOk result.0 (λ larger. (result.1.at ≡ larger.ptr) × (result.1.left ≡ cells.left) × (result.1.spare ≡ new - len) × (result.1.right ≡ cells.right) × (result.2.at ≡ larger.ptr) × (result.2.len ≡ new) × (result.2.alloc ≡ alloc.now)) }
    ensures err { OnErr result.0 ((result.1.at ≡ base.ptr) × (result.1.left ≡ cells.left) × (result.1.spare ≡ cells.spare) × (result.1.right ≡ cells.right) × (result.2.at ≡ base.ptr) × (result.2.len ≡ old) × (result.2.alloc ≡ alloc.now)) }
{
    let Cells { mark: _ } = cells;
    let Deed { mark: _ } = deed;
    match unsafe { alloc.grow(base.ptr, len, old, new) } {
        Ok(larger) => {
            let base = Base { ptr: larger };
            (
                Ok(base),
                Cells { mark: PhantomData },
                Deed { mark: PhantomData },
            )
        }
        Err(error) => (
            Err(error),
            Cells { mark: PhantomData },
            Deed { mark: PhantomData },
        ),
    }
}

/// Frees a block. Its items are forgotten.
pub(crate) fn deallocate<T, A: Allocator>(
    alloc: &A,
    base: Base<T>,
    len: usize,
    cells: Cells<T>,
    deed: Deed<T, A>,
)
    requires { (cells.at ≡ base.ptr) × (length cells.left + cells.spare + length cells.right ≡ len) × (0 < len) × (deed.at ≡ base.ptr) × (deed.len ≡ len) × (deed.alloc ≡ alloc.now) }
{
    let Cells { mark: _ } = cells;
    let Deed { mark: _ } = deed;
    unsafe {
        alloc.deallocate(base.ptr as *mut u8, len * size_of::<T>(), align_of::<T>());
    }
}

/// Discards the rights to a block that was never allocated.
pub(crate) fn discard<T, A: Allocator>(cells: Cells<T>, deed: Deed<T, A>)
    requires { deed.len ≡ 0 }
{
    let Cells { mark: _ } = cells;
    let Deed { mark: _ } = deed;
}

impl<T> Cells<T> {
    // Writes `item` into the cell `place`. The ghost value is what the cells hold then.
    #[inline(always)]
    fn write_cell(&mut self, base: Base<T>, place: usize, item: T)
        ghost after: { Held T }
        requires { (base.ptr ≡ self.old.at) × IsWritten self.old.left self.old.spare self.old.right place item after }
        ensures { self.new ≡ record self.old { left = after.0; spare = after.1; right = after.2 } }
    {
        unsafe { base.ptr.add(place).write(item) }
    }

    /// Writes `item` into the first cell of the gap.
    #[tactic(auto, using(crate::proofs::Items::cells_set_push))]
    pub(crate) fn push(&mut self, base: Base<T>, gap: usize, item: T)
        requires { (base.ptr ≡ self.old.at) × (gap ≡ length self.old.left) × (0 < self.old.spare) }
        ensures { self.new ≡ record self.old { left = self.old.left ++ item ∷ []; spare = self.old.spare - 1 } }
    {
        self.write_cell(base, gap, item);
    }

    /// Writes `item` into the last cell of the gap.
    #[tactic(auto, using(crate::proofs::Items::cells_set_last))]
    pub(crate) fn push_right(&mut self, base: Base<T>, place: usize, item: T)
        requires { (base.ptr ≡ self.old.at) × (place + 1 ≡ length self.old.left + self.old.spare) × (0 < self.old.spare) }
        ensures { self.new ≡ record self.old { spare = self.old.spare - 1; right = item ∷ self.old.right } }
    {
        self.write_cell(base, place, item);
    }

    /// Overwrites the item at `index` on the left. The old item is forgotten.
    #[tactic(auto, using(crate::proofs::Items::cells_set_left))]
    pub(crate) fn replace_left(&mut self, base: Base<T>, index: usize, item: T)
        requires { (base.ptr ≡ self.old.at) × (index < length self.old.left) }
        ensures { self.new ≡ record self.old { left = slice_set self.old.left index item } }
    {
        self.write_cell(base, index, item);
    }

    /// Overwrites the item in the cell `place`, which lies right of the gap. The old item is forgotten.
    #[tactic(auto, using(crate::proofs::Items::cells_set_right))]
    pub(crate) fn replace_right(&mut self, base: Base<T>, place: usize, item: T)
        requires { (base.ptr ≡ self.old.at) × (length self.old.left + self.old.spare ≤ place) × (place < length self.old.left + self.old.spare + length self.old.right) }
        ensures { self.new ≡ record self.old { right = slice_set self.old.right (place - (length self.old.left + self.old.spare)) item } }
    {
        self.write_cell(base, place, item);
    }

    /// Returns the `len` items from the cell `from` on.
    pub(crate) fn slice(&self, base: Base<T>, from: usize, len: usize) -> &[T]
        requires { (base.ptr ≡ self.now.at) × IsRun (cells_of self.now.left self.now.spare self.now.right) from len }
        ensures { take len (drop from (cells_of self.now.left self.now.spare self.now.right)) ≡ map Some result.now }
    {
        unsafe { slice::from_raw_parts(base.ptr.add(from), len) }
    }

    // Moves the run of `count` items from the cell `from` on over the gap: `up`, from its left side, or down, from its
    // right. The callers pass a literal for `up`.
    #[inline(always)]
    fn move_over(&mut self, base: Base<T>, from: usize, to: usize, count: usize, up: bool)
        ghost run: { Run T }
        requires { (base.ptr ≡ self.old.at) × CanMove up self.old.left self.old.spare self.old.right from to count run }
        ensures { self.new ≡ record self.old { left = (beside (not up) run).0; spare = (beside (not up) run).1; right = (beside (not up) run).2 } }
    {
        unsafe { move_run(base.ptr.add(from), base.ptr.add(to), count, up) }
    }

    /// Moves the last `count` items on the left to the right side of the gap.
    pub(crate) fn raise(&mut self, base: Base<T>, from: usize, to: usize, count: usize)
        requires { (base.ptr ≡ self.old.at) × (from + count ≡ length self.old.left) × (to ≡ from + self.old.spare) }
        ensures { self.new ≡ record self.old { left = take from self.old.left; right = drop from self.old.left ++ self.old.right } }
    {
        self.move_over(base, from, to, count, true);
    }

    /// Moves the first `count` items on the right to the left side of the gap.
    pub(crate) fn lower(&mut self, base: Base<T>, from: usize, to: usize, count: usize)
        requires { (base.ptr ≡ self.old.at) × (to ≡ length self.old.left) × (from ≡ to + self.old.spare) × (count ≤ length self.old.right) }
        ensures { self.new ≡ record self.old { left = self.old.left ++ take count self.old.right; right = drop count self.old.right } }
    {
        self.move_over(base, from, to, count, false);
    }

    /// Forgets the items next to the gap: it keeps the first `left` on the left, and drops the first `after` on the right.
    pub(crate) fn widen(&mut self, left: usize, after: usize)
        requires { (left ≤ length self.old.left) × (after ≤ length self.old.right) }
        ensures { self.new ≡ record self.old { left = take left self.old.left; spare = self.old.spare + (length self.old.left - left) + after; right = drop after self.old.right } }
    {}
}
