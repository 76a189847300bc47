//! The storage of a history: one record for each step, with marks where a transaction begins and where it is sealed,
//! and one block for the bytes of all steps.

ghost use Rattle.std.specs.Prelude.{◌≡◌, ◌≤◌, ◌<◌, ◌+◌, ◌^◌, length, take, Some, map, slice_get};
ghost use Rattle.undo_history.specs.Records.{AreParts, HasItsBytes, change_in, change_of, entries_in, last_end, with_sealed};

use split_vector::SplitVector;

/// Whether a step of the text inserts bytes or deletes them.
#[derive(Clone, Copy)]
pub enum StepKind {
    /// Bytes were inserted.
    Insert,
    /// Bytes were deleted.
    Delete,
}

/// What a change did. The bytes of a step are stored elsewhere.
#[derive(Clone, Copy)]
pub enum ChangeKind {
    /// A step of the text at `place`, in bytes from 0.
    Text { kind: StepKind, place: usize },
    /// A container's own step with its token. `coalesce` comes first, so that a record has 32 bytes and not 40.
    Container { coalesce: bool, token: i64 },
}

/// A change, with its bytes lent by the history. A container's step has no bytes.
#[derive(Clone, Copy)]
pub struct LentChange<'a> {
    /// What was done.
    pub kind: ChangeKind,
    /// The bytes that the step inserted or deleted.
    pub bytes: &'a [u8],
    /// Whether it is the last change of its transaction that is performed.
    pub is_last: bool,
}

/// A change as it is stored: with its marks, and without its bytes.
#[derive(Clone, Copy)]
pub struct StepRecord {
    /// What was done.
    pub kind: ChangeKind,
    /// Where its bytes end in the block with the bytes of all steps.
    pub bytes_end: usize,
    /// Whether it begins a transaction.
    pub starts: bool,
    /// Whether the transaction is sealed behind it: no later step joins.
    pub is_sealed: bool,
}

/// A step of the text without its bytes.
#[derive(Clone, Copy)]
pub struct StepOutline {
    /// Whether bytes were inserted or deleted.
    pub kind: StepKind,
    /// The place, in bytes from 0.
    pub place: usize,
    /// The number of bytes.
    pub count: usize,
}

/// Returns all records. Their gap stands behind them, since records are only appended, or deleted at the end.
pub(crate) fn all_steps(steps: &SplitVector<StepRecord>) -> &[StepRecord]
    requires { steps.now.gap ≡ length steps.now.items }
    ensures steps { result.now ≡ steps.now.items }
    ensures within { length steps.now.items < 2 ^ 63 }
{
    // `len` says that they are few.
    steps.len();
    let (before, _) = steps.halves();
    before
}

/// Returns all bytes of a vector whose gap stands behind them.
pub(crate) fn all_bytes(bytes: &SplitVector<u8>) -> &[u8]
    requires { bytes.now.gap ≡ length bytes.now.items }
    ensures { result.now ≡ bytes.now.items }
{
    let (before, _) = bytes.halves();
    before
}

/// Returns the place behind all items of a vector whose gap stands there. It is read as the gap, so that an insertion
/// there needs no check whether the gap has to move.
#[inline(always)]
pub(crate) fn end_of<T: Copy>(items: &SplitVector<T>) -> usize
    requires { items.now.gap ≡ length items.now.items }
    ensures end { result ≡ length items.now.items }
    ensures within { items.now.capacity < 2 ^ 63 }
{
    // `len` says how many fit in at most.
    items.len();
    items.gap()
}

/// Returns how many bytes the first `count` changes have.
#[tactic(auto, using(crate::proofs::Parts::last_end_read))]
pub(crate) fn bytes_before(steps: &[StepRecord], count: usize) -> usize
    requires { count ≤ length steps.now }
    ensures { result ≡ last_end 0 (take count steps.now) }
{
    if count == 0 {
        return 0;
    }
    steps[count - 1].bytes_end
}

/// Returns what the change at `index` did, and its bytes.
pub(crate) fn change_at<'a>(
    steps: &[StepRecord],
    bytes: &'a [u8],
    index: usize,
) -> (ChangeKind, &'a [u8])
    requires there { index < length steps.now }
    requires in_order { AreParts 0 steps.now (length bytes.now) }
    ensures change { slice_get (map change_in (entries_in steps.now bytes.now)) index ≡ Some (change_of result.0 result.1.now) }
    ensures bytes { HasItsBytes result.0 result.1.now }
{
    let start = bytes_before(steps, index);
    let step = steps[index];
    let part = &bytes[start..step.bytes_end];
    (step.kind, bytes_by_kind(step.kind, part))
}

// Returns the bytes of a change among those that are stored with it: a container's step has none.
fn bytes_by_kind(kind: ChangeKind, stored: &[u8]) -> &[u8]
    ensures change { change_of kind result.now ≡ change_of kind stored.now }
    ensures bytes { HasItsBytes kind result.now }
{
    match kind {
        ChangeKind::Text { kind: _, place: _ } => stored,
        ChangeKind::Container {
            token: _,
            coalesce: _,
        } => &stored[..0],
    }
}

/// Seals the last of the first `count` steps, if there is one.
#[tactic(auto, using(crate::proofs::Sealing::sealed_set))]
pub(crate) fn seal(steps: &mut SplitVector<StepRecord>, count: usize)
    requires { count ≤ length steps.old.items }
    ensures { steps.new ≡ record steps.old { items = with_sealed count steps.old.items } }
{
    if count > 0 {
        let last = steps.get(count - 1);
        steps.set(
            count - 1,
            StepRecord {
                is_sealed: true,
                ..last
            },
        );
    }
}
