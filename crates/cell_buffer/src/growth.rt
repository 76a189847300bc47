//! How blocks grow. A gap as wide as a large text is slow: a move of the gap writes far from where it reads, and goes
//! to memory where a narrow gap stays in the processor's caches. But each growth copies the text. So a block grows to
//! twice its size, and by a 64th only where the copies are few beside the other work: once after a large insertion,
//! whose bytes were written just then, and after that each time that gaps have moved over the whole text many times.

ghost use Rattle.std.specs.Prelude.{◌≡◌, ◌≤◌, ◌<◌, ◌+◌, ◌-◌, ◌*◌, ◌^◌, ◌⊎◌, true, false, length, IsTrue, OnOk, OnErr};
ghost use Rattle.split_vector.specs.Split.{part_larger, Grows, ItemsFit};
ghost use Rattle.cell_buffer.specs.Buffer.{styles_for};
ghost use Rattle.cell_buffer.specs.Growing.{GrowsTo, IsDoubled, IsFullPrice, IsPaidFor};
ghost use Rattle.vec_room.specs.Reserved.{IsReserved};

use split_vector::SplitVector;
use std::alloc::AllocError;

/// A shorter text usually stays in the processor's caches, however wide its gaps are.
const LARGE: usize = 262_144;

/// A request for at most this part of the text counts as little: `reserve_narrow` enlarges a block by as much. A growth
/// by little is paid for once this many times the length of the text was moved.
const PARTS: usize = 64;

/// The unit of `paid_from`, in bytes. In units the number takes four bytes, which fit beside a `bool`.
const UNIT: usize = 65_536;

// A law: a block has fewer than 2^63 cells.
#[inline(always)]
pub(crate) fn size_is_small(block: &SplitVector<u8>)
    ensures { (length block.now.items ≤ block.now.capacity) × (block.now.capacity < 2 ^ 63) }
{
    block.len();
}

// Returns how many units the bytes make, at most `u32::MAX`.
fn units(bytes: u64) -> u32
    ensures { (result * 65536 ≤ bytes) × ((bytes < result * 65536 + 65536) ⊎ (result ≡ 2 ^ 32 - 1)) }
{
    (bytes / UNIT as u64).min(u32::MAX as u64) as u32
}

// Returns whether the blocks of a text of `len` bytes, of which `moved` were moved or written so far, grow by little
// for `count` more bytes.
fn grows_by_little(len: usize, count: usize, moved: u64, paid_from: u32) -> bool
    ensures { IsTrue result → (262144 ≤ len) × (64 * count ≤ len) × (paid_from * 65536 + 65536 ≤ moved) }
{
    len >= LARGE && count <= len / PARTS && units(moved) > paid_from
}

// Returns from how many units on the next growth by little is paid for, after one for `count` more bytes: at once after
// a large request, and otherwise once the text was moved `PARTS` times.
fn paid_after(len: usize, count: usize, moved: u64) -> u32
    ensures { 64 * count ≤ len → (moved + 64 * len < result * 65536 + 2 * 65536) ⊎ (result ≡ 2 ^ 32 - 1) }
{
    let now = units(moved);
    if count > len / PARTS {
        return now;
    }
    let price = (len / (UNIT / PARTS)).min(u32::MAX as usize) as u32;
    now.saturating_add(price)
}

// Makes room for `count` more items in a block. A block that is too small grows by a 64th, or to what is needed if that
// is more, if `by_little`, and otherwise to twice its size. If the allocation fails, nothing changes.
fn grow_block(block: &mut SplitVector<u8>, count: usize, by_little: bool) -> Result<(), AllocError>
    ensures reserved { IsReserved (ItemsFit count) result block.old block.new }
    ensures grown { Grows count block.old block.new }
    ensures part { by_little ≡ true → block.old.capacity < length block.old.items + count → OnOk result (block.new.capacity ≡ part_larger block.old.capacity (length block.old.items + count)) }
    ensures doubles { by_little ≡ false → IsDoubled block.old block.new }
    ensures err { OnErr result (block.new ≡ block.old) }
{
    if by_little {
        block.reserve_narrow(count)
    } else {
        block.reserve(count)
    }
}

/// Makes room for `count` more bytes in their block, and for a style of each byte in the other if styles are kept. A
/// block that is too small grows by little if that is paid for, and otherwise to twice its size.
///
/// # Errors
///
/// `AllocError` if an allocation fails. The block of the bytes may have grown then; nothing else has changed.
pub(crate) fn grow_blocks(
    bytes: &mut SplitVector<u8>,
    styles: &mut SplitVector<u8>,
    keeps_styles: bool,
    paid_from: &mut u32,
    count: usize,
) -> Result<(), AllocError>
    requires { length styles.old.items ≤ length bytes.old.items }
    ensures bytes { GrowsTo (length bytes.old.items + count) bytes.old bytes.new }
    ensures styles { GrowsTo (styles_for keeps_styles (length bytes.old.items + count)) styles.old styles.new }
    ensures ok { OnOk result (ItemsFit count bytes.new × (styles_for keeps_styles (length bytes.old.items + count) ≤ styles.new.capacity)) }
    ensures paid { (IsDoubled bytes.old bytes.new × IsDoubled styles.old styles.new) ⊎ IsPaidFor count bytes.old paid_from.old }
    ensures price { OnOk result (64 * count ≤ length bytes.old.items → IsFullPrice bytes.old paid_from.new) }
    ensures err { OnErr result ((styles.new ≡ styles.old) × (paid_from.new ≡ paid_from.old)) }
{
    let len = bytes.len();
    let by_little = grows_by_little(len, count, bytes.moved(), *paid_from);
    size_is_small(styles);
    grow_block(bytes, count, by_little)?;
    if keeps_styles {
        let unstored = len - styles.len();
        grow_block(styles, unstored + count, by_little)?;
    }
    *paid_from = paid_after(len, count, bytes.moved());
    Ok(())
}
