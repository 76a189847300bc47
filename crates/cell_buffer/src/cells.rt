//! `Cells` and its calls. A contract sees its `cells`, whether it keeps styles (`keeps_styles`), for how many cells the
//! styles are stored (`styled`), and the `capacity`, `gaps` and `moved` of both gap buffers.

ghost use Rattle.std.specs.Prelude.{◌≡◌, ◌<◌, ◌≤◌, ◌+◌, ◌^◌, ◌↔◌, true, false, ◌++◌, [], ◌∷◌, length, replicate, slice_get, slice_range, vec_capacity, IfOk, OnOk, OnErr, IsOk, IsTrue};
ghost use Rattle.ed_model.specs.Text.{bytes_of, styles_of, plain_cells};
ghost use Rattle.ed_model.specs.Indicators.{changed_range};
ghost use Rattle.cell_buffer.specs.Buffer.{bytes_in, no_cells, styled_up_to, styles_out, with_deleted, with_inserted, with_stored, with_styles, CostsBoth, CostsInsertion, GainsStyles, Grows, HasRoom};
ghost use Rattle.cell_buffer.specs.Growing.{HasCapacity, HasRoomFor};
ghost use Rattle.split_vector.specs.Split.{most_held};
ghost use Rattle.vec_room.specs.Reserved.{IsReserved};

use crate::growth::{grow_blocks, size_is_small};
use crate::styling::{fill, overwrite};
use split_vector::SplitVector;
use std::alloc::{AllocError, Global};
use std::marker::Model;
use vec_room::extend_reserved;

/// How many styles are stored ahead of those that are set, so that `set_styles` at successive places seldom has to
/// store any.
const STYLED_AHEAD: usize = 4096;

/// The cells of a document, each a byte and its style, in two gap buffers: successive edits at one place cost little,
/// however long the text is.
///
/// From `keep_styles` on there is memory for a style of each cell, and until then for none. Styles are stored from the
/// first cell on, up to those that were set; the styles behind them are 0. So the first style does not walk over a long
/// text, and an insertion behind all stored styles moves none of them.
#[derive(Drop)]
pub struct Cells {
    bytes: SplitVector<u8>,
    // The styles of the first cells; the others are 0. Empty if no styles are kept.
    styles: SplitVector<u8>,
    keeps_styles: bool,
    // A growth by a 64th is paid for once more than this many units of bytes have been moved or written.
    paid_from: u32,
}

impl Model for Cells {
    ghost use Rattle.std.specs.Prelude.{◌≡◌, ◌≤◌, false, length};
    ghost use Rattle.cell_buffer.specs.Buffer.{Buffer, paired, styles_for};

    ghost Value = { Buffer };

    ghost view = { λ c. record {
      cells = paired c.bytes.items c.styles.items;
      keeps_styles = c.keeps_styles;
      styled = length c.styles.items;
      capacity = (c.bytes.capacity, c.styles.capacity);
      gaps = (c.bytes.gap, c.styles.gap);
      moved = (c.bytes.moved, c.styles.moved);
    } };

    ghost invariant = { λ c. record {
      style_count : length c.styles.items ≤ length c.bytes.items;
      no_styles : c.keeps_styles ≡ false → length c.styles.items ≡ 0;
      styles_fit : styles_for c.keeps_styles (length c.bytes.items) ≤ c.styles.capacity;
    } };
}

impl Cells {
    ghost use Rattle.std.specs.Borrow.{sem};
    ghost use Rattle.cell_buffer.specs.Lends.{lent_and_back};

    /// Returns an empty text without styles. Allocates nothing.
    pub fn new(alloc: Global) -> Self
        ensures { result ≡ no_cells }
    {
        Cells {
            bytes: SplitVector::new(alloc),
            styles: SplitVector::new(alloc),
            keeps_styles: false,
            paid_from: 0,
        }
    }

    /// Returns the number of cells, which is the length of the text in bytes.
    #[tactic(auto, using(crate::proofs::Pairs::pairs_length))]
    pub fn len(&self) -> usize
        ensures len { result ≡ length self.now.cells }
        ensures fits { HasRoom 0 self.now × (self.now.capacity.0 < 2 ^ 63) }
    {
        self.bytes.len()
    }

    /// Returns whether there is memory for styles. Otherwise all styles are 0.
    #[tactic(auto, using(crate::proofs::Stored::plain_where_none_stored))]
    pub fn keeps_styles(&self) -> bool
        ensures keeps { result ≡ self.now.keeps_styles }
        ensures plain { self.now.keeps_styles ≡ false → self.now.cells ≡ plain_cells (bytes_of self.now.cells) }
    {
        self.keeps_styles
    }

    /// Returns the byte at `place`.
    #[tactic(auto, using(crate::proofs::Pairs::pairs_length, crate::proofs::Stored::cells_byte))]
    pub fn byte(&self, place: usize) -> u8
        requires { place < length self.now.cells }
        ensures { slice_get (bytes_of self.now.cells) place ≡ Some result }
    {
        self.bytes.get(place)
    }

    /// Returns the style of the byte at `place`.
    #[tactic(auto, using(crate::proofs::Pairs::pairs_length, crate::proofs::Pairs::stored_style_read, crate::proofs::Pairs::zero_style_read))]
    pub fn style(&self, place: usize) -> u8
        requires { place < length self.now.cells }
        ensures style { slice_get (styles_of self.now.cells) place ≡ Some result }
        ensures plain { self.now.keeps_styles ≡ false → result ≡ 0 }
    {
        if place < self.styles.len() {
            self.styles.get(place)
        } else {
            0
        }
    }

    /// Makes room for `count` more bytes, and for their styles if styles are kept. Frees nothing. A block that is large
    /// enough stays as it is; if both are, nothing is allocated.
    ///
    /// A block that is too small grows to twice its size, or to what was requested if that is more. The exception is a
    /// text of 262,144 bytes or more for which at most a 64th of its length is requested. Its blocks grow by a 64th if
    /// that is paid for: at the first growth after one for more than a 64th, and later once 64 times as many bytes were
    /// moved or written as the text had at the last growth. The gap then stays narrow, so a move of the gap writes near
    /// where it reads.
    ///
    /// # Errors
    ///
    /// `AllocError` if an allocation fails. The capacity may have grown then; nothing else has changed.
    #[tactic(auto, using(crate::proofs::Pairs::pairs_length))]
    #[inline(always)]
    pub fn reserve(&mut self, count: usize) -> Result<(), AllocError>
        ensures reserved { IsReserved (HasRoom count) result self.old self.new }
        ensures grown { Grows count self.old self.new }
    {
        if self.fits(count) {
            return Ok(());
        }
        self.grow(count)
    }

    // Returns whether `count` more bytes fit, and their styles if styles are kept.
    #[inline(always)]
    #[tactic(auto, using(crate::proofs::Pairs::pairs_length))]
    fn fits(&self, count: usize) -> bool
        ensures { (IsTrue result ↔ HasRoom count self.now) × (self.now.capacity.0 < 2 ^ 63) }
    {
        if self.bytes.spare() < count {
            return false;
        }
        if !self.keeps_styles {
            return true;
        }
        count <= self.styles.capacity() - self.bytes.len()
    }

    // Allocates memory for `count` more bytes, and for their styles, of which there is too little. Out of line, since
    // it is rare.
    #[inline(never)]
    #[tactic(auto, using(crate::proofs::Pairs::pairs_length))]
    fn grow(&mut self, count: usize) -> Result<(), AllocError>
        ensures ok { OnOk result (HasRoom count self.new) }
        ensures grown { Grows count self.old self.new }
    {
        grow_blocks(
            &mut self.bytes,
            &mut self.styles,
            self.keeps_styles,
            &mut self.paid_from,
            count,
        )
    }

    /// Keeps styles from now on. If none were kept so far, allocates memory for a style of each byte that fits, so that
    /// whatever there was room for still fits. All styles are 0 then.
    ///
    /// # Errors
    ///
    /// `AllocError` if the allocation fails. Nothing has changed then.
    #[tactic(auto, using(crate::proofs::Pairs::pairs_length, crate::proofs::Stored::plain_where_none_stored))]
    pub fn keep_styles(&mut self) -> Result<(), AllocError>
        ensures ok { OnOk result (GainsStyles self.old self.new) }
        ensures plain { self.old.keeps_styles ≡ false → self.new.cells ≡ plain_cells (bytes_of self.new.cells) }
        ensures at_most { self.new.capacity.1 ≤ most_held self.old.capacity.1 self.old.capacity.0 }
        ensures kept { self.old.keeps_styles ≡ true → IsOk result × (self.new ≡ self.old) }
        ensures err { OnErr result (self.new ≡ self.old) }
    {
        if self.keeps_styles {
            return Ok(());
        }
        size_is_small(&self.bytes);
        let fit = self.bytes.capacity();
        self.styles.reserve(fit)?;
        self.keeps_styles = true;
        Ok(())
    }

    /// Inserts `bytes` at `place`, with style 0. There must be room for them.
    #[tactic(auto, using(crate::proofs::Pairs::pairs_length, crate::proofs::Pairs::inserted_among, crate::proofs::Pairs::inserted_behind, crate::proofs::Stored::inserted_length, crate::proofs::Stored::stored_length, crate::proofs::Stored::inserted_cells_length, crate::proofs::Costs::insertion_costs))]
    pub fn insert_reserved(&mut self, place: usize, bytes: &[u8])
        requires { (place ≤ length self.old.cells) × HasRoom (length bytes.now) self.old }
        ensures inserted { self.new ≡ with_inserted place bytes.now self.old }
        ensures len { length self.new.cells ≡ length self.old.cells + length bytes.now }
        ensures cost { CostsInsertion place (length bytes.now) self.old self.new }
    {
        self.bytes.insert_slice_reserved(place, bytes);
        if place < self.styles.len() {
            self.styles.insert_fill_reserved(place, bytes.len(), 0);
        }
    }

    /// Deletes `count` cells from `place` on. They become spare capacity.
    #[tactic(auto, using(crate::proofs::Pairs::pairs_length, crate::proofs::Stored::deleted_among, crate::proofs::Pairs::deleted_behind, crate::proofs::Stored::deleted_cells_length, crate::proofs::Stored::shrunk, crate::proofs::Costs::deletion_costs))]
    pub fn delete(&mut self, place: usize, count: usize)
        requires { place + count ≤ length self.old.cells }
        ensures deleted { self.new ≡ with_deleted place count self.old }
        ensures len { length self.new.cells + count ≡ length self.old.cells }
        ensures cost { CostsBoth place count (styles_out self.old place count) self.old self.new }
    {
        size_is_small(&self.bytes);
        self.bytes.delete(place, count);
        let styled = self.styles.len();
        if place < styled {
            self.styles.delete(place, count.min(styled - place));
        }
    }

    // Stores the styles of the cells before `end`, and of some behind it, unless they are stored already. The
    // styles that it adds are 0, as they were.
    #[inline(always)]
    #[tactic(auto, using(crate::proofs::Pairs::pairs_length))]
    fn store_styles(&mut self, end: usize)
        requires within { end ≤ length self.old.cells }
        requires kept { self.old.keeps_styles ≡ true }
        ensures { self.new ≡ with_stored (styled_up_to (length self.old.cells) end self.old.styled) self.old }
    {
        if self.styles.len() < end {
            self.store_more(end);
        }
    }

    // The slow path of `store_styles`, out of line since it is rare: some of these styles are not stored.
    #[inline(never)]
    #[tactic(auto, using(crate::proofs::Pairs::pairs_length, crate::proofs::Stored::stored_further, crate::proofs::Stored::stored_length))]
    fn store_more(&mut self, end: usize)
        requires within { end ≤ length self.old.cells }
        requires kept { self.old.keeps_styles ≡ true }
        requires more { self.old.styled < end }
        ensures { self.new ≡ with_stored (styled_up_to (length self.old.cells) end self.old.styled) self.old }
    {
        let styled = self.styles.len();
        let ahead = (self.bytes.len() - end).min(STYLED_AHEAD);
        self.styles
            .insert_fill_reserved(styled, end + ahead - styled, 0);
    }

    /// Sets the styles of the cells from `start` on to `styles`. Returns the smallest range with all changed styles, as
    /// its start and its length, or `None` if none changed. Styles must be kept. The gap of the styles moves only if
    /// some have to be stored.
    #[tactic(auto, using(crate::proofs::Pairs::pairs_length, crate::proofs::Pairs::overwritten_pairs, crate::proofs::Stored::changed_of_stored, crate::proofs::Pairs::overwritten_length))]
    pub fn set_styles(&mut self, start: usize, styles: &[u8]) -> Option<(usize, usize)>
        requires within { start + length styles.now ≤ length self.old.cells }
        requires kept { self.old.keeps_styles ≡ true }
        ensures cells { self.new ≡ with_styles start (length styles.now) styles.now self.old }
        ensures len { length self.new.cells ≡ length self.old.cells }
        ensures changed { result ≡ changed_range (styles_of self.old.cells) (styles_of self.new.cells) }
    {
        size_is_small(&self.bytes);
        self.store_styles(start + styles.len());
        overwrite(&mut self.styles, start, styles)
    }

    /// Sets the styles of the `count` cells from `start` on to `style`. Returns the smallest range with all changed
    /// styles, as its start and its length, or `None` if none changed. Styles must be kept. The gap of the styles moves
    /// only if some have to be stored.
    #[tactic(auto, using(crate::proofs::Pairs::pairs_length, crate::proofs::Pairs::overwritten_pairs, crate::proofs::Stored::changed_of_stored, crate::proofs::Pairs::overwritten_length, std::proofs::lemmas::Grind::common_steps))]
    pub fn set_style_run(&mut self, start: usize, count: usize, style: u8) -> Option<(usize, usize)>
        requires within { start + count ≤ length self.old.cells }
        requires kept { self.old.keeps_styles ≡ true }
        ensures cells { self.new ≡ with_styles start count (replicate count style) self.old }
        ensures len { length self.new.cells ≡ length self.old.cells }
        ensures changed { result ≡ changed_range (styles_of self.old.cells) (styles_of self.new.cells) }
    {
        size_is_small(&self.bytes);
        self.store_styles(start + count);
        fill(&mut self.styles, start, count, style)
    }

    /// Copies the bytes from `start` on into `target`, whose length says how many.
    #[tactic(auto, using(crate::proofs::Pairs::pairs_length, crate::proofs::Pairs::pairs_bytes))]
    pub fn copy_text(&self, start: usize, target: &mut [u8])
        requires { start + length target.old ≤ length self.now.cells }
        ensures { target.new ≡ slice_range (bytes_of self.now.cells) start (start + length target.old) }
    {
        self.bytes.copy_out(start, target);
    }

    // Returns the `count` bytes from `start` on in two parts. The second is empty unless the gap lies among them.
    #[inline(always)]
    #[tactic(auto, using(crate::proofs::Pairs::pairs_length, crate::proofs::Pairs::pairs_bytes, crate::proofs::Stored::range_before, crate::proofs::Stored::range_behind))]
    fn parts_of(&self, start: usize, count: usize) -> (&[u8], &[u8])
        requires { start + count ≤ length self.now.cells }
        ensures joined { result.0.now ++ result.1.now ≡ slice_range (bytes_of self.now.cells) start (start + count) }
        ensures begun { 0 < count → 0 < length result.0.now }
    {
        size_is_small(&self.bytes);
        let end = start + count;
        let (before, behind) = self.bytes.halves();
        let gap = before.len();
        if end <= gap {
            return (&before[start..end], &[]);
        }
        if gap <= start {
            return (&behind[start - gap..end - gap], &[]);
        }
        (&before[start..], &behind[..end - gap])
    }

    /// Appends the `count` bytes from `start` on to `target`. Its capacity never falls.
    ///
    /// # Errors
    ///
    /// `AllocError` if the allocation fails. `target` has the same bytes then.
    #[tactic(auto, using(crate::proofs::Pairs::pairs_length, crate::proofs::Pairs::pairs_bytes))]
    pub fn append_text_to(
        &self,
        start: usize,
        count: usize,
        target: &mut Vec<u8>,
    ) -> Result<(), AllocError>
        requires { start + count ≤ length self.now.cells }
        ensures ok { OnOk result (target.new.items ≡ target.old.items ++ bytes_in self.now start count) }
        ensures room_is_there { HasRoomFor count target.old → IsOk result }
        ensures kept { vec_capacity target.old ≤ vec_capacity target.new }
        ensures err { OnErr result (target.new.items ≡ target.old.items) }
    {
        let (first, second) = self.parts_of(start, count);
        if second.is_empty() {
            return target.extend_from_slice(first);
        }
        append_both(first, second, target)
    }

    /// Returns the `count` bytes from `start` on in a new `Vec` with room for `spare` more bytes. Allocates nothing if
    /// `count` is 0.
    ///
    /// # Errors
    ///
    /// `AllocError` if the allocation fails, which it does if `count + spare` exceeds a `usize`.
    #[tactic(auto, using(crate::proofs::Pairs::pairs_length, crate::proofs::Pairs::pairs_bytes))]
    pub fn text_to_vec(
        &self,
        alloc: Global,
        start: usize,
        count: usize,
        spare: usize,
    ) -> Result<Vec<u8>, AllocError>
        requires { start + count ≤ length self.now.cells }
        ensures bytes { IfOk result (λ text. text.items ≡ slice_range (bytes_of self.now.cells) start (start + count)) }
        ensures room { 0 < count → IfOk result (λ text. HasCapacity (count + spare) text) }
        ensures free { count ≡ 0 → IsOk result }
    {
        let (first, second) = self.parts_of(start, count);
        let mut text = copied(alloc, first, spare.saturating_add(second.len()))?;
        if !second.is_empty() {
            text.extend_from_slice(second)?;
        }
        Ok(text)
    }

    /// Returns the bytes before the gap and those behind it. The gap stays where it is.
    #[tactic(auto, using(crate::proofs::Pairs::pairs_bytes))]
    pub fn halves(&self) -> (&[u8], &[u8])
        ensures joined { result.0.now ++ result.1.now ≡ bytes_of self.now.cells }
        ensures parted { length result.0.now ≡ self.now.gaps.0 }
    {
        self.bytes.halves()
    }

    /// Lends the `count` bytes from `start` on as one slice. If the gap lies among them, it moves to the nearer end first.
    #[tactic(auto, using(crate::proofs::Pairs::pairs_length, crate::proofs::Pairs::pairs_bytes))]
    pub fn lend(&mut self, start: usize, count: usize) -> &[u8]
        requires { start + count ≤ length self.old.cells }
        ensures* back { sem 𝓛 (lent_and_back self.entry start count) }
        ensures value { result.now ≡ slice_range (bytes_of self.old.cells) start (start + count) }
    {
        self.bytes.lend(start, count)
    }

    /// Returns how many items insertions and deletions have moved or written so far, among the bytes and among the
    /// styles. Each count stays at `u64::MAX` once it is reached. Growth and lending are not counted.
    pub fn moved(&self) -> (u64, u64)
        ensures { result ≡ self.now.moved }
    {
        (self.bytes.moved(), self.styles.moved())
    }

    /// Returns how many items lie before the gap, of the bytes and of the styles.
    pub fn gaps(&self) -> (usize, usize)
        ensures { result ≡ self.now.gaps }
    {
        (self.bytes.gap(), self.styles.gap())
    }
}

// Copies `bytes` into a new `Vec` with room for `spare` more. The first and the last byte are read before the
// allocation: a text that is not in the caches is fetched while the allocator works.
fn copied(alloc: Global, bytes: &[u8], spare: usize) -> Result<Vec<u8>, AllocError>
    ensures bytes { IfOk result (λ copy. copy.items ≡ bytes.now) }
    ensures room { 0 < length bytes.now → IfOk result (λ copy. HasCapacity (length bytes.now + spare) copy) }
    ensures free { length bytes.now ≡ 0 → IsOk result }
{
    let Some((last, before)) = bytes.split_last() else {
        return Ok(Vec::new(alloc));
    };
    let last = *last;
    let Some((first, between)) = before.split_first() else {
        return one_byte(alloc, last, spare);
    };
    let first = *first;
    let mut copy = Vec::with_capacity(alloc, bytes.len().saturating_add(spare))?;
    copy.push_reserved(first);
    copy.extend_from_slice(between)?;
    copy.push(last)?;
    Ok(copy)
}

// The case of `copied` for one byte.
fn one_byte(alloc: Global, byte: u8, spare: usize) -> Result<Vec<u8>, AllocError>
    ensures byte { IfOk result (λ copy. copy.items ≡ byte ∷ []) }
    ensures room { IfOk result (λ copy. HasCapacity (1 + spare) copy) }
{
    let mut copy = Vec::with_capacity(alloc, spare.saturating_add(1))?;
    copy.push_reserved(byte);
    Ok(copy)
}

// Appends the bytes of `first` and those of `second` to `target`, all or none of them.
#[inline(never)]
fn append_both(first: &[u8], second: &[u8], target: &mut Vec<u8>) -> Result<(), AllocError>
    ensures ok { OnOk result (target.new.items ≡ target.old.items ++ (first.now ++ second.now)) }
    ensures room_is_there { HasRoomFor (length first.now + length second.now) target.old → IsOk result }
    ensures kept { vec_capacity target.old ≤ vec_capacity target.new }
    ensures err { OnErr result (target.new.items ≡ target.old.items) }
{
    target.reserve(first.len() + second.len())?;
    extend_reserved(target, first);
    extend_reserved(target, second);
    Ok(())
}
