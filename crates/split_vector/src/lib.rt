//! A gap buffer: a list of items in one block of memory, with the spare capacity as a gap among them. An insertion or a
//! deletion moves the gap to its place and then costs what it writes. So edits near one another are cheap, however long
//! the list is.
//!
//! The layers, from the memory up:
//!
//! - `raw` moves a run of items inside one block, up or down, in a loop that the compiler turns into a `memmove`. `block`
//!   splits a long move of the gap into parts instead.
//! - `cells` has the raw pointers, in functions of a line or two. A block is seen as the items left of the gap, a
//!   number of empty cells, and the items right of it. Only cells with an item are ever read.
//! - `runs` repeats those steps over slices.
//! - `vector` is the type itself, `SplitVector`, with the numbers that say where the gap lies. A clause sees it as a
//!   record: its `items`, how many fit in (`capacity`), how many items lie before the gap (`gap`), and how many were moved
//!   or written so far (`moved`).
//! - `block` moves the gap, writes before it and lets the block grow, and `reads` reads the items on either side of it.
//!   This is ordinary code that is proved without a pointer: its clauses speak of the record as well.
//!
//! Who owns the block: a vector starts with no block, and `reserve` and `reserve_narrow` are the only calls that
//! allocate. Three values stand for a block. `Base` is its address, a plain copy that owns nothing. `Cells` is the
//! right to read and write the cells. `Deed` is the right to free the block, and holds its size. `Cells` and `Deed`
//! take no bytes at run time, and can be neither copied nor dropped. They are passed to `deallocate`, which frees the
//! block, to `enlarge`, which lets the allocator enlarge the block and returns the rights to it, or, if there never was
//! a block, to `discard`. A vector grows by `enlarge` if no item lies behind the gap. Otherwise it allocates a new
//! block, copies both sides of the gap into it and frees the old block. Dropping the vector frees its last block.
//!
//! Items are `Copy`, so a deleted item needs no drop: its cell becomes part of the gap.
#![tactic(auto)]

mod block;
mod cells;
mod laws;
mod raw;
mod reads;
mod runs;
mod vector;

// A crate can name a vector in a contract only if the types of its fields are exported.
#[doc(hidden)]
pub use cells::{Base, Cells, Deed};
pub use laws::moves_add_up;
pub use vector::SplitVector;
