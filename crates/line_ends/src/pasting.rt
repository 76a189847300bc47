//! Conversion of the line ends of a text that is pasted.

ghost use Rattle.std.specs.Prelude.{◌≡◌, ◌+◌, ◌*◌, ◌<◌, ◌≤◌, ◌++◌, length, vec_len, vec_capacity};
ghost use Rattle.ed_model.specs.LineEnds.{converted};
ghost use Rattle.line_ends.specs.Conversion.{BeginsWithPiece, end_bytes};

use crate::reading::quiet_bytes;
use ed_model::LineEnd;
use vec_room::extend_reserved;

// How many bytes come before a text's first line end, and how many that line end has: 0 if there is none.
#[derive(Clone, Copy)]
struct Piece {
    quiet: usize,
    end: usize,
}

// Returns the bytes that replace a line end of `count` bytes: nothing if `count` is 0.
#[tactic(auto, using(crate::proofs::Pasted::some_end, crate::proofs::Pasted::no_end))]
fn bytes_of_end(count: usize, to: LineEnd) -> &'static [u8]
    ensures { result.now ≡ end_bytes count to }
{
    if count == 0 {
        return &[];
    }
    match to {
        LineEnd::CrLf => b"\r\n",
        LineEnd::Cr => b"\r",
        LineEnd::Lf => b"\n",
    }
}

// Returns the first piece of the text. The other pieces are those of the rest.
fn next_piece(bytes: &[u8]) -> Piece
    ensures within { result.quiet + result.end ≤ length bytes.now }
    ensures on { 0 < length bytes.now → 0 < result.quiet + result.end }
    ensures pieces { BeginsWithPiece result.quiet result.end bytes.now }
{
    let quiet = quiet_bytes(bytes);
    if quiet == bytes.len() {
        return Piece { quiet, end: 0 };
    }
    let behind = quiet + 1;
    if bytes[quiet] == b'\r' && behind < bytes.len() && bytes[behind] == b'\n' {
        return Piece { quiet, end: 2 };
    }
    Piece { quiet, end: 1 }
}

/// Returns how many bytes the text has once each line end is `to`.
pub fn converted_len(bytes: &[u8], to: LineEnd) -> usize
    ensures length { result ≡ length (converted to bytes.now) }
    ensures few { result ≤ 2 * length bytes.now }
{
    let mut length = 0;
    let mut place = 0;
    'pieces: while place < bytes.len() {
        let piece = next_piece(&bytes[place..]);
        length += piece.quiet + bytes_of_end(piece.end, to).len();
        place += piece.quiet + piece.end;
    }
    length
}

/// Appends the text to `target`, with each line end converted to `to`. There must be room for it.
pub fn convert_into(bytes: &[u8], to: LineEnd, target: &mut Vec<u8>)
    requires { vec_len target.old + length (converted to bytes.now) ≤ vec_capacity target.old }
    ensures { target.new.items ≡ target.old.items ++ converted to bytes.now }
{
    let mut place = 0;
    'pieces: while place < bytes.len() {
        let piece = next_piece(&bytes[place..]);
        extend_reserved(target, &bytes[place..place + piece.quiet]);
        extend_reserved(target, bytes_of_end(piece.end, to));
        place += piece.quiet + piece.end;
    }
}
