//! Copies to a buffer of the caller.

ghost use Rattle.std.specs.Prelude.{◌≡◌};
ghost use Rattle.hongpilas_c.specs.Copies.{count_copied, copied};

/// Copies the bytes from `start` on, as many as there are and as fit `into`, and returns how many that is.
pub(crate) fn copy_from(bytes: &[u8], start: usize, into: &mut [u8]) -> usize
    ensures count { result ≡ count_copied bytes.now start into.old }
    ensures copied { into.new ≡ copied bytes.now start into.old }
{
    let from = &bytes[start.min(bytes.len())..];
    let count = from.len().min(into.len());
    into[..count].copy_from_slice(&from[..count]);
    count
}
