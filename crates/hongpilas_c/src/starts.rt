//! Addresses of bytes.

ghost use Rattle.std.specs.Prelude.{◌≡◌, length};
ghost use Rattle.hongpilas_c.specs.Starts.{start};

/// Returns the address of the first of these bytes. C reads them there as long as they do not move.
pub(crate) fn start_of(bytes: &[u8]) -> *const u8
    ensures { result ≡ start bytes.entry }
{
    bytes.as_ptr()
}

/// Tells C the address of the first of these bytes, and returns how many there are.
pub(crate) fn tell_start(bytes: &[u8], at: &mut *const u8) -> usize
    ensures start { at.new ≡ start bytes.entry }
    ensures length { result ≡ length bytes.now }
{
    *at = start_of(bytes);
    bytes.len()
}
