//! The names of refusals, and the version.

ghost use Rattle.std.specs.Prelude.{◌≡◌, length};
ghost use Rattle.hongpilas_c.specs.Names.{closed_name};

use crate::starts::tell_start;

/// The version of this interface: its major number times 1000, plus its minor number.
const VERSION: u32 = 2000;

/// Returns the name of the refusal with this number, and a NUL behind it.
fn name_of(number: u32) -> &'static [u8]
    ensures { result.now ≡ closed_name number }
{
    if number == 0 {
        b"done\0"
    } else if number == 1 {
        b"out of memory\0"
    } else if number == 2 {
        b"no such view\0"
    } else if number == 3 {
        b"unknown message\0"
    } else if number == 4 {
        b"no such document\0"
    } else if number == 5 {
        b"text too long\0"
    } else if number == 6 {
        b"bad argument\0"
    } else if number == 7 {
        b"too many\0"
    } else {
        b"unknown refusal\0"
    }
}

/// Lends the name of a refusal: sets `name` to the address of its first byte, and returns how many bytes it has with the
/// NUL that closes it. The name is never freed.
#[unsafe(no_mangle)]
pub extern "C" fn hongpilas_answer_name_unchecked(number: u32, name: &mut *const u8) -> usize
    ensures length { result ≡ length (closed_name number) }
{
    tell_start(name_of(number), name)
}

/// Returns the version of this interface.
#[unsafe(no_mangle)]
pub extern "C" fn hongpilas_version() -> u32
    ensures { result ≡ 2000 }
{
    VERSION
}
