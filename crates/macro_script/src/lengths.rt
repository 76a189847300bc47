//! Lengths of listed lines, computed without the lines.

ghost use Rattle.std.specs.Prelude.{◌≡◌, ◌+◌, ◌≤◌, length, SomeIff, IsTrue, ◌<◌, ◌^◌};
ghost use Rattle.std.specs.List.{AllByRecursion};
ghost use Rattle.ed_model.specs.Spelling.{spelled, spelled_int, spelled_bytes, is_64_bits};
ghost use Rattle.ed_model.specs.Listing.{listed_command, FitsTypes};
ghost use Rattle.macro_script.specs.Recorded.{send_command};
ghost use Rattle.macro_script.specs.Lines.{IsLengthIfFits};

use crate::lines::LINE_LIMIT;
use crate::spelled::spell_byte;
use ed_types::Command;
use itoa::Buffer;

/// Returns the length of a number and of the space before it.
fn number_len(value: i64) -> usize
    ensures len { result ≡ length (spelled_int value) + 1 }
    ensures short { result ≤ 41 }
    ensures typed { IsTrue (is_64_bits value) }
{
    let mut buffer = Buffer::new();
    buffer.format(value).len() + 1
}

/// Like `number_len`, for a number that is not negative.
fn id_len(id: u32) -> usize
    ensures len { result ≡ length (spelled id) + 1 }
    ensures short { result ≤ 41 }
    ensures typed { id < 2 ^ 32 }
{
    number_len(i64::from(id))
}

/// Returns the length of a text's spelling, without quotes, or `None` if it exceeds the limit of a line.
fn text_len(text: &[u8]) -> Option<usize>
    ensures len { IsLengthIfFits (spelled_bytes text.now) result }
    ensures typed { AllByRecursion (λ b. b < 256) text.now }
{
    let mut len = 0;
    for byte in text {
        len += spell_byte(*byte).1;
        if len > LINE_LIMIT {
            return None;
        }
    }
    Some(len)
}

/// Returns the length, or `None` if it exceeds the limit of a line.
fn within_limit(len: usize) -> Option<usize>
    ensures { SomeIff result (len ≤ 65536) len }
{
    if len > LINE_LIMIT { None } else { Some(len) }
}

/// Returns the length in bytes of the listed line that sends a message, or `None` if it exceeds the limit.
pub(crate) fn send_len(view: u32, number: u32, w: i64, l: i64, text: &[u8]) -> Option<usize>
    ensures typed { FitsTypes (send_command view number w l text.now) }
    ensures len { IsLengthIfFits (listed_command (send_command view number w l text.now)) result }
{
    let ids = id_len(view) + id_len(number);
    let arguments = number_len(w) + number_len(l);
    match text_len(text) {
        Some(len) => within_limit(4 + ids + arguments + 3 + len),
        None => None,
    }
}

/// Returns the length in bytes of a command's listed line, or `None` if it exceeds the limit.
pub(crate) fn line_len(command: &Command) -> Option<usize>
    ensures typed { FitsTypes command.now }
    ensures len { IsLengthIfFits (listed_command command.now) result }
{
    match command {
        Command::OpenView => within_limit(4),
        Command::CloseView { view } => within_limit(5 + id_len(*view)),
        Command::LoadFile { view, file } => {
            let ids = id_len(*view) + id_len(*file);
            within_limit(4 + ids)
        }
        Command::SendMessage { view, message } => {
            let text = message.text.as_slice();
            send_len(*view, message.number, message.w, message.l, text)
        }
        Command::Expect { value } => within_limit(6 + number_len(*value)),
    }
}
