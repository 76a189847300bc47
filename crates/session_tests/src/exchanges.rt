//! Tables of requests to a session, with the expected replies. A session is made by two functions, each of which owns
//! it with a single way out: owning one with many ways out makes a proof slow.

use ed_types::{Kind, Limits, Refusal};
use editor_session::Session;
use std::alloc::Global;

/// A request to a session.
#[derive(Clone, Copy)]
enum Asked {
    OpenView,
    CloseView,
    Send { number: u32 },
}

/// A request to a session, with the expected reply.
#[derive(Clone, Copy)]
pub(crate) struct Exchange {
    asked: Asked,
    view: u32,
    w: i64,
    l: i64,
    text: &'static [u8],
    answer: Result<i64, Refusal>,
    handed_out: &'static [u8],
}

impl Exchange {
    /// Returns an exchange with view 1, without text or arguments.
    fn new(asked: Asked, answer: Result<i64, Refusal>) -> Self {
        Exchange {
            asked,
            view: 1,
            w: 0,
            l: 0,
            text: &[],
            answer,
            handed_out: &[],
        }
    }

    /// Returns the same exchange with another view.
    pub(crate) fn of_view(self, view: u32) -> Self {
        Exchange { view, ..self }
    }

    /// Returns the same message with a text.
    pub(crate) fn with(self, text: &'static [u8]) -> Self {
        Exchange { text, ..self }
    }

    /// Returns the same message, which also hands out this text.
    pub(crate) fn handing_out(self, handed_out: &'static [u8]) -> Self {
        Exchange { handed_out, ..self }
    }
}

/// Expects that a view is opened, with this id.
pub(crate) fn opened(id: i64) -> Exchange {
    Exchange::new(Asked::OpenView, Ok(id))
}

/// Expects that opening a view is refused.
pub(crate) fn not_opened(refusal: Refusal) -> Exchange {
    Exchange::new(Asked::OpenView, Err(refusal))
}

/// Expects that view 1 is closed.
pub(crate) fn closed() -> Exchange {
    Exchange::new(Asked::CloseView, Ok(0))
}

/// Expects that closing view 1 is refused.
pub(crate) fn not_closed(refusal: Refusal) -> Exchange {
    Exchange::new(Asked::CloseView, Err(refusal))
}

/// Expects this value from a message to view 1.
pub(crate) fn sent(kind: Kind, w: i64, l: i64, value: i64) -> Exchange {
    let number = kind.number();
    Exchange {
        w,
        l,
        ..Exchange::new(Asked::Send { number }, Ok(value))
    }
}

/// Expects that a message to view 1 is refused.
pub(crate) fn refused(kind: Kind, w: i64, l: i64, refusal: Refusal) -> Exchange {
    Exchange {
        answer: Err(refusal),
        ..sent(kind, w, l, 0)
    }
}

/// Expects a refusal of a message to view 1 with a number that no message has.
pub(crate) fn unknown(number: u32, refusal: Refusal) -> Exchange {
    Exchange::new(Asked::Send { number }, Err(refusal))
}

/// Returns whether a message has the expected reply.
fn is_answered(session: &mut Session, row: &Exchange, number: u32) -> bool {
    match session.send_lent(row.view, number, row.w, row.l, row.text) {
        Ok(reply) => row.answer == Ok(reply.value()) && reply.text() == row.handed_out,
        Err(refusal) => row.answer == Err(refusal),
    }
}

/// Returns whether an exchange goes as expected.
fn is_met(session: &mut Session, row: &Exchange) -> bool {
    match row.asked {
        Asked::OpenView => session.new_view().map(i64::from) == row.answer,
        Asked::CloseView => session.close_view(row.view).map(|_| 0) == row.answer,
        Asked::Send { number } => is_answered(session, row, number),
    }
}

/// Returns the index of the first exchange that does not go as expected, or `None`.
fn first_unmet_in(session: &mut Session, rows: &[Exchange]) -> Option<usize> {
    for index in 0..rows.len() {
        if !is_met(session, &rows[index]) {
            return Some(index);
        }
    }
    None
}

/// Does the same in a new session.
pub(crate) fn first_unmet(alloc: Global, rows: &[Exchange]) -> Option<usize> {
    let mut session = Session::new(alloc);
    first_unmet_in(&mut session, rows)
}

/// Does the same in a new session with these limits, which must be valid.
pub(crate) fn first_unmet_within(
    alloc: Global,
    limits: Limits,
    rows: &[Exchange],
) -> Option<usize> {
    match Session::with_limits(alloc, limits) {
        Ok(mut session) => first_unmet_in(&mut session, rows),
        Err(_) => Some(0),
    }
}
