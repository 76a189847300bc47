//! Tests of sessions, by public calls.
#![tactic(auto)]

#[cfg(test)]
mod editor_session_tests;
#[cfg(test)]
mod exchanges;
#[cfg(test)]
mod large_session_tests;
#[cfg(test)]
mod lending_tests;
#[cfg(test)]
mod message_tests;
#[cfg(test)]
mod reading_tests;
