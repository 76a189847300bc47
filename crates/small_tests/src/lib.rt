//! Tests of the parts that know neither texts nor lines, by public calls.
#![tactic(auto)]

#[cfg(test)]
mod id_table_tests;
#[cfg(test)]
mod large_tests;
#[cfg(test)]
mod macro_script_tests;
#[cfg(test)]
mod notify_tests;
#[cfg(test)]
mod reply_tests;
