//! Tests of which messages are requests, of what requests are read as, and of the texts of answers.
//!
//! - `wire_messages`: the bytes of a connection as requests, and the texts of heads.
//! - `request_rows`: requests and what each asks, in words, or its first fault, over `callers`,
//!   `requests` (a row as a request) and `readings` (what it is read as, whole and in pieces).
//! - `answer_texts`: statuses and bodies.
#![tactic(auto)]

#[cfg(test)]
mod answer_texts;
#[cfg(test)]
mod callers;
#[cfg(test)]
mod readings;
#[cfg(test)]
mod request_rows;
#[cfg(test)]
mod requests;
#[cfg(test)]
mod wire_messages;
