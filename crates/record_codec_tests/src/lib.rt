//! Tests of the codec's public calls, and of the rulebook's (`callers_and_replies`).
#![tactic(auto)]

#[cfg(test)]
mod bundle_bytes;
#[cfg(test)]
mod bundle_tests;
#[cfg(test)]
mod callers_and_replies;
#[cfg(test)]
mod entries;
#[cfg(test)]
mod payload_tests;
#[cfg(test)]
mod spellings;
#[cfg(test)]
mod tests;
