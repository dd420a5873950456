//! The leases of a campaign, in the order of their numbers, and how many of them are live on a
//! document, on a topic and of an assessor.
//!
//! - `desk`: the leases by number, and the counts (what contracts see: `specs/DeskView.antt`).
//! - `leases`: a lease; when it is live, and how it is granted and ends: `specs/Leases.antt`.
//! - `series`: the leases of one key, from the newest back, by links (`specs/Series.antt`).
//!   `walks`: the walk over those that haven't ended.
#![tactic(auto)]

mod desk;
mod leases;
mod series;
mod walks;

pub use desk::Desk;
pub use leases::{Lease, LeaseEnd};
