//! The commands of the program, each with what it does and how it ends.

mod agreements;
pub(crate) mod archives;
mod checks;
pub(crate) mod compactions;
pub(crate) mod displays;
pub(crate) mod drills;
pub(crate) mod evaluations;
pub(crate) mod reports;
mod reuses;
pub(crate) mod servers;
pub(crate) mod sessions;
