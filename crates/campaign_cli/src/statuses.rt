//! The statuses of the program.
/// The status that the program ends with: 0 where its work is done, and else a number for the
/// cause.
#[derive(Clone, Copy, Debug, PartialEq, Eq)]
pub struct Status(pub u8);
