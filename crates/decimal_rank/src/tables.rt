//! Tables that find items by a key, and the secrets by which they hash.

pub(crate) mod chains;
pub(crate) mod searches;
pub(crate) mod secrets;
