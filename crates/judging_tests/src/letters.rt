//! The numbers of documents, by the letters that the rows call them.
pub(crate) const A: u32 = 0;

pub(crate) const B: u32 = 1;

pub(crate) const C: u32 = 2;

pub(crate) const D: u32 = 3;

pub(crate) const E: u32 = 4;

pub(crate) const F: u32 = 5;

pub(crate) const G: u32 = 6;
