//! Docnos that are numbered, for the tests of what stands in their order.
use decimal_rank::{Names, Text};
use std::alloc::Global;
use std::test::Fail;

/// Numbers these docnos, as long as fewer than a thousand have numbers.
pub(crate) fn add_docnos(alloc: Global, names: &mut Names, docnos: &[&[u8]]) -> Result<(), Fail> {
    for docno in docnos {
        add(alloc, names, docno)?;
    }
    Ok(())
}

fn add(alloc: Global, names: &mut Names, docno: &[u8]) -> Result<(), Fail> {
    if names.len() < 1000 {
        names.add(Text::from_slice(alloc, docno)?)?;
    }
    Ok(())
}
