//! Names that are numbered as they come, so that layers above hand on numbers in place of texts.
ghost use Rattle.std.specs.Prelude.{◌≡◌, ℕ, ◌+◌, ◌<◌, ◌≤◌, ◌^◌, List, [], Some, length, take, IfOk, OnOk, OnErr, slice_get};
ghost use Rattle.decimal_rank.specs.Names.{with_name, number_of, docno_of};
ghost use Rattle.std.specs.List.{IsDistinct};
ghost use Rattle.std.specs.Option.{option_map};
ghost use Rattle.std.specs.Str.{bytes_eq};

use crate::storage::Memory;
use crate::tables::secrets::Secret;
use crate::texts::{Text, Wanted};
use indexmap::IndexSet;
use std::alloc::Global;
use std::marker::Model;

/// The number of a name in its `Names`, from 0.
#[derive(Clone, Copy, Debug, PartialEq, Eq, PartialOrd, Ord)]
pub struct DocId(pub u32);

/// Names, as the docnos of a topic or a campaign, numbered from 0 in the order in which they came.
/// Contracts see the list of the names.
#[derive(Drop)]
pub struct Names {
    set: IndexSet<Text, Secret>,
}

impl Model for Names {
    ghost Value = { List (List ℕ) };

    ghost view = { λ names. names.set.keys };

    ghost invariant = { λ names. length names.set.keys < 2 ^ 32 };
}

impl Names {
    /// No names.
    pub fn new(alloc: Global) -> Names
        ensures { result ≡ [] }
    {
        Names {
            set: IndexSet::with_hasher(alloc, Secret::drawn()),
        }
    }

    /// How many names there are.
    pub fn len(&self) -> u32
        ensures len { result ≡ length self.now }
        ensures distinct { IsDistinct bytes_eq self.now }
    {
        self.set.len() as u32
    }

    /// The number of a name, the next one where it wasn't there.
    pub fn add(&mut self, name: Text) -> Result<DocId, Memory>
        requires { length self.old + 1 < 2 ^ 32 }
        ensures added { OnOk result (self.new ≡ with_name self.old name) }
        ensures number { IfOk result (λ doc. number_of self.new name ≡ Some doc.0) }
        ensures err { OnErr result (self.new ≡ self.old) }
    {
        let (index, _) = self.set.insert_full(name)?;
        Ok(DocId(index as u32))
    }

    /// Keeps the first names alone.
    pub fn cut(&mut self, len: u32)
        requires { len ≤ length self.old }
        ensures { self.new ≡ take len self.old }
    {
        self.set.truncate(len as usize);
    }

    /// The number of a name, if it has one.
    pub fn find(&self, name: &[u8]) -> Option<DocId>
        ensures { option_map (λ doc. doc.0) result ≡ number_of self.now name.now }
    {
        let index = self.set.get_index_of(Wanted(name))?;
        Some(DocId(index as u32))
    }

    /// The name of a number.
    pub fn name(&self, doc: DocId) -> &[u8]
        requires { doc.0 < length self.now }
        ensures { slice_get self.now doc.0 ≡ Some result.now }
    {
        self.set[doc.0 as usize].bytes()
    }

    /// The name of a number, and no byte where there is none.
    pub fn name_or_empty(&self, doc: DocId) -> &[u8]
        ensures { result.now ≡ docno_of self.now doc.0 }
    {
        match self.set.get_index(doc.0 as usize) {
            Some(name) => name.bytes(),
            None => &[],
        }
    }
}
