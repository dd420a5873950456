//! The docnos of a list in one vector of bytes, and where each ends. They take as much as their
//! bytes and four more each, and no allocation of their own.
ghost use Rattle.std.specs.Prelude.{◌≡◌, ◌≤◌, ◌<◌, ◌+◌, ◌++◌, ◌∷◌, [], ℕ, Some, get_or, length, IfOk, OnErr, OnOk, slice_get};
ghost use Rattle.std.specs.Cmp.Lexicographic.{pointwise};
ghost use Rattle.std.specs.Cmp.Rules.{comparing};
ghost use Rattle.std.proofs.Common.{rules};
ghost use Rattle.std.specs.Str.{bytes_eq};

use decimal_rank::Memory;
use std::alloc::Global;
use std::marker::Model;

/// As many bytes as places number.
const MOST_BYTES: usize = 4_294_967_295;

/// Docnos in their order. Contracts see the list of the docnos.
#[derive(Debug, Drop)]
pub struct Docnos {
    bytes: Vec<u8>,
    // where each docno ends, which is where the next begins
    ends: Vec<u32>,
}

impl Model for Docnos {
    ghost use Rattle.std.specs.Prelude.{List, ℕ, length};
    ghost use Rattle.trec_formats.specs.DocnoParts.{parts_from, AreEnds};

    ghost Value = { List (List ℕ) };

    ghost view = { λ docnos. parts_from 0 docnos.ends.items docnos.bytes.items };

    ghost invariant = { λ docnos. AreEnds 0 docnos.ends.items (length docnos.bytes.items) };
}

impl Docnos {
    /// No docnos.
    pub fn new(alloc: Global) -> Docnos
        ensures { result ≡ [] }
    {
        Docnos {
            bytes: Vec::new(alloc),
            ends: Vec::new(alloc),
        }
    }

    /// No docno yet, and room for the ends of so many.
    pub fn with_capacity(alloc: Global, count: usize) -> Result<Docnos, Memory>
        ensures { IfOk result (λ docnos. docnos ≡ []) }
    {
        Ok(Docnos {
            bytes: Vec::new(alloc),
            ends: Vec::with_capacity(alloc, count)?,
        })
    }

    /// How many docnos there are.
    pub fn len(&self) -> usize
        ensures { result ≡ length self.now }
    {
        self.ends.len()
    }

    /// The docno at a place, from 0.
    pub fn at(&self, place: usize) -> &[u8]
        requires { place < length self.now }
        ensures { slice_get self.now place ≡ Some result.now }
    {
        let start = start_of(self.ends.as_slice(), place) as usize;
        let end = self.ends[place] as usize;
        &self.bytes[start..end]
    }

    /// Adds a docno, or leaves them as they were. More bytes than places number are as want of
    /// memory.
    pub fn push(&mut self, docno: &[u8]) -> Result<(), Memory>
        ensures added { OnOk result (self.new ≡ self.old ++ docno.now ∷ []) }
        ensures unchanged { OnErr result (self.new ≡ self.old) }
    {
        append_part(&mut self.bytes, &mut self.ends, docno)?;
        Ok(())
    }

    /// Gives back the room that no docno takes.
    pub fn shrink_to_fit(&mut self)
        ensures { self.new ≡ self.old }
    {
        self.bytes.shrink_to_fit();
        self.ends.shrink_to_fit();
    }
}

impl PartialEq for Docnos {
    ghost eq = { pointwise bytes_eq };

    ghost laws = { Prim.search (comparing, rules) };

    fn eq(&self, other: &Docnos) -> bool {
        self.ends == other.ends && self.bytes == other.bytes
    }
}

/// Where the docno at a place begins.
fn start_of(ends: &[u32], place: usize) -> u32
    requires { place ≤ length ends.now }
    ensures { result ≡ get_or (0 ∷ ends.now) place 0 }
{
    if place == 0 {
        return 0;
    }
    ends[place - 1]
}

/// Adds a docno and its end, or leaves both as they were.
fn append_part(bytes: &mut Vec<u8>, ends: &mut Vec<u32>, docno: &[u8]) -> Result<(), Memory>
    ensures bytes { OnOk result (bytes.new.items ≡ bytes.old.items ++ docno.now) }
    ensures ends { OnOk result
        (ends.new.items ≡ ends.old.items ++ (length bytes.old.items + length docno.now) ∷ []) }
    ensures same_bytes { OnErr result (bytes.new.items ≡ bytes.old.items) }
    ensures same_ends { OnErr result (ends.new.items ≡ ends.old.items) }
{
    let end = bytes.len() + docno.len();
    if end > MOST_BYTES {
        return Err(Memory);
    }
    ends.reserve(1)?;
    bytes.extend_from_slice(docno)?;
    ends.push_reserved(end as u32);
    Ok(())
}
