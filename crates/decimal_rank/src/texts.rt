//! Texts that a caller keeps, as a topic id, a docno or a page. A text of up to 23 bytes stands in
//! the value itself, so that making or copying it allocates nothing; a longer one stands on the
//! heap.
ghost use Rattle.std.specs.Prelude.{◌≡◌, ◌≤◌, IfOk, IsOk, length};
ghost use Rattle.std.specs.Str.{bytes_eq};
ghost use Rattle.std.specs.Cmp.{partial_order_from_own_ties};
ghost use Rattle.std.specs.Cmp.Lexicographic.{slice_cmp};
ghost use Rattle.std.specs.Cmp.Rules.{comparing, hashing};
ghost use Rattle.std.specs.Ordering.{nat_cmp, as_partial_cmp};
ghost use Rattle.std.proofs.Common.{rules};
ghost use Rattle.decimal_rank.specs.Tables.TextHashes.{text_writes};

pub(crate) mod appends;
pub(crate) mod numbers;
pub(crate) mod qrel_lines;

use crate::storage::Memory;
use indexmap::Equivalent;
use std::alloc::Global;
use std::cmp::Ordering;
use std::hash::{Hash, Hasher};
use std::marker::Model;

/// The most bytes of a text that stands in place.
const MOST_IN_PLACE: usize = 23;

/// Bytes that a caller keeps. Contracts see the list of the bytes, texts are equal and ordered by
/// their bytes, and a text hashes by its length and one write of its bytes.
#[derive(Debug)]
pub struct Text {
    kept: StoredBytes,
}

/// Where the bytes of a text stand.
#[derive(Debug, Drop)]
enum StoredBytes {
    // in place, the first of an array
    Short { len: u8, bytes: [u8; MOST_IN_PLACE] },
    // on the heap
    Long(Vec<u8>),
}

impl Model for Text {
    ghost use Rattle.std.specs.Prelude.{List, ℕ};
    ghost use Rattle.decimal_rank.specs.Texts.KeptTexts.{kept_bytes, IsWithinRoom};

    ghost Value = { List ℕ };

    ghost view = { λ text. kept_bytes text.kept };

    ghost invariant = { λ text. IsWithinRoom text.kept };
}

impl Text {
    /// A text of bytes that are there already, whatever their number.
    pub fn new(bytes: Vec<u8>) -> Text
        ensures { result ≡ bytes.items }
    {
        Text {
            kept: StoredBytes::Long(bytes),
        }
    }

    /// A copy of bytes, which allocates only for more than 23 of them.
    pub fn from_slice(alloc: Global, bytes: &[u8]) -> Result<Text, Memory>
        ensures text { IfOk result (λ text. text ≡ bytes.now) }
        ensures short { length bytes.now ≤ 23 → IsOk result }
    {
        if bytes.len() > MOST_IN_PLACE {
            return Ok(Text::new(Vec::from_slice(alloc, bytes)?));
        }
        Ok(Text::short(bytes))
    }

    /// A text in place.
    fn short(bytes: &[u8]) -> Text
        requires { length bytes.now ≤ 23 }
        ensures { result ≡ bytes.now }
    {
        let mut kept = [0; MOST_IN_PLACE];
        kept[..bytes.len()].copy_from_slice(bytes);
        Text {
            kept: StoredBytes::Short {
                len: bytes.len() as u8,
                bytes: kept,
            },
        }
    }

    /// The text's bytes.
    pub fn bytes(&self) -> &[u8]
        ensures { result.now ≡ self.now }
    {
        match &self.kept {
            StoredBytes::Short { len, bytes } => &bytes[..*len as usize],
            StoredBytes::Long(bytes) => bytes.as_slice(),
        }
    }

    /// The same bytes again, which allocates only for more than 23 of them.
    pub fn copy(&self) -> Result<Text, Memory>
        ensures copy { IfOk result (λ copy. copy ≡ self.now) }
        ensures short { length self.now ≤ 23 → IsOk result }
    {
        match &self.kept {
            StoredBytes::Short { len, bytes } => Ok(Text {
                kept: StoredBytes::Short {
                    len: *len,
                    bytes: *bytes,
                },
            }),
            StoredBytes::Long(bytes) => Text::from_slice(*bytes.allocator(), bytes.as_slice()),
        }
    }
}

// a call of its own, so that a caller's proof doesn't split by where the bytes stand
impl Drop for Text {
    fn drop(self) {
        let Text { kept: _ } = self;
    }
}

impl PartialEq for Text {
    ghost eq = { bytes_eq };

    ghost laws = { Prim.search (comparing, rules) };

    fn eq(&self, other: &Text) -> bool {
        self.bytes() == other.bytes()
    }
}

impl Eq for Text {
    ghost laws = { Prim.search (comparing, rules) };
}

impl PartialOrd for Text {
    ghost partial_cmp = { as_partial_cmp (slice_cmp nat_cmp) };

    ghost laws = { partial_order_from_own_ties (Prim.search (comparing, rules))
        (Prim.search (comparing, rules)) };

    fn partial_cmp(&self, other: &Text) -> Option<Ordering> {
        Some(self.cmp(other))
    }
}

impl Ord for Text {
    ghost cmp = { slice_cmp nat_cmp };

    ghost total = { Prim.search (comparing, rules) };

    ghost matches_partial_cmp = { Prim.search (comparing, rules) };

    ghost matches_eq = { Prim.search (comparing, rules) };

    fn cmp(&self, other: &Text) -> Ordering {
        self.bytes().cmp(other.bytes())
    }
}

impl Hash for Text {
    ghost hash_input = { text_writes };

    ghost respects_eq = { Prim.search (hashing, rules) };

    fn hash<H: Hasher>(&self, state: &mut H) {
        Wanted(self.bytes()).hash(state);
    }
}

/// Bytes by which a text is looked up in a table of texts.
#[derive(Clone, Copy, PartialEq, Eq)]
pub(crate) struct Wanted<'a>(pub(crate) &'a [u8]);

impl Hash for Wanted<'_> {
    ghost hash_input = { λ wanted. text_writes wanted.0.now };

    ghost respects_eq = { Prim.search (hashing, rules) };

    fn hash<H: Hasher>(&self, state: &mut H) {
        state.write_usize(self.0.len());
        state.write(self.0);
    }
}

impl Equivalent<Text> for Wanted<'_> {
    ghost equivalent = { λ wanted text. bytes_eq wanted.0.now text };

    ghost respects_hash = { λ wanted text. Prim.search (hashing, rules) };

    ghost respects_eq = { λ wanted text other. Prim.search (comparing, rules) };

    fn equivalent(&self, text: &Text) -> bool {
        self.0 == text.bytes()
    }
}
