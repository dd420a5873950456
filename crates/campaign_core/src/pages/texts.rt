//! Texts that are printed in byte order.
ghost use Rattle.std.specs.Prelude.{◌≡◌, map, IfOk};
ghost use Rattle.decimal_rank.specs.Names.{docno_of};
ghost use Rattle.rulebook.specs.Words.{in_order as in_byte_order};
ghost use Rattle.campaign_core.specs.Texts.{texts_behind};

use decimal_rank::{DocId, Memory, Names};
use std::alloc::Global;

/// The texts in byte order, each once.
pub(crate) fn in_order<'a>(texts: Vec<&'a [u8]>) -> Vec<&'a [u8]>
    ensures { texts_behind result.items ≡ in_byte_order (texts_behind texts.entry.items) }
{
    let mut texts = texts;
    texts.sort_unstable();
    texts.dedup();
    texts
}

/// The docnos of documents.
pub(crate) fn docnos_of<'a>(
    alloc: Global,
    docnos: &'a Names,
    docs: &[DocId],
) -> Result<Vec<&'a [u8]>, Memory>
    ensures { IfOk result
        (λ texts. texts_behind texts.items ≡ map (λ doc. docno_of docnos.now doc.0) docs.now) }
{
    let mut texts = Vec::with_capacity(alloc, docs.len())?;
    for doc in docs {
        texts.push(docnos.name_or_empty(*doc))?;
    }
    Ok(texts)
}
