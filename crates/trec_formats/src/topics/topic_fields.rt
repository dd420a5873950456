//! The text of a topic's field, gathered from its lines with a space between each two.
ghost use Rattle.std.specs.Prelude.{◌≡◌, ℕ, List, ◌++◌, [], map, length, OnOk};
ghost use Rattle.trec_formats.specs.TopicsFormat.TopicLines.{shown_byte};
ghost use Rattle.trec_formats.specs.TopicsFormat.FieldTexts.{with_more_text};

use crate::topics::topic_lines::shown_byte;
use decimal_rank::{Memory, Text};
use std::alloc::Global;
use std::marker::Model;

/// The text of a field as far as its lines were read. Contracts see the list of the bytes.
#[derive(Drop)]
pub(crate) struct Field {
    bytes: Vec<u8>,
}

impl Model for Field {
    ghost Value = { List ℕ };

    ghost view = { λ field. field.bytes.items };
}

fn push_shown(bytes: &mut Vec<u8>, text: &[u8]) -> Result<(), Memory>
    ensures { OnOk result (bytes.new.items ≡ bytes.old.items ++ map shown_byte text.now) }
{
    for byte in text {
        bytes.push(shown_byte(*byte))?;
    }
    Ok(())
}

impl Field {
    pub(crate) fn new(alloc: Global) -> Field
        ensures { result ≡ [] }
    {
        Field {
            bytes: Vec::new(alloc),
        }
    }

    /// Adds one more text, behind a space where there is a text already.
    pub(crate) fn add(&mut self, text: &[u8]) -> Result<(), Memory>
        ensures { OnOk result (self.new ≡ with_more_text self.old text.now) }
    {
        if text.is_empty() {
            return Ok(());
        }
        if !self.bytes.is_empty() {
            self.bytes.push(b' ')?;
        }
        push_shown(&mut self.bytes, text)
    }

    pub(crate) fn len(&self) -> usize
        ensures { result ≡ length self.now }
    {
        self.bytes.len()
    }

    pub(crate) fn into_text(self) -> Text
        ensures { result ≡ self }
    {
        Text::new(self.bytes)
    }
}
