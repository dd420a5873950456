//! One topic as far as its lines are read, with the limits of its texts.
ghost use Rattle.std.specs.Prelude.{◌≡◌, ℕ, List, [], IfOk, OnOk, length, nat_lt, unwrap_or};
ghost use Rattle.std.specs.Option.{is_some, option_map};
ghost use Rattle.trec_formats.specs.TopicsFormat.FieldTexts.{with_more_text};
ghost use Rattle.trec_formats.specs.TopicsFormat.TopicLines.{Begins, Numbers, Says};
ghost use Rattle.trec_formats.specs.TopicsFormat.TopicLineViews.{kind_seen};
ghost use Rattle.trec_formats.specs.TopicsFormat.TopicBlocks.{begun_in, block_behind, topic_at_end, is_long_in, part_in, said_in, within_limits, TellsBy};

use crate::faults::{FormatEnd, Kind};
use crate::names::is_name;
use crate::topics::Topic;
use crate::topics::topic_fields::Field;
use crate::topics::topic_lines::{LineKind, TopicField};
use decimal_rank::{Memory, Text};
use std::alloc::Global;

/// The most bytes of a title.
const TITLE_BYTES: usize = 1000;

/// The most bytes of a description, and of a narrative.
const LONG_BYTES: usize = 8192;

/// A block as far as its lines were read.
#[derive(Drop)]
pub(crate) struct Block {
    /// The line of its number, and its text.
    number: Option<(u32, Text)>,
    title: Option<Field>,
    desc: Option<Field>,
    narr: Option<Field>,
    /// The part that a line without a tag goes on with.
    present: Option<TopicField>,
}

fn add_to(field: &mut Option<Field>, text: &[u8]) -> Result<(), Memory>
    ensures { OnOk result
        (field.new ≡ option_map (λ kept. with_more_text kept text.now) field.old) }
{
    if let Some(kept) = field {
        kept.add(text)?;
    }
    Ok(())
}

/// The text of a field that is begun with this text.
fn begun(alloc: Global, text: &[u8]) -> Result<Option<Field>, Memory>
    ensures { IfOk result (λ field. field ≡ Some (with_more_text [] text.now)) }
{
    let mut field = Field::new(alloc);
    field.add(text)?;
    Ok(Some(field))
}

fn is_longer(field: &Option<Field>, limit: usize) -> bool
    ensures { result ≡ nat_lt limit (length (unwrap_or field.now [])) }
{
    match field {
        Some(kept) => limit < kept.len(),
        None => false,
    }
}

impl Block {
    pub(crate) fn new() -> Block
        ensures { result
            ≡ record { number = None; title = None; desc = None; narr = None; present = None } }
    {
        Block {
            number: None,
            title: None,
            desc: None,
            narr: None,
            present: None,
        }
    }

    fn has(&self, part: TopicField) -> bool
        ensures { result ≡ is_some (part_in part self.now) }
    {
        match part {
            TopicField::Title => self.title.is_some(),
            TopicField::Desc => self.desc.is_some(),
            TopicField::Narr => self.narr.is_some(),
        }
    }

    fn is_long(&self) -> bool
        ensures { result ≡ is_long_in self.now }
    {
        is_longer(&self.title, TITLE_BYTES)
            || is_longer(&self.desc, LONG_BYTES)
            || is_longer(&self.narr, LONG_BYTES)
    }

    fn begin(&mut self, alloc: Global, part: TopicField, text: &[u8]) -> Result<(), Memory>
        ensures { OnOk result (self.new ≡ begun_in self.old part text.now) }
    {
        let field = begun(alloc, text)?;
        match part {
            TopicField::Title => self.title = field,
            TopicField::Desc => self.desc = field,
            TopicField::Narr => self.narr = field,
        }
        self.present = Some(part);
        Ok(())
    }

    fn say(&mut self, text: &[u8]) -> Result<(), Memory>
        ensures { OnOk result (self.new ≡ said_in self.old text.now) }
    {
        match self.present {
            Some(TopicField::Title) => add_to(&mut self.title, text),
            Some(TopicField::Desc) => add_to(&mut self.desc, text),
            Some(TopicField::Narr) => add_to(&mut self.narr, text),
            None => Ok(()),
        }
    }

    fn check_length(&self, number: u32) -> Result<(), FormatEnd>
        ensures { TellsBy (λ _. self.now) result number (within_limits self.now) }
    {
        if self.is_long() {
            return Err(FormatEnd::at(number, Kind::TooLong));
        }
        Ok(())
    }

    fn read_number(&mut self, alloc: Global, number: u32, text: &[u8]) -> Result<(), FormatEnd>
        ensures { TellsBy (λ _. self.new) result number
            (block_behind self.old (number, Numbers text.now)) }
    {
        if self.number.is_some() {
            return Err(FormatEnd::at(number, Kind::Tag));
        }
        if !is_name(text) {
            return Err(FormatEnd::at(number, Kind::Topic));
        }
        self.number = Some((number, Text::from_slice(alloc, text)?));
        self.present = None;
        Ok(())
    }

    fn read_part(
        &mut self,
        alloc: Global,
        number: u32,
        part: TopicField,
        text: &[u8],
    ) -> Result<(), FormatEnd>
        ensures { TellsBy (λ _. self.new) result number
            (block_behind self.old (number, Begins part text.now)) }
    {
        if self.has(part) {
            return Err(FormatEnd::at(number, Kind::Tag));
        }
        self.begin(alloc, part, text)?;
        self.check_length(number)
    }

    fn read_text(&mut self, number: u32, text: &[u8]) -> Result<(), FormatEnd>
        ensures { TellsBy (λ _. self.new) result number
            (block_behind self.old (number, Says text.now)) }
    {
        self.say(text)?;
        self.check_length(number)
    }

    /// Reads a line of the block that doesn't end it.
    pub(crate) fn read_line(
        &mut self,
        alloc: Global,
        number: u32,
        mark: LineKind,
    ) -> Result<(), FormatEnd>
        ensures { TellsBy (λ _. self.new) result number
            (block_behind self.old (number, kind_seen mark.entry)) }
    {
        match mark {
            LineKind::Opens | LineKind::Closes => Err(FormatEnd::at(number, Kind::Tag)),
            LineKind::Numbers(text) => self.read_number(alloc, number, text),
            LineKind::Begins(part, text) => self.read_part(alloc, number, part, text),
            LineKind::Skips => {
                self.present = None;
                Ok(())
            }
            LineKind::Says(text) => self.read_text(number, text),
        }
    }

    /// The topic of a block that ends, with the line of its number. It has none without a number or
    /// a title.
    pub(crate) fn into_topic(self, alloc: Global) -> Option<(u32, Topic)>
        ensures { result ≡ topic_at_end self }
    {
        let (line, id) = self.number?;
        let title = self.title?;
        Some((
            line,
            Topic {
                id,
                title: title.into_text(),
                desc: text_or_empty(alloc, self.desc),
                narr: text_or_empty(alloc, self.narr),
            },
        ))
    }
}

/// The text of a field, which is empty where it wasn't begun.
fn text_or_empty(alloc: Global, field: Option<Field>) -> Text
    ensures { result ≡ unwrap_or field [] }
{
    match field {
        Some(kept) => kept.into_text(),
        None => Text::new(Vec::new(alloc)),
    }
}
