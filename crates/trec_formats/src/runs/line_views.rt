//! A line of a run as it's lent, wherever its texts stand.
ghost use Rattle.std.specs.Prelude.{◌≡◌};
ghost use Rattle.trec_formats.specs.RunFormat.LineViews.{view_shown};

use crate::documents::DocumentLine;
use crate::runs::RunLine;
use decimal_rank::Decimal;

/// A line of a run.
#[derive(Clone, Copy)]
pub(crate) struct LineView<'a> {
    pub(crate) line: u32,
    pub(crate) topic: &'a [u8],
    pub(crate) doc: &'a [u8],
    pub(crate) score: &'a Decimal,
}

impl<'a> DocumentLine for LineView<'a> {
    ghost topic_of = { λ view. view.topic.now };

    ghost doc_of = { λ view. view.doc.now };

    ghost number_of = { λ view. view.line };

    fn topic(&self) -> &[u8] {
        self.topic
    }

    fn doc(&self) -> &[u8] {
        self.doc
    }

    fn number(&self) -> u32 {
        self.line
    }
}

/// A line that has texts of its own.
pub(crate) fn view_of(line: &RunLine) -> LineView<'_>
    ensures { view_shown result ≡ line.now }
{
    LineView {
        line: line.line,
        topic: line.topic.bytes(),
        doc: line.doc.bytes(),
        score: &line.score,
    }
}
