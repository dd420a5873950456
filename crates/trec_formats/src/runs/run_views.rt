//! A line of a run that is read where it stands, without a copy of its fields.
ghost use Rattle.std.specs.Prelude.{◌≡◌, ◌≢◌, [], ◌∷◌, length, Ok, Err, MatchOption, MatchResult};
ghost use Rattle.trec_formats.specs.RunFormat.LineViews.{run_shown, view_shown};
ghost use Rattle.trec_formats.specs.Lines.{fields_of};
ghost use Rattle.trec_formats.specs.Names.{is_docno};
ghost use Rattle.trec_formats.specs.RunFormat.Runs.{run_of};

use crate::docno_fields::cut_docno;
use crate::faults::Kind;
use crate::lines::cut_field;
use crate::names::is_name;
use crate::runs::line_views::LineView;
use decimal_rank::Decimal;

/// What a line of a run says, its texts lent from the line.
#[derive(Drop)]
pub(crate) struct RunView<'a> {
    pub(crate) line: u32,
    pub(crate) topic: &'a [u8],
    pub(crate) doc: &'a [u8],
    pub(crate) score: Decimal,
}

/// The fields of a line that has exactly six, and whether the third is a docno.
fn six_fields(line: &[u8]) -> Option<(&[u8], &[u8], &[u8], bool, &[u8], &[u8], &[u8])>
    ensures { MatchOption result (length (fields_of line.now) ≢ 6) (λ f.
        (fields_of line.now ≡ f.0.now ∷ f.1.now ∷ f.2.now ∷ f.4.now ∷ f.5.now ∷ f.6.now ∷ [])
        × (f.3 ≡ is_docno f.2.now)) }
{
    let (first, rest) = cut_field(line)?;
    let (second, rest) = cut_field(rest)?;
    let (third, is_docno, rest) = cut_docno(rest)?;
    let (fourth, rest) = cut_field(rest)?;
    let (fifth, rest) = cut_field(rest)?;
    let (sixth, rest) = cut_field(rest)?;
    match cut_field(rest) {
        Some(_) => None,
        None => Some((first, second, third, is_docno, fourth, fifth, sixth)),
    }
}

/// What the line of a number says, or its fault.
#[tactic(auto, unfolding(crate::specs::RunFormat::Runs::run_of))]
pub(crate) fn run_view(number: u32, line: &[u8]) -> Result<RunView<'_>, Kind>
    ensures { MatchResult result
        (λ view. run_of (number, fields_of line.now) ≡ Ok (run_shown view))
        (λ kind. run_of (number, fields_of line.now) ≡ Err kind) }
{
    let Some((topic, _, doc, is_docno, _, score, _)) = six_fields(line) else {
        return Err(Kind::Fields);
    };
    if !is_name(topic) {
        return Err(Kind::Topic);
    }
    if !is_docno {
        return Err(Kind::Docno);
    }
    match Decimal::read(score) {
        Ok(score) => Ok(RunView {
            line: number,
            topic,
            doc,
            score,
        }),
        Err(cause) => Err(Kind::Score(cause)),
    }
}

/// A view whose score is lent too.
pub(crate) fn lent<'a>(view: &'a RunView<'a>) -> LineView<'a>
    ensures { view_shown result ≡ run_shown view.now }
{
    LineView {
        line: view.line,
        topic: view.topic,
        doc: view.doc,
        score: &view.score,
    }
}
