//! The grades that assessors gave one document, and whether they agree.
ghost use Rattle.std.specs.Prelude.{◌≡◌, ◌==◌, map, position, slice_get};
ghost use Rattle.std.specs.List.{list_all};
ghost use Rattle.std.specs.Str.{bytes_eq};
ghost use Rattle.labels.specs.Grades.{common_grade, grades_differ};

use decimal_rank::Text;

/// The last grade that an assessor gave a document.
#[derive(Drop)]
pub(crate) struct Given {
    pub(crate) assessor: Text,
    pub(crate) grade: u8,
}

/// The index of an assessor's label.
pub(crate) fn place_of(given: &[Given], assessor: &[u8]) -> Option<usize>
    ensures { result ≡ position (λ label. bytes_eq label.assessor assessor.now) given.now }
{
    given
        .iter()
        .position(|label| label.assessor.bytes() == assessor)
}

/// The grade of the label at a place.
pub(crate) fn grade_at(given: &[Given], place: usize) -> Option<u8>
    ensures { result ≡ slice_get (map (λ label. label.grade) given.now) place }
{
    Some(given.get(place)?.grade)
}

/// The grade of so many labels that agree.
pub(crate) fn common(given: &[Given], need: u32) -> Option<u8>
    ensures { result ≡ common_grade need (map (λ label. label.grade) given.now) }
{
    match given {
        [first, others @ ..] if given.len() == need as usize && is_each(others, first.grade) => {
            Some(first.grade)
        }
        _ => None,
    }
}

/// Whether each label is this grade.
fn is_each(given: &[Given], grade: u8) -> bool
    ensures { result ≡ list_all (λ label. label.grade == grade) given.now }
{
    given.iter().all(|label| label.grade == grade)
}

/// Whether there are two labels, and they differ.
pub(crate) fn are_two_that_differ(given: &[Given]) -> bool
    ensures { result ≡ grades_differ (map (λ label. label.grade) given.now) }
{
    match given {
        [first, second] => first.grade != second.grade,
        _ => false,
    }
}
