//! How many documents of a topic are relevant (R), and how many have a grade and aren't (N), while
//! grades change.
ghost use Rattle.std.specs.Prelude.{◌≡◌, ◌<◌, ◌≤◌, ◌+◌, ◌-◌, ◌^◌};
ghost use Rattle.qrels_view.specs.CountedGrades.{IsCounted, recounted_from};
ghost use Rattle.qrels_view.specs.Grades.{as_number, is_non_relevant, is_relevant};

use decimal_rank::{is_non_relevant, is_relevant};

/// How many documents of a topic are relevant, and how many have a grade and aren't.
#[derive(Clone, Copy, Debug, PartialEq, Eq)]
pub struct Counts {
    pub relevant: u32,
    pub non_relevant: u32,
}

impl Counts {
    /// Those of a topic without grades.
    pub fn none() -> Counts
        ensures relevant { result.relevant ≡ 0 }
        ensures non_relevant { result.non_relevant ≡ 0 }
    {
        Counts {
            relevant: 0,
            non_relevant: 0,
        }
    }

    /// The counts after the grade `old` of one document becomes `new`. A document is relevant where
    /// its grade is at least the level.
    pub fn regraded(self, level: u8, old: Option<u8>, new: Option<u8>) -> Counts
        requires counted { IsCounted level old self }
        requires few_relevant { recounted_from self.relevant (is_relevant level old)
            (is_relevant level new) < 2 ^ 32 }
        requires few_non_relevant { recounted_from self.non_relevant (is_non_relevant level old)
            (is_non_relevant level new) < 2 ^ 32 }
        ensures relevant { result.relevant
            ≡ recounted_from self.relevant (is_relevant level old) (is_relevant level new) }
        ensures non_relevant { result.non_relevant ≡ recounted_from self.non_relevant
            (is_non_relevant level old) (is_non_relevant level new) }
    {
        Counts {
            relevant: recount(
                self.relevant,
                is_relevant(level, old),
                is_relevant(level, new),
            ),
            non_relevant: recount(
                self.non_relevant,
                is_non_relevant(level, old),
                is_non_relevant(level, new),
            ),
        }
    }
}

/// A count after one document was counted or not, and now is or not.
fn recount(count: u32, was: bool, is: bool) -> u32
    requires least { as_number was ≤ count }
    requires most { recounted_from count was is < 2 ^ 32 }
    ensures { result ≡ recounted_from count was is }
{
    count - u32::from(was) + u32::from(is)
}
