//! What a state lends, in the words of the rules.
ghost use Rattle.campaign_core.specs.Views.LendingLaws.{BoardsScoreByTheRules, QueuesAreInTheRulesOrder};
ghost use Rattle.campaign_core.specs.Numbering.NumberedGrades.{CellsByNumbers};
ghost use Rattle.campaign_core.specs.Numbering.NumberedHolders.{HoldersByNumbers};

use rulebook::{graded_are_on_trail, graded_are_there};

/// The board that a state lends stands for grades by which each live run's cells are those of the
/// rules.
pub fn boards_score_by_the_rules()
    ensures { BoardsScoreByTheRules }
{
    graded_are_on_trail();
    graded_are_there();
}

/// The queue of a topic that a state lends has the live runs in the judging order by the trail.
pub fn queues_are_in_the_rules_order()
    ensures { QueuesAreInTheRulesOrder }
{}

/// The cell of a run by the numbers of its documents, and by grades that are some of the effective
/// ones, is that of its documents.
pub fn cells_by_numbers()
    ensures { CellsByNumbers }
{
    graded_are_on_trail();
    graded_are_there();
}

/// The runs of the pool that a state lends which hold a document are the live runs that hold it.
pub fn holders_by_numbers()
    ensures { HoldersByNumbers }
{}
