//! The live runs with their submitters and their scores, as a release has them.
ghost use Rattle.std.specs.Prelude.{◌≡◌, ◌≤◌, IfOk, IsTrue, List, Some, length};
ghost use Rattle.assessment.specs.TopicFacts.{TopicFacts};
ghost use Rattle.rulebook.specs.Campaign.{History, Run, run_in, runs};
ghost use Rattle.rulebook.specs.Histories.Legal.{IsLegal};
ghost use Rattle.rulebook.specs.Reports.Systems.{are_means, are_sound_systems, system_of, systems};
ghost use Rattle.campaign_core.specs.CampaignStates.{KnowsRun};
ghost use Rattle.campaign_core.specs.Views.Lendings.{IsBoardOf};
ghost use Rattle.campaign_core.specs.Numbering.Submissions.{AreSubmissions, RunsAreKnown};

use crate::campaign::submissions::{Submission, name_of};
use crate::state::State;
use decimal_rank::{Memory, Rows, Text};
use depth_pool::RunId;
use rulebook::{Entry, MAX_RUNS, System, graded_are_on_trail, graded_are_there};
use score_index::Board;
use std::alloc::Global;

impl State {
    /// The live runs by submission, each with its submitter's name and its sums and means.
    pub fn systems(&self) -> Result<Rows<System>, Memory>
        ensures systems { IfOk result (λ rows. rows ≡ systems self.now.history) }
        ensures sound { IfOk result (λ rows. IsTrue (are_sound_systems rows)) }
    {
        let alloc = *self.campaign.history.allocator();
        let board = self.board();
        systems_of(
            alloc,
            &self.campaign.history,
            &self.campaign.submissions,
            board,
        )
    }
}

/// The live runs, by the entries that submit them.
fn systems_of(
    alloc: Global,
    history: &[Entry],
    submissions: &[Submission],
    board: &Board,
) -> Result<Rows<System>, Memory>
    requires legal { IsLegal history.now }
    requires submissions { AreSubmissions history.now submissions.now }
    requires runs { RunsAreKnown history.now }
    requires few { length (runs history.now) ≤ MAX_RUNS }
    requires board { IsBoardOf history.now board.now }
    ensures systems { IfOk result (λ rows. rows ≡ systems history.now) }
    ensures sound { IfOk result (λ rows. IsTrue (are_sound_systems rows)) }
{
    let mut systems = Vec::new(alloc);
    for (number, submission) in submissions.iter().enumerate() {
        let is_withdrawn = submission.is_withdrawn;
        if is_withdrawn {
            continue;
        }
        let entry = &history[submission.place as usize];
        let run = RunId(number as u16);
        let system = system_of(alloc, board, run, entry)?;
        systems.push(system)?;
    }
    Ok(Rows::new(systems))
}

/// The run that an entry submits, with its submitter's name and its sums and means.
fn system_of(alloc: Global, board: &Board, run: RunId, entry: &Entry) -> Result<System, Memory>
    ensures system { (H : History) (topics : List TopicFacts) (r : Run)
        → KnowsRun H topics board.now run r → run_in entry.now.core.command ≡ Some r
        → IfOk result (λ system. system ≡ system_of H entry.now.core.caller.name r) }
    ensures means { (H : History) (topics : List TopicFacts) (r : Run)
        → KnowsRun H topics board.now run r
        → IfOk result (λ system. IsTrue (are_means system.summary)) }
{
    // a document with a grade is on the trail
    graded_are_on_trail();
    graded_are_there();
    let name = Text::from_slice(alloc, name_of(entry))?;
    let group = entry.core.caller.name.copy()?;
    Ok(System {
        run: name,
        group,
        summary: board.summary(run),
    })
}
