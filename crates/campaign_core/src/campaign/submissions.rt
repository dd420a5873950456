//! The entries that submit runs, by their places in the history.
ghost use Rattle.std.specs.Prelude.{◌≡◌, ◌++◌, ◌∷◌, ◌&&◌, ◌<◌, ◌==◌, ◌^◌, [], filter, is_some, length, not};
ghost use Rattle.std.specs.List.{position};
ghost use Rattle.std.specs.Option.{option_map_or};
ghost use Rattle.std.specs.Str.{bytes_eq};
ghost use Rattle.assessment.specs.TopicsFacts.{at_place};
ghost use Rattle.rulebook.specs.Campaign.{line_count as lines_of, run_in, runs};
ghost use Rattle.rulebook.specs.Requests.Roles.{is_group};
ghost use Rattle.rulebook.specs.Reports.Scores.{is_submitter, submits};
ghost use Rattle.campaign_core.specs.Growth.{lists_in};
ghost use Rattle.campaign_core.specs.Numbering.Submissions.{AreSubmissions, IsRunAsked, MayNote, is_submitted_by, live_numbers, with_withdrawal};

use decimal_rank::Text;
use depth_pool::RunId;
use rulebook::{Caller, Command, Entry, Refusal, Role};
use trec_formats::TopicList;

/// An entry that submits a run.
#[derive(Clone, Copy)]
pub(crate) struct Submission {
    /// The place of the entry in the history, from 0.
    pub(crate) place: u32,
    /// Whether the run was withdrawn since.
    pub(crate) is_withdrawn: bool,
}

/// The name of the run that an entry submits: empty where it submits none.
pub(crate) fn name_of(entry: &Entry) -> &[u8]
    ensures { result.now ≡ option_map_or (λ run. run.name) (run_in entry.now.core.command) [] }
{
    let Command::Submit { run, .. } = &entry.core.command else {
        return &[];
    };
    run.bytes()
}

/// The lists of the run that a command submits: none where it submits no run.
pub(crate) fn lists_of(command: &Command) -> &[TopicList]
    ensures { result.now ≡ lists_in command.now }
{
    let Command::Submit { lists, .. } = command else {
        return &[];
    };
    lists.items()
}

fn submits(entry: &Entry, name: &[u8]) -> bool
    ensures { result ≡ submits name.now entry.now }
{
    let Command::Submit { run, .. } = &entry.core.command else {
        return false;
    };
    run.bytes() == name
}

/// The number of the run of this name, by submission from 0.
pub(crate) fn run_number(
    history: &[Entry],
    submissions: &[Submission],
    name: &[u8],
) -> Option<usize>
    requires { AreSubmissions history.now submissions.now }
    ensures { result ≡ position (λ run. bytes_eq run.name name.now) (runs history.now) }
{
    for (number, submission) in submissions.iter().enumerate() {
        if submits(&history[submission.place as usize], name) {
            return Some(number);
        }
    }
    None
}

/// The number of the run of this name, or why a caller has no part in it.
pub(crate) fn run_asked(
    history: &[Entry],
    submissions: &[Submission],
    who: &Caller,
    name: &Text,
) -> Result<usize, Refusal>
    requires { AreSubmissions history.now submissions.now }
    ensures { IsRunAsked history.now who.now name.now result }
{
    let Some(number) = run_number(history, submissions, name.bytes()) else {
        return Err(Refusal::UnknownRun);
    };
    if is_another_group(history, submissions, who, name) {
        return Err(Refusal::NotYours);
    }
    if submissions[number].is_withdrawn {
        return Err(Refusal::Withdrawn);
    }
    Ok(number)
}

/// Whether a caller is a group, and not the one that submitted the run of this name.
fn is_another_group(
    history: &[Entry],
    submissions: &[Submission],
    who: &Caller,
    name: &Text,
) -> bool
    requires { AreSubmissions history.now submissions.now }
    ensures { result
        ≡ (is_group who.now.role && not (is_submitter history.now who.now.name name.now)) }
{
    let Role::Group = who.role else {
        return false;
    };
    for submission in submissions {
        if is_submitted_by(&history[submission.place as usize], &who.name, name) {
            return false;
        }
    }
    true
}

fn is_submitted_by(entry: &Entry, caller: &Text, name: &Text) -> bool
    ensures { result ≡ is_submitted_by caller.now name.now entry.now }
{
    submits(entry, name.bytes()) && entry.core.caller.name.bytes() == caller.bytes()
}

/// How many lines a run has.
pub(crate) fn line_count(lists: &[TopicList]) -> u64
    requires { lines_of lists.now < 2 ^ 64 }
    ensures { result ≡ lines_of lists.now }
{
    lists.iter().map(|list| list.docs.len() as u64).sum()
}

/// Notes the run that an entry submits, or the one that leaves, since the entry withdraws it. The
/// entry is the next of the history.
pub(crate) fn note_run(
    history: &[Entry],
    submissions: &mut Vec<Submission>,
    live: &mut Vec<RunId>,
    entry: &Entry,
    leaving: Option<RunId>,
)
    requires { MayNote history.now submissions.old live.old entry.now leaving }
    ensures submissions { AreSubmissions (history.now ++ entry.now ∷ []) submissions.new.items }
    ensures live { live.new.items ≡ live_numbers (history.now ++ entry.now ∷ []) }
{
    if let Some(run) = leaving {
        note_withdrawal(submissions, run);
        take_out(live, run);
    } else if submits_run(&entry.core.command) {
        live.push_reserved(RunId(submissions.len() as u16));
        submissions.push_reserved(Submission {
            place: history.len() as u32,
            is_withdrawn: false,
        });
    }
}

/// Takes a run out of the live ones.
fn take_out(live: &mut Vec<RunId>, run: RunId)
    ensures { live.new.items ≡ filter (λ other. not (other.0 == run.0)) live.old.items }
{
    live.retain(|other| other.0 != run.0);
}

/// Notes that a run is withdrawn.
fn note_withdrawal(submissions: &mut [Submission], run: RunId)
    requires { run.0 < length submissions.old }
    ensures { submissions.new ≡ at_place run.0 with_withdrawal submissions.old }
{
    submissions[usize::from(run.0)].is_withdrawn = true;
}

fn submits_run(command: &Command) -> bool
    ensures { result ≡ is_some (run_in command.now) }
{
    matches!(command, Command::Submit { .. })
}
