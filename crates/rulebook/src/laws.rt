//! What holds of every campaign by its rules: how labels, rulings and effective grades follow from
//! entries, that a lease ends once, that a number is used once, that moments don't fall, and that
//! entries have a spelling and room in the journal.
ghost use Rattle.rulebook.specs.Histories.Additions.{AddedAreAccepted, EntriesAreFew, EntriesAreSpelled, FoundingFits, LegalFit, MomentsAreInTime, MomentsRise, RunsAreFew};
ghost use Rattle.rulebook.specs.Histories.Entries.{GradedAreOnTrail, GradedAreThere, LabelledAreListed, LabelsJoin, QuietEntriesKeepGrades, RulingsJoin};
ghost use Rattle.rulebook.specs.Histories.Facts.{GradesTellTheirLeases, KeptRepliesAreFirst, LabelsAreFew, LabelsAreTheLastGrades, LabelsGoByLeases, LeasesEndOnce, LiveRunsAreNotWithdrawn, NumbersAreUsedOnce, TopicsAreGivenOnce};
ghost use Rattle.rulebook.specs.Judgements.Holders.{HoldersHold};
ghost use Rattle.rulebook.specs.Requests.Limits.{LimitsAreTheRules};
ghost use Rattle.rulebook.specs.Requests.PlainReplies.{CommandsAreAnsweredShort, EntriesArePlain, RepliesArePlain};

/// An entry that gives no label and no ruling leaves each label, ruling, effective grade and trail.
pub fn quiet_entries_keep_grades()
    ensures { QuietEntriesKeepGrades }
{}

/// An entry that gives a label changes the labels of its document alone, which goes last in the
/// trail where it has its first effective grade then.
pub fn labels_join()
    ensures { LabelsJoin }
{}

/// An entry that rules on a document that has a label gives it its effective grade, and changes no
/// other document's. It goes last in the trail where it wasn't there.
pub fn rulings_join()
    ensures { RulingsJoin }
{}

/// The documents of a topic with an effective grade are those of the trail that have one.
pub fn graded_are_on_trail()
    ensures { GradedAreOnTrail }
{}

/// The documents of a topic that are listed as labelled are those with a label.
pub fn labelled_are_listed()
    ensures { LabelledAreListed }
{}

/// In a list of entries that can come about each document with an effective grade is on the trail.
pub fn graded_are_there()
    ensures { GradedAreThere }
{}

/// The commands of a legal history are plain, and so are their replies, which are short.
pub fn entries_are_plain()
    ensures { EntriesArePlain }
{}

/// A well addressed request to a legal history has a plain reply.
pub fn replies_are_plain()
    ensures { RepliesArePlain }
{}

/// A well addressed command to a legal history has a short reply.
pub fn commands_are_answered_short()
    ensures { CommandsAreAnsweredShort }
{}

/// The entry that a request adds is accepted by its own core alone, and keeps the list legal.
pub fn added_are_accepted()
    ensures { AddedAreAccepted }
{}

/// The numbers that are looked at are the limits of the rules.
pub fn limits_are_the_rules()
    ensures { LimitsAreTheRules }
{}

/// A legal list has at most `MAX_ENTRIES` entries.
pub fn entries_are_few()
    ensures { EntriesAreFew }
{}

/// A legal list has at most `MAX_RUNS` runs.
pub fn runs_are_few()
    ensures { RunsAreFew }
{}

/// The moments of a legal list are at most `MAX_MOMENT`.
pub fn moments_are_in_time()
    ensures { MomentsAreInTime }
{}

/// The moments of a legal list don't fall.
pub fn moments_rise()
    ensures { MomentsRise }
{}

/// Each entry of a legal list has a spelling, which has room in a record.
pub fn entries_are_spelled()
    ensures { EntriesAreSpelled }
{}

/// The first entry has room in a record.
pub fn founding_fits()
    ensures { FoundingFits }
{}

/// A journal of a legal list has room in 2^39 bytes.
pub fn legal_fit()
    ensures { LegalFit }
{}

/// A campaign gets its topics once.
pub fn topics_are_given_once()
    ensures { TopicsAreGivenOnce }
{}

/// No two entries have one caller's name and one number.
pub fn numbers_are_used_once()
    ensures { NumbersAreUsedOnce }
{}

/// The reply that is kept for a number is the one that its entry was first given.
pub fn kept_replies_are_first()
    ensures { KeptRepliesAreFirst }
{}

/// A lease ends once, by its grade or its release.
pub fn leases_end_once()
    ensures { LeasesEndOnce }
{}

/// A Grade entry is told the topic and the document of the lease that it names.
pub fn grades_tell_their_leases()
    ensures { GradesTellTheirLeases }
{}

/// Labels go by the leases that Grade entries name.
pub fn labels_go_by_leases()
    ensures { LabelsGoByLeases }
{}

/// The label of an assessor on a document is the last grade that they gave it, by Grade or Amend.
pub fn labels_are_the_last_grades()
    ensures { LabelsAreTheLastGrades }
{}

/// A document never has more labels and live leases together than its topic needs labels.
pub fn labels_are_few()
    ensures { LabelsAreFew }
{}

/// A withdrawn run is no live run, so it holds nothing.
pub fn live_runs_are_not_withdrawn()
    ensures { LiveRunsAreNotWithdrawn }
{}

/// The holders of a document are the live runs that hold it, by their numbers of submission.
pub fn holders_hold()
    ensures { HoldersHold }
{}
