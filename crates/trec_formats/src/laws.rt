//! Every text has exactly one reading as a run, as a run that can be ranked, and as qrels.
ghost use Rattle.std.specs.Prelude.{ℕ, List};
ghost use Rattle.trec_formats.specs.Faults.{ExactlyOne};
ghost use Rattle.trec_formats.specs.RunFormat.Lists.{IsRankableReading};
ghost use Rattle.trec_formats.specs.QrelsFormat.Qrels.{IsQrelsReading};
ghost use Rattle.trec_formats.specs.RunFormat.Runs.{IsRunReading};

/// Every text is read as a run in exactly one way: as its lines, or as its fault.
pub fn one_run_reading()
    ensures { (text : List ℕ) → ExactlyOne (IsRunReading text) }
{}

/// Every text is read as a run that can be ranked in exactly one way: as its lines, as its first
/// fault, or as its first repeat of a document on a topic.
pub fn one_rankable_reading()
    ensures { (text : List ℕ) → ExactlyOne (IsRankableReading text) }
{}

/// Every text is read as qrels in exactly one way: as its lines, or as its fault.
pub fn one_qrels_reading()
    ensures { (text : List ℕ) → ExactlyOne (IsQrelsReading text) }
{}
