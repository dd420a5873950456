//! Every text has exactly one reading as topics.
ghost use Rattle.std.specs.Prelude.{ℕ, List};
ghost use Rattle.trec_formats.specs.Faults.{ExactlyOne};
ghost use Rattle.trec_formats.specs.TopicsFormat.Topics.{IsTopicsReading};

/// Every text is read as topics in exactly one way: as its topics, or as its fault.
pub fn one_topics_reading()
    ensures { (text : List ℕ) → ExactlyOne (IsTopicsReading text) }
{}
