//! What holds of entries, their spellings and their bundles.
ghost use Rattle.record_codec.specs.BundleGrammar.{PayloadsAreRead};
ghost use Rattle.record_codec.specs.Laws.{BriefsFit, BundlesFit, OneBundle, OnePayload, OneSpelling, ThreeEntriesBundled};

/// No entry has two spellings, and no two entries share one.
pub fn one_spelling()
    ensures { OneSpelling }
{}

/// A bundle has at most 2^25 bytes, as much as a record may hold.
pub fn bundles_fit()
    ensures { BundlesFit }
{}

/// So has the spelling of an entry that a bundle may have.
pub fn briefs_fit()
    ensures { BriefsFit }
{}

/// The bundle of three entries, byte by byte.
pub fn three_entries_bundled()
    ensures { ThreeEntriesBundled }
{}

/// No list of entries has two bundles, and no two lists share one.
pub fn one_bundle()
    ensures { OneBundle }
{}

/// Bytes are the payload of one list of entries alone.
pub fn one_payload()
    ensures { OnePayload }
{}

/// The plain reading of a payload gives the entries whose payload the bytes are.
pub fn payloads_are_read()
    ensures { PayloadsAreRead }
{}
