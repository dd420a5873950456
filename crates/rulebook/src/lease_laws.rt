//! What holds of leases by the rules: they are the Lease entries, and have an end where an entry
//! ended them.
ghost use Rattle.rulebook.specs.Judgements.LeaseEntries.{EndsAreThere, LeasesAreEntries};

/// Lease number i is what the i-th Lease entry was told.
pub fn leases_are_entries()
    ensures { LeasesAreEntries }
{}

/// A lease has an end, by its grade or its release, where an entry ended it.
pub fn ends_are_there()
    ensures { EndsAreThere }
{}
