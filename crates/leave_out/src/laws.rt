//! What holds of the reduced scores.
ghost use Rattle.leave_out.specs.Reuse.{ReducedIsFull};

/// A run whose group alone brought no document in scores as it does by all grades.
pub fn reduced_is_full()
    ensures { ReducedIsFull }
{}
