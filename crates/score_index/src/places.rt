//! Of its grades a list's cell depends only on which places are relevant and which are judged
//! lower.
ghost use Rattle.std.specs.Prelude.{◌≡◌, ℕ, List, Option, map};
ghost use Rattle.measures.specs.Cells.{cell_of};
ghost use Rattle.measures.specs.Grades.{is_non_relevant, is_relevant};
ghost use Rattle.score_index.specs.Places.{cell_by};

/// The cell of a list hangs on two facts of each place alone.
pub(crate) fn cell_is_by_places()
    ensures { (grades : List (Option ℕ)) (r n level : ℕ) → cell_of grades r n level
        ≡ cell_by (map (is_relevant level) grades) (map (is_non_relevant level) grades) r n }
{}
