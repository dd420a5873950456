//! What follows for each topic where a board stands for grades.
ghost use Rattle.std.specs.Prelude.{ℕ, ◌<◌, List, length};
ghost use Rattle.qrels_view.specs.declared.grades.Graded.{Graded};
ghost use Rattle.score_index.specs.Scores.{Scores, topic_scores_at};
ghost use Rattle.score_index.specs.BoardGrades.{StandsAt, StandsFor, grades_at};

/// A board that stands for grades does so on each of its topics.
pub fn each_topic_stands()
    ensures { (scores : Scores) (grades : List (List Graded)) (topic : ℕ)
        → topic < length scores.topics → StandsFor scores grades
        → StandsAt (topic_scores_at scores topic) (grades_at grades topic) }
{}
