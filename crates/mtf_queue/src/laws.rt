//! The rule is a total order, an order outlasts changes of other runs, and which run is its first
//! that passes a test.
ghost use Rattle.std.specs.Prelude.{◌≡◌, ◌≢◌, ◌⊎◌, Bool, List, Contains, IsPermutation, filter, find};
ghost use Rattle.depth_pool.specs.Holdings.{Held, KeepsOthers};
ghost use Rattle.depth_pool.specs.declared.runs.RunId.{RunId};
ghost use Rattle.mtf_queue.specs.Rule.{HoldingRule, IsBefore, IsInOrder, first_by_trail};
ghost use Rattle.mtf_queue.specs.declared.rule.Judged.{Judged};

/// The rule is a total order of the runs, whatever they hold and whatever was judged.
pub fn rule_is_total_order()
    ensures not_itself { (held : HoldingRule) (trail : List Judged) (r : RunId)
        → ¬ IsBefore held trail r r }
    ensures one_of_two { (held : HoldingRule) (trail : List Judged) (r s : RunId) → r ≢ s
        → IsBefore held trail r s ⊎ IsBefore held trail s r }
    ensures chain { (held : HoldingRule) (trail : List Judged) (r s t : RunId)
        → IsBefore held trail r s → IsBefore held trail s t → IsBefore held trail r t }
{}

/// A pool in which only a run changed that isn't in the queue keeps the queue's order.
pub fn order_outlasts_other_runs()
    ensures { (before after : List Held) (run : RunId) (trail : List Judged) (order : List RunId)
        → KeepsOthers before after run
        → ¬ Contains order run → IsInOrder before trail order → IsInOrder after trail order }
{}

/// The first run of an order that passes a test is the one that comes before each other that
/// passes.
pub fn first_that_passes()
    ensures { (runs : List Held) (trail : List Judged) (order all : List RunId) (passes : RunId
        → Bool) → IsInOrder runs trail order → IsPermutation all order
        → find passes order ≡ first_by_trail runs trail (filter passes all) }
{}
