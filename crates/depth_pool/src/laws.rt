//! Where a run is put into a pool, and that documents are listed by docno in one way alone.
ghost use Rattle.std.specs.Prelude.{◌≡◌, ◌<◌, ◌++◌, ◌∷◌, [], ℕ, List, All};
ghost use Rattle.decimal_rank.specs.declared.naming.DocId.{DocId};
ghost use Rattle.depth_pool.specs.Holdings.{AreByDocno, Held, has_doc, with_run};

/// A run whose number is greater than each in the pool is put in last.
pub fn greatest_run_goes_last()
    ensures { (new : Held) (runs : List Held) → All (λ held. held.run.0 < new.run.0) runs
        → with_run new runs ≡ runs ++ new ∷ [] }
{}

/// Documents are listed by docno in one way alone.
pub fn one_list_by_docno()
    ensures { (names : List (List ℕ)) (docs others : List DocId)
        → AreByDocno names docs → AreByDocno names others
        → ((doc : DocId) → has_doc doc docs ≡ has_doc doc others) → docs ≡ others }
{}
