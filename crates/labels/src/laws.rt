//! What a label and a ruling change, what they leave, and when labels alone make a grade effective.
ghost use Rattle.std.specs.Prelude.{◌≡◌, ℕ, ◌≤◌, ◌↔◌, ◌==◌, ◌&&◌, ◌||◌, ◌++◌, List, [], ◌∷◌, All, None, Some, if◌then◌else◌, length};
ghost use Rattle.std.specs.Str.{bytes_eq};
ghost use Rattle.decimal_rank.specs.declared.naming.DocId.{DocId};
ghost use Rattle.labels.specs.declared.given.Given.{Given};
ghost use Rattle.labels.specs.Grades.{effective_grade};
ghost use Rattle.labels.specs.DocumentLabels.{label_grade, with_label};
ghost use Rattle.labels.specs.LabelledDocuments.{LabelledDocument, given_at, is_labelled_document, labelled_docs, ruling_at, with_label_at, with_ruling_at};

/// A grade that an assessor gives is this assessor's label from then on, and the others keep
/// theirs.
pub fn one_label_changes()
    ensures { (assessor other : List ℕ) (grade : ℕ) (given : List Given)
        → label_grade other (with_label assessor grade given)
        ≡ (if bytes_eq assessor other then Some grade else label_grade other given) }
{}

/// Without a ruling the effective grade is the one that exactly as many labels as are needed give.
pub fn effective_without_ruling()
    ensures { (need grade : ℕ) (grades : List ℕ) → 1 ≤ need
        → (effective_grade need grades None ≡ Some grade) ↔ ((length grades ≡ need)
        × All (λ other. other ≡ grade) grades) }
{}

/// A label changes the labels of its document alone, and no ruling. A document goes last with its
/// first label.
pub fn marks_follow_labels()
    ensures given { (doc other : DocId) (assessor : List ℕ)
        (grade : ℕ) (marked : List LabelledDocument)
        → given_at (with_label_at doc assessor grade marked) other ≡ (if other.0 == doc.0 then
        with_label assessor grade (given_at marked doc) else given_at marked other) }
    ensures ruling { (doc other : DocId) (assessor : List ℕ)
        (grade : ℕ) (marked : List LabelledDocument)
        → ruling_at (with_label_at doc assessor grade marked) other ≡ ruling_at marked other }
    ensures marked { (doc other : DocId) (assessor : List ℕ)
        (grade : ℕ) (marked : List LabelledDocument)
        → is_labelled_document (with_label_at doc assessor grade marked) other
        ≡ ((other.0 == doc.0) || is_labelled_document marked other) }
    ensures docs { (doc : DocId) (assessor : List ℕ) (grade : ℕ) (marked : List LabelledDocument)
        → labelled_docs (with_label_at doc assessor grade marked) ≡ (if is_labelled_document marked
        doc then labelled_docs marked else labelled_docs marked ++ doc ∷ []) }
{}

/// A ruling on a document that has a label is its ruling from then on. The labels, the other
/// rulings and the documents stay.
pub fn marks_follow_rulings()
    ensures ruling { (doc other : DocId) (grade : ℕ) (marked : List LabelledDocument)
        → ruling_at (with_ruling_at doc grade marked) other ≡ (if (other.0 == doc.0)
        && is_labelled_document marked doc then Some grade else ruling_at marked other) }
    ensures given { (doc other : DocId) (grade : ℕ) (marked : List LabelledDocument)
        → given_at (with_ruling_at doc grade marked) other ≡ given_at marked other }
    ensures marked { (doc other : DocId) (grade : ℕ) (marked : List LabelledDocument)
        → is_labelled_document (with_ruling_at doc grade marked) other
        ≡ is_labelled_document marked other }
    ensures docs { (doc : DocId) (grade : ℕ) (marked : List LabelledDocument)
        → labelled_docs (with_ruling_at doc grade marked) ≡ labelled_docs marked }
{}
