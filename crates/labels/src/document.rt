//! The labels of one document: a grade of each assessor, the last ruling, and the effective grade.
ghost use Rattle.std.specs.Prelude.{◌≡◌, ◌+◌, ◌<◌, ◌≤◌, ◌^◌, ◌-◌, ◌∷◌, [], None, Some, OnOk, length, slice_get};
ghost use Rattle.labels.specs.Grades.{effective_grade, shows_disagreement};
ghost use Rattle.labels.specs.DocumentLabels.{IsOncePerAssessor, grades_of, label_grade, with_label};

use crate::given::{Given, are_two_that_differ, common, grade_at, place_of};
use decimal_rank::{Memory, Text};
use std::alloc::Global;
use std::marker::Model;

/// The labels of one document of a topic, and its last ruling. Contracts see the label of each
/// assessor in the order of their first labels, the ruling, and the room for more labels.
#[derive(Drop)]
pub struct Labels {
    given: Vec<Given>,
    ruling: Option<u8>,
}

impl Model for Labels {
    ghost use Rattle.std.specs.Prelude.{◌-◌, ◌<◌, ◌^◌, vec_len, vec_capacity};
    ghost use Rattle.labels.specs.DocumentLabels.{Labelled, IsOncePerAssessor};

    ghost Value = { Labelled };

    ghost view = { λ labels. record {
      given = labels.given.items;
      ruling = labels.ruling;
      spare = vec_capacity labels.given - vec_len labels.given;
    } };

    ghost invariant = { λ labels. (vec_len labels.given < 2 ^ 32)
        × IsOncePerAssessor labels.given.items };
}

impl Labels {
    /// No label and no ruling yet.
    pub fn new(alloc: Global) -> Labels
        ensures given { result.given ≡ [] }
        ensures ruling { result.ruling ≡ None }
    {
        Labels {
            given: Vec::new(alloc),
            ruling: None,
        }
    }

    /// Makes room for one more label.
    pub fn reserve(&mut self) -> Result<(), Memory>
        ensures room { OnOk result (1 ≤ self.new.spare) }
        ensures given { self.new.given ≡ self.old.given }
        ensures ruling { self.new.ruling ≡ self.old.ruling }
    {
        // few documents have more than two labels
        if self.given.len() < 2 {
            self.given.reserve_exact(1)?;
        } else {
            self.given.reserve(1)?;
        }
        Ok(())
    }

    /// The grade that an assessor gives, in place of this assessor's earlier one.
    pub fn set(&mut self, assessor: Text, grade: u8)
        requires room { 1 ≤ self.old.spare }
        requires few { length self.old.given < 2 ^ 32 - 1 }
        ensures given { self.new.given ≡ with_label assessor grade self.old.given }
        ensures ruling { self.new.ruling ≡ self.old.ruling }
    {
        match place_of(self.given.as_slice(), assessor.bytes()) {
            Some(place) => self.given[place].grade = grade,
            None => self.given.push_reserved(Given { assessor, grade }),
        }
    }

    /// The grade of a ruling, in place of the earlier one.
    pub fn rule(&mut self, grade: u8)
        ensures ruling { self.new.ruling ≡ Some grade }
        ensures given { self.new.given ≡ self.old.given }
        ensures room { self.new.spare ≡ self.old.spare }
    {
        self.ruling = Some(grade);
    }

    /// The number of labels, of which each assessor has one at most.
    pub fn count(&self) -> u32
        ensures count { result ≡ length self.now.given }
        ensures once { IsOncePerAssessor self.now.given }
    {
        self.given.len() as u32
    }

    /// The grade of an assessor's label.
    pub fn grade_of(&self, assessor: &[u8]) -> Option<u8>
        ensures { result ≡ label_grade assessor.now self.now.given }
    {
        let label = self
            .given
            .iter()
            .find(|label| label.assessor.bytes() == assessor)?;
        Some(label.grade)
    }

    /// The grades of the first two assessors, in the order of their first labels: None where there
    /// is no such label.
    pub fn grades(&self) -> [Option<u8>; 2]
        ensures { let grades = grades_of self.now.given in
            result ≡ slice_get grades 0 ∷ slice_get grades 1 ∷ [] }
    {
        let given = self.given.as_slice();
        [grade_at(given, 0), grade_at(given, 1)]
    }

    /// The last ruling, or else the grade of exactly `need` labels that agree.
    pub fn effective(&self, need: u32) -> Option<u8>
        ensures { result ≡ effective_grade need (grades_of self.now.given) self.now.ruling }
    {
        self.ruling.or(common(self.given.as_slice(), need))
    }

    /// Whether two labels are needed and there, which differ, and no ruling.
    pub fn disagrees(&self, need: u32) -> bool
        ensures { result ≡ shows_disagreement need (grades_of self.now.given) self.now.ruling }
    {
        need == 2 && self.ruling.is_none() && are_two_that_differ(self.given.as_slice())
    }
}
