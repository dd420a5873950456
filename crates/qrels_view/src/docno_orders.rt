//! The order of a view's documents by docno, which is kept from one reading to the next.
//!
//! It has the place of each document in the trail, from 0. A reading puts the documents that came
//! since behind the others and sorts all by docno: where none came, that is one comparison a
//! document.
ghost use Rattle.std.specs.Prelude.{◌≡◌, ◌<◌, ◌≤◌, ◌^◌, All, IfOk, OnOk, length, map};
ghost use Rattle.qrels_view.specs.Grades.{graded_of};
ghost use Rattle.qrels_view.specs.Lines.{by_docno};
ghost use Rattle.qrels_view.specs.Places.{HasFirstPlaces, placed_at};

use crate::grades::{Graded, Placed};
use crate::text::by_docno;
use decimal_rank::{DocId, Memory, Names};
use indexmap::IndexMap;
use std::alloc::Global;
use std::marker::Model;

/// The order by docno in which a reading left the documents of a view. Contracts see how many
/// documents it has.
#[derive(Drop)]
pub struct DocnoOrder {
    places: Vec<u32>,
}

impl Model for DocnoOrder {
    ghost use Rattle.std.specs.Prelude.{ℕ, length};
    ghost use Rattle.qrels_view.specs.Places.{HasFirstPlaces};

    ghost Value = { ℕ };

    ghost view = { λ order. length order.places.items };

    ghost invariant = { λ order. HasFirstPlaces order.places.items };
}

impl DocnoOrder {
    /// No document yet.
    pub fn new(alloc: Global) -> DocnoOrder
        ensures { result ≡ 0 }
    {
        DocnoOrder {
            places: Vec::new(alloc),
        }
    }

    /// The documents with their grades by docno. They are left in this order.
    pub(crate) fn arrange(
        &mut self,
        grades: &IndexMap<u32, Option<u8>>,
        names: &Names,
    ) -> Result<Vec<Placed>, Memory>
        requires few { length grades.now.entries < 2 ^ 32 }
        requires docs_named { All (λ graded. graded.doc.0 < length names.now)
            (graded_of grades.now.entries) }
        ensures len { OnOk result (self.new ≡ length grades.now.entries) }
        ensures placed { IfOk result (λ placed. map (λ one. one.graded) placed.items
            ≡ by_docno names.now (graded_of grades.now.entries)) }
    {
        arranged(&mut self.places, grades, names)
    }
}

/// The documents by docno, whose places are then in this order.
fn arranged(
    places: &mut Vec<u32>,
    grades: &IndexMap<u32, Option<u8>>,
    names: &Names,
) -> Result<Vec<Placed>, Memory>
    requires each_once { HasFirstPlaces places.old.items }
    requires few { length grades.now.entries < 2 ^ 32 }
    requires docs_named { All (λ graded. graded.doc.0 < length names.now)
        (graded_of grades.now.entries) }
    ensures each_once { HasFirstPlaces places.new.items }
    ensures len { OnOk result (length places.new.items ≡ length grades.now.entries) }
    ensures placed { IfOk result (λ placed. map (λ one. one.graded) placed.items
        ≡ by_docno names.now (graded_of grades.now.entries)) }
{
    // names tell with their length that no name stands twice, and grades that no document does
    let _ = names.len();
    let len = grades.len();
    follow(places, len)?;
    let mut placed = placed(*places.allocator(), grades, places.as_slice())?;
    placed.sort_by(|a, b| by_docno(names, a.graded.doc, b.graded.doc))?;
    *places = places_of(*places.allocator(), placed.as_slice())?;
    Ok(placed)
}

/// Takes in the places of all of so many documents. Where there were more, it begins anew.
fn follow(places: &mut Vec<u32>, len: usize) -> Result<(), Memory>
    requires each_once { HasFirstPlaces places.old.items }
    requires few { len < 2 ^ 32 }
    ensures each_once { HasFirstPlaces places.new.items }
    ensures len { OnOk result (length places.new.items ≡ len) }
{
    clear_beyond(places, len);
    for place in places.len()..len {
        places.push(place as u32)?;
    }
    Ok(())
}

/// Leaves no place where there are more than so many.
fn clear_beyond(places: &mut Vec<u32>, len: usize)
    requires each_once { HasFirstPlaces places.old.items }
    ensures each_once { HasFirstPlaces places.new.items }
    ensures few { length places.new.items ≤ len }
{
    if places.len() > len {
        places.clear();
    }
}

/// The documents at these places.
fn placed(
    alloc: Global,
    grades: &IndexMap<u32, Option<u8>>,
    places: &[u32],
) -> Result<Vec<Placed>, Memory>
    ensures { IfOk result
        (λ placed. placed.items ≡ map (placed_at (graded_of grades.now.entries)) places.now) }
{
    let mut placed = Vec::with_capacity(alloc, places.len())?;
    for place in places {
        placed.push(placed_at(grades, *place))?;
    }
    Ok(placed)
}

/// The document at a place. Behind the trail it is one without a grade.
fn placed_at(grades: &IndexMap<u32, Option<u8>>, place: u32) -> Placed
    ensures { result ≡ placed_at (graded_of grades.now.entries) place }
{
    let graded = match grades.get_index(place as usize) {
        Some((doc, grade)) => Graded {
            doc: DocId(*doc),
            grade: *grade,
        },
        None => Graded {
            doc: DocId(0),
            grade: None,
        },
    };
    Placed { place, graded }
}

fn places_of(alloc: Global, placed: &[Placed]) -> Result<Vec<u32>, Memory>
    ensures { IfOk result (λ places. places.items ≡ map (λ one. one.place) placed.now) }
{
    let mut places = Vec::with_capacity(alloc, placed.len())?;
    for one in placed {
        places.push(one.place)?;
    }
    Ok(places)
}
