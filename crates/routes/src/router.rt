//! The paths of the table as routes, in which the row of a path is found.
ghost use Rattle.std.specs.Prelude.{◌≡◌, IfOk, IsTrue, OnOk, map};
ghost use Rattle.std.specs.List.{fold};
ghost use Rattle.std.specs.Option.{option_map};
ghost use Rattle.matchit.specs.Route.{parse_route};
ghost use Rattle.matchit.specs.Seek.{first};
ghost use Rattle.routes.specs.PathTable.RouteTable.{route_at};
ghost use Rattle.routes.specs.PathTable.Router.{are_free, is_free_route, table, with_row_route};

use crate::route_table::{ROWS, Route, Row};
use decimal_rank::Memory;
use matchit::{InsertError, Router};
use std::alloc::Global;
use std::marker::Model;

/// Adds a path as a route that conflicts with none.
fn add_row(router: &mut Router<Route>, path: &str, place: Route) -> Result<(), Memory>
    requires { IsTrue (is_free_route (parse_route path.now) router.old) }
    ensures { OnOk result (router.new ≡ with_row_route router.old (path.now, place)) }
{
    match router.insert(path, place) {
        Ok(()) => Ok(()),
        Err(InsertError::OutOfMemory) => Err(Memory),
        Err(InsertError::Conflict { .. })
        | Err(InsertError::InvalidParamSegment)
        | Err(InsertError::InvalidParam)
        | Err(InsertError::InvalidCatchAll) => unreachable!(),
    }
}

/// Adds the paths of some rows as routes, in their order.
fn add_rows(router: &mut Router<Route>, rows: &[Row]) -> Result<(), Memory>
    requires { IsTrue (are_free router.old
        (map (λ row. (row.0.now, route_at row.1 row.2 row.3 row.4)) rows.now)) }
    ensures { OnOk result (router.new ≡ fold with_row_route router.old
        (map (λ row. (row.0.now, route_at row.1 row.2 row.3 row.4)) rows.now)) }
{
    let mut rest = rows;
    while let [row, others @ ..] = rest {
        let (path, method, parameter, askers, question) = *row;
        let place = Route {
            method,
            parameter,
            askers,
            question,
        };
        add_row(router, path, place)?;
        rest = others;
    }
    Ok(())
}

/// The paths of the table as routes, in its order. They are made once and lent to each reading.
pub struct Paths {
    router: Router<Route>,
}

impl Model for Paths {
    ghost use Rattle.std.specs.Prelude.{◌≡◌};
    ghost use Rattle.routes.specs.PathTable.Router.{Routes, table};

    ghost Value = { Routes };

    ghost view = { λ paths. paths.router };

    ghost invariant = { λ paths. paths.router ≡ table };
}

// a call of its own, so that no caller's proof takes a table apart
impl Drop for Paths {
    fn drop(self) {
        let Paths { router: _ } = self;
    }
}

impl Paths {
    /// The paths of the whole table.
    pub fn new(alloc: Global) -> Result<Paths, Memory>
        ensures { IfOk result (λ paths. paths ≡ table) }
    {
        let mut router = Router::new(alloc);
        add_rows(&mut router, &ROWS)?;
        Ok(Paths { router })
    }

    /// The row of a path.
    pub(crate) fn place_of(&self, path: &str) -> Option<Route>
        ensures { result ≡ option_map (λ route. route.value) (first table path.now) }
    {
        match self.router.at(path) {
            Ok(found) => Some(*found.value),
            Err(_) => None,
        }
    }
}
