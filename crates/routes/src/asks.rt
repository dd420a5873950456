//! What a request asks: the row of its path and its method, the path's parameter and the body make
//! a command or a query, or the first fault.
ghost use Rattle.std.specs.Prelude.{◌≤◌, ℕ, IsTrue, IfOk, length};
ghost use Rattle.routes.specs.Asks.{Reads};
ghost use Rattle.routes.specs.Faults.{IsRead};
ghost use Rattle.routes.specs.Limits.{most_body};
ghost use Rattle.rulebook.specs.Requests.Limits.{max_moment};
ghost use Rattle.rulebook.specs.Histories.Legal.{is_well_addressed};

use crate::faults::RouteFault;
use crate::keys::Keys;
use crate::openings::read_opening;
use crate::paths::parameter;
use crate::route_table::ask_at;
use crate::router::Paths;
use http_wire::HttpRequest;
use rulebook::{Ask, Caller};
use std::alloc::Global;

/// Who sends a request, its number, and what it asks; or its first fault, in the order of
/// `RouteFault`.
pub fn read_ask(
    alloc: Global,
    request: &HttpRequest,
    keys: &Keys,
) -> Result<(Caller, Option<u64>, Ask), RouteFault>
    requires { length request.now.body ≤ most_body }
    ensures reading { IsRead (Reads request.now keys.now) result }
    ensures addressed { IfOk result (λ asked. (moment : ℕ) → moment ≤ max_moment
        → IsTrue (is_well_addressed asked.0 asked.1 asked.2 moment)) }
{
    let paths = Paths::new(alloc)?;
    let path = request.path.bytes();
    let opening = read_opening(
        &paths,
        request.method.bytes(),
        path,
        request.fields.items(),
        keys,
    )?;
    let ask = ask_at(alloc, opening.place, parameter(path), request.body.bytes())?;
    Ok((opening.caller.without_key()?, opening.number, ask))
}
