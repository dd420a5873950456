//! What a request says in front of its body: the row of its path and method, the caller of its key,
//! and the number of the field `X-Request-Number`, which a POST may have; or the first fault.
ghost use Rattle.std.specs.Prelude.{◌≡◌, ◌∷◌, [], IsTrue, IfOk, codes};
ghost use Rattle.http_wire.specs.Heads.{values_named};
ghost use Rattle.routes.specs.Faults.{GivesOrFaults};
ghost use Rattle.routes.specs.Openings.{is_request_number, number_by_method, number_in_fields, one_caller, opening_of, route_of, with_method, with_number, with_parameter, with_role};
ghost use Rattle.routes.specs.AskReading.FoundOpenings.{opening_shown};
ghost use Rattle.routes.specs.PathTable.RouteTable.{IsRow, fits, may_ask, parameter};
ghost use Rattle.rulebook.specs.Spelling.{is_number};
ghost use Rattle.trec_formats.specs.Names.{is_name};

use crate::faults::RouteFault;
use crate::keys::{KeyRow, Keys};
use crate::paths::{fits, parameter};
use crate::route_table::{Method, Route, may_ask, method_name};
use crate::router::Paths;
use decimal_rank::{capped_number, is_number as are_digits};
use http_wire::{HttpField, find_named};
use rulebook::NUMBER_BOUND;

/// Which caller asks at which row, and with which number.
#[derive(Clone, Copy)]
pub(crate) struct Opening<'a> {
    pub(crate) place: Route,
    pub(crate) caller: &'a KeyRow,
    pub(crate) number: Option<u64>,
}

/// The row of a path whose parameter fits.
#[tactic(auto, using(crate::proofs::JsonBodies::TextMatches::is_text, crate::proofs::JsonBodies::TextMatches::is_no_text))]
fn find_place(paths: &Paths, path: &[u8]) -> Result<Route, RouteFault>
    ensures place { GivesOrFaults (λ place. place) result (route_of path.now) }
    ensures fitting { IfOk result (λ place. IsTrue (fits place.parameter (parameter path.now))) }
    ensures known { IfOk result IsRow }
{
    let Ok(text) = str::from_utf8(path) else {
        return Err(RouteFault::Route);
    };
    match paths.place_of(text) {
        Some(place) => with_parameter(place, parameter(path)),
        None => Err(RouteFault::Route),
    }
}

fn with_parameter(place: Route, text: &[u8]) -> Result<Route, RouteFault>
    ensures place { result ≡ with_parameter text.now place }
    ensures fitting { IfOk result (λ found. IsTrue (fits found.parameter text.now)) }
    ensures same { IfOk result (λ found. found ≡ place) }
{
    if fits(place.parameter, text) {
        Ok(place)
    } else {
        Err(RouteFault::Route)
    }
}

fn with_method(place: Route, method: &[u8]) -> Result<Route, RouteFault>
    ensures place { result ≡ with_method method.now place }
    ensures same { IfOk result (λ found. found ≡ place) }
{
    if method == method_name(place.method) {
        Ok(place)
    } else {
        Err(RouteFault::Method)
    }
}

fn caller_with_key<'a>(keys: &'a Keys, key: &[u8]) -> Result<&'a KeyRow, RouteFault>
    ensures caller { GivesOrFaults (λ caller. caller.now) result
        (one_caller keys.now (key.now ∷ [])) }
    ensures named { IfOk result (λ caller. IsTrue (is_name caller.now.name)) }
{
    match keys.caller_with(key) {
        Some(caller) => Ok(caller),
        None => Err(RouteFault::Key),
    }
}

/// The caller of the one key of the fields.
fn find_caller<'a>(keys: &'a Keys, fields: &[HttpField]) -> Result<&'a KeyRow, RouteFault>
    ensures caller { GivesOrFaults (λ caller. caller.now) result
        (one_caller keys.now (values_named (codes "x-campaign-key") fields.now)) }
    ensures named { IfOk result (λ caller. IsTrue (is_name caller.now.name)) }
{
    let Some((key, rest)) = find_named(fields, "x-campaign-key") else {
        return Err(RouteFault::Key);
    };
    match find_named(rest, "x-campaign-key") {
        None => caller_with_key(keys, key),
        Some(_) => Err(RouteFault::Key),
    }
}

fn with_role(place: Route, caller: &KeyRow) -> Result<&KeyRow, RouteFault>
    ensures caller { GivesOrFaults (λ found. found.now) result (with_role place caller.now) }
    ensures role { IfOk result (λ found. (found.now ≡ caller.now)
        × IsTrue (may_ask found.now.role place.askers)) }
{
    if may_ask(caller.role, place.askers) {
        Ok(caller)
    } else {
        Err(RouteFault::Role)
    }
}

/// The most digits that the number of a command is written with.
const MOST_NUMBER_DIGITS: usize = 19;

fn is_request_number(text: &[u8]) -> bool
    ensures { result ≡ is_request_number text.now }
{
    are_digits(text)
        && text.len() <= MOST_NUMBER_DIGITS
        && capped_number(text, NUMBER_BOUND) < NUMBER_BOUND
}

fn with_number(text: &[u8]) -> Result<Option<u64>, RouteFault>
    ensures number { result ≡ with_number text.now }
    ensures small { IfOk result (λ number. IsTrue (is_number number)) }
{
    if is_request_number(text) {
        Ok(Some(capped_number(text, NUMBER_BOUND)))
    } else {
        Err(RouteFault::Number)
    }
}

/// The one number of the fields, or none.
fn find_number(fields: &[HttpField]) -> Result<Option<u64>, RouteFault>
    ensures number { result ≡ number_in_fields fields.now }
    ensures small { IfOk result (λ number. IsTrue (is_number number)) }
{
    let Some((text, rest)) = find_named(fields, "x-request-number") else {
        return Ok(None);
    };
    match find_named(rest, "x-request-number") {
        None => with_number(text),
        Some(_) => Err(RouteFault::Number),
    }
}

fn number_at(place: Route, fields: &[HttpField]) -> Result<Option<u64>, RouteFault>
    ensures number { result ≡ number_by_method place.method fields.now }
    ensures small { IfOk result (λ number. IsTrue (is_number number)) }
{
    match place.method {
        Method::Post => find_number(fields),
        Method::Get => Ok(None),
    }
}

/// Who asks, and where, or the first fault before the body.
#[tactic(auto, unfolding(crate::specs::Openings::opening_of))]
pub(crate) fn read_opening<'a>(
    paths: &Paths,
    method: &[u8],
    path: &[u8],
    fields: &[HttpField],
    keys: &'a Keys,
) -> Result<Opening<'a>, RouteFault>
    ensures opening { GivesOrFaults opening_shown result
        (opening_of method.now path.now fields.now keys.now) }
    ensures named { IfOk result (λ opening. IsTrue (is_name opening.caller.now.name)) }
    ensures role { IfOk result
        (λ opening. IsTrue (may_ask opening.caller.now.role opening.place.askers)) }
    ensures fitting { IfOk result
        (λ opening. IsTrue (fits opening.place.parameter (parameter path.now))) }
    ensures known { IfOk result (λ opening. IsRow opening.place) }
    ensures number { IfOk result (λ opening. IsTrue (is_number opening.number)) }
{
    let found = find_place(paths, path)?;
    let place = with_method(found, method)?;
    let known = find_caller(keys, fields)?;
    let caller = with_role(place, known)?;
    let number = number_at(place, fields)?;
    Ok(Opening {
        place,
        caller,
        number,
    })
}
