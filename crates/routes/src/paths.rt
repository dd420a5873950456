//! The second part of a path as a parameter: a name, or the number of a lease or a release, at most
//! 4,294,967,295.
ghost use Rattle.std.specs.Prelude.{◌≡◌, IsTrue, min, position};
ghost use Rattle.std.specs.List.{list_all, before_first, after_first};
ghost use Rattle.std.specs.Str.Parse.{digits_value};
ghost use Rattle.decimal_rank.specs.Decimals.DecimalText.{is_digit, are_digits};
ghost use Rattle.trec_formats.specs.Names.{is_name, is_name_byte};
ghost use Rattle.routes.specs.PathTable.RouteTable.{fits, is_path_number, is_slash, parameter};

use crate::route_table::Parameter;
use decimal_rank::{capped_number, is_number};
use trec_formats::is_name;

/// The greatest number of a lease or a release.
const MOST_PATH_NUMBER: u64 = 4_294_967_295;

/// The most digits that it is written with.
const MOST_PATH_DIGITS: usize = 10;

fn find_slash(path: &[u8]) -> Option<usize>
    ensures { result ≡ position is_slash path.now }
{
    path.iter().position(|byte| *byte == b'/')
}

fn behind_slash(path: &[u8]) -> &[u8]
    ensures { result.now ≡ after_first is_slash path.now }
{
    match find_slash(path) {
        Some(place) => &path[place + 1..],
        None => &[],
    }
}

fn before_slash(path: &[u8]) -> &[u8]
    ensures { result.now ≡ before_first is_slash path.now }
{
    match find_slash(path) {
        Some(place) => &path[..place],
        None => path,
    }
}

/// The second part of a path.
pub(crate) fn parameter(path: &[u8]) -> &[u8]
    ensures { result.now ≡ parameter path.now }
{
    match path {
        [_, rest @ ..] => before_slash(behind_slash(rest)),
        [] => path,
    }
}

fn is_path_number(text: &[u8]) -> bool
    ensures { result ≡ is_path_number text.now }
{
    is_number(text)
        && text.len() <= MOST_PATH_DIGITS
        && capped_number(text, MOST_PATH_NUMBER + 1) <= MOST_PATH_NUMBER
}

/// The number of a lease or a release.
pub(crate) fn path_number(text: &[u8]) -> u32
    requires { IsTrue (is_path_number text.now) }
    ensures { result ≡ digits_value 10 text.now }
{
    capped_number(text, MOST_PATH_NUMBER + 1) as u32
}

/// Whether a text may be the parameter of a row.
pub(crate) fn fits(parameter: Parameter, text: &[u8]) -> bool
    ensures { result ≡ fits parameter text.now }
{
    match parameter {
        Parameter::Nothing => true,
        Parameter::Name => is_name(text),
        Parameter::Number => is_path_number(text),
    }
}
