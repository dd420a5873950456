//! The values that the matches of a command line have.
ghost use Rattle.std.specs.Prelude.{◌≡◌, ◌++◌, IfOk, map, option_map};
ghost use Rattle.clap.specs.Words.{first_of, found_of, rows_of, subcommand_rows_of};
ghost use Rattle.command_words.specs.CommandLines.{found_by, values_at};
ghost use Rattle.command_words.specs.Words.{form_named, form_names, form_of, view_of};

use crate::forms::{CommandForm, CommandWords};
use clap::ArgMatches;
use decimal_rank::Memory;
use std::alloc::Global;

/// The command that the matches name, with its values.
pub(crate) fn command_in<'a>(
    alloc: Global,
    forms: &'a [CommandForm<'a>],
    matches: &ArgMatches<'a>,
) -> Result<Option<CommandWords<'a>>, Memory>
    ensures { IfOk result (λ found. option_map view_of found
        ≡ found_by (map form_of forms.now) (subcommand_rows_of matches.now)) }
{
    let Some((name, found)) = matches.subcommand() else {
        return Ok(None);
    };
    let Some(form) = form_named(name, forms) else {
        return Ok(None);
    };
    match values_in(alloc, found, form)? {
        Some(values) => Ok(Some(CommandWords {
            name: form.0,
            values,
        })),
        None => Ok(None),
    }
}

fn form_named<'a>(name: &str, forms: &'a [CommandForm<'a>]) -> Option<&'a CommandForm<'a>>
    ensures { option_map (λ form. form_of form.now) result
        ≡ form_named name.now (map form_of forms.now) }
{
    let mut left = forms;
    while let [form, rest @ ..] = left {
        if form.0 == name {
            return Some(form);
        }
        left = rest;
    }
    None
}

fn values_in<'a>(
    alloc: Global,
    found: &ArgMatches<'a>,
    form: &CommandForm<'a>,
) -> Result<Option<Vec<&'a str>>, Memory>
    ensures { IfOk result (λ values. option_map (λ v. map (λ value. value.now) v.items) values
        ≡ values_at (rows_of (found_of found.now)) (form_names (form_of form.now))) }
{
    let (_name, positionals, options) = *form;
    match add_values(found, positionals, Vec::new(alloc))? {
        Some(values) => add_values(found, options, values),
        None => Ok(None),
    }
}

/// The values with those of the names behind them.
fn add_values<'a>(
    found: &ArgMatches<'a>,
    names: &[&str],
    mut values: Vec<&'a str>,
) -> Result<Option<Vec<&'a str>>, Memory>
    ensures { IfOk result (λ whole. option_map (λ v. map (λ value. value.now) v.items) whole
        ≡ option_map (λ more. map (λ value. value.now) values.entry.items ++ more)
        (values_at (rows_of (found_of found.now)) (map (λ name. name.now) names.now))) }
{
    let mut left = names;
    while let [name, rest @ ..] = left {
        match value_of(found, name) {
            Some(value) => values.push(value)?,
            None => return Ok(None),
        }
        left = rest;
    }
    Ok(Some(values))
}

#[tactic(auto, using(crate::proofs::MatchedRows::first_row))]
fn value_of<'a>(found: &ArgMatches<'a>, name: &str) -> Option<&'a str>
    ensures { option_map (λ value. value.now) result
        ≡ first_of name.now (rows_of (found_of found.now)) }
{
    found.get_str(name)
}
