//! The command line of some forms, as `clap` has it.
ghost use Rattle.std.specs.Prelude.{◌≡◌, ◌++◌, false, true, IfOk, MatchOption, OnOk, map, string_bytes};
ghost use Rattle.clap.specs.Words.{app_of, fault_of, rule_of, subcommand_of, subcommand_rows_of};
ghost use Rattle.command_words.specs.CommandLines.{form_line, form_rules, is_clear, option_rule, place_rule, program};
ghost use Rattle.command_words.specs.Words.{form_of};

use crate::forms::CommandForm;
use clap::error::ErrorKind;
use clap::{Arg, ArgMatches, Command};
use decimal_rank::Memory;
use std::alloc::{AllocError, Global};

/// What `clap` makes of the words; none, where it refuses them.
pub(crate) fn find_matches<'a>(
    alloc: Global,
    forms: &'a [CommandForm<'a>],
    words: &'a [String],
) -> Result<Option<ArgMatches<'a>>, Memory>
    ensures { IfOk result (λ found. MatchOption found (is_clear (fault_of
        (program (map form_of forms.now)) (map string_bytes words.now)) ≡ false) (λ matches.
        (is_clear (fault_of (program (map form_of forms.now)) (map string_bytes words.now)) ≡ true)
        × (subcommand_rows_of matches
        ≡ subcommand_of (program (map form_of forms.now)) (map string_bytes words.now)))) }
{
    let line = command_line(alloc, forms)?;
    match line.try_get_matches_from(words) {
        Ok(matches) => Ok(Some(matches)),
        Err(error) if error.kind() == ErrorKind::OutOfMemory => Err(Memory),
        Err(_) => Ok(None),
    }
}

fn command_line<'a>(alloc: Global, forms: &'a [CommandForm<'a>]) -> Result<Command<'a>, AllocError>
    ensures { IfOk result (λ line. app_of line ≡ program (map form_of forms.now)) }
{
    let commands = form_lines(alloc, forms)?;
    let bare = Command::new(alloc, "program")
        .no_binary_name(true)
        .disable_help_flag(true)
        .disable_help_subcommand(true);
    bare.subcommands(commands)
}

/// The command line of each form.
fn form_lines<'a>(
    alloc: Global,
    forms: &'a [CommandForm<'a>],
) -> Result<Vec<Command<'a>>, AllocError>
    ensures { IfOk result (λ lines. map app_of lines.items
        ≡ map (λ form. form_line (form_of form)) forms.now) }
{
    let mut lines = Vec::new(alloc);
    for form in forms {
        let line = form_line(alloc, form)?;
        lines.push(line)?;
    }
    Ok(lines)
}

fn form_line<'a>(alloc: Global, form: &CommandForm<'a>) -> Result<Command<'a>, AllocError>
    ensures { IfOk result (λ line. app_of line ≡ form_line (form_of form.now)) }
{
    let arguments = form_arguments(alloc, form)?;
    Command::new(alloc, form.0).args(arguments)
}

fn form_arguments<'a>(alloc: Global, form: &CommandForm<'a>) -> Result<Vec<Arg<'a>>, AllocError>
    ensures { IfOk result (λ arguments. map rule_of arguments.items
        ≡ form_rules (form_of form.now)) }
{
    let (_name, positionals, options) = *form;
    let mut arguments = Vec::new(alloc);
    add_places(alloc, positionals, &mut arguments)?;
    add_options(alloc, options, &mut arguments)?;
    Ok(arguments)
}

fn add_places<'a>(
    alloc: Global,
    names: &'a [&'a str],
    arguments: &mut Vec<Arg<'a>>,
) -> Result<(), AllocError>
    ensures { OnOk result (map rule_of arguments.new.items
        ≡ map rule_of arguments.old.items ++ map (λ name. place_rule name.now) names.now) }
{
    for name in names {
        let place = Arg::new(alloc, name).required(true);
        arguments.push(place)?;
    }
    Ok(())
}

fn add_options<'a>(
    alloc: Global,
    names: &'a [&'a str],
    arguments: &mut Vec<Arg<'a>>,
) -> Result<(), AllocError>
    ensures { OnOk result (map rule_of arguments.new.items
        ≡ map rule_of arguments.old.items ++ map (λ name. option_rule name.now) names.now) }
{
    for name in names {
        let option = Arg::new(alloc, name).long(name).required(true);
        arguments.push(option)?;
    }
    Ok(())
}
