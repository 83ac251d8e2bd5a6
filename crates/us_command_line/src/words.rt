ghost use Rattle.std.specs.Prelude.{◌≡◌, ◌≢◌, ◌⊎◌, ◌<◌, ℕ, length, Ok, Err, OnOk, IfOk, IfErr, IfNone, IfSome};
ghost use Rattle.clap.specs.Words.{Text, found_of, kind_of, rows_of, subcommand_rows_of};
ghost use Rattle.clap.specs.declared.error.kind.ErrorKind.TheVariants as kind;
ghost use Rattle.us_command_line.specs.Options.{HasNumber, HasText, IsCheckOf, IsHelp, IsLintOf, IsOrderAt, IsOrderOf, IsReplayOf};
ghost use Rattle.us_command_line.specs.Options.{MayHaveNumber, MayHaveText, OptionsGoTogether};
ghost use Rattle.us_command_line.specs.declared.faults.WordsFault.TheVariants as fault;
ghost use Rattle.us_command_line.specs.declared.orders.FileCheck.{FileCheck};
ghost use Rattle.us_command_line.specs.declared.orders.FileLint.{FileLint};
ghost use Rattle.us_command_line.specs.declared.orders.FileReplay.{FileReplay};
ghost use Rattle.us_command_line.specs.declared.orders.Order.{Order};
ghost use Rattle.us_command_line.specs.declared.orders.Order.TheVariants as order;

use crate::commands::{DEFAULT_ROUNDS, DEFAULT_WORKERS, command};
use crate::faults::WordsFault;
use crate::helps::Helps;
use crate::orders::{FileCheck, FileLint, FileReplay, Order};
use clap::error::ErrorKind;
use clap::{ArgMatches, Error};
use std::alloc::Global;
use std::convert::AsStr;

/// What these words ask for, the program's name first. The faults are a usage fault and want of memory.
pub fn order_of<'a, S: AsStr>(
    alloc: Global,
    words: &'a [S],
    helps: &'a Helps,
) -> Result<Order<'a>, WordsFault>
    ensures no_words { length words.now < 2 → result ≡ Ok (order.Pipe 2 1) }
{
    if words.len() < 2 {
        return Ok(Order::Pipe {
            rounds: DEFAULT_ROUNDS,
            workers: DEFAULT_WORKERS,
        });
    }
    match matches_of(alloc, words, helps) {
        Ok(given) => given_order(alloc, &given),
        Err(error) => answer(alloc, &error),
    }
}

/// What the words ask for that clap took.
fn given_order<'a>(alloc: Global, given: &ArgMatches<'a>) -> Result<Order<'a>, WordsFault>
    ensures asked { IfOk result (λ o. IsOrderAt (subcommand_rows_of given.now) o × OptionsGoTogether o) }
    ensures refused { IfErr result (λ f. (f ≡ fault.NoMemory) ⊎
        ((o : Order) → IsOrderAt (subcommand_rows_of given.now) o → ¬ (OptionsGoTogether o))) }
{
    match order_in(given) {
        Some(order) => together(alloc, order),
        // Nobody comes here: clap has seen that each option is there.
        None => Err(WordsFault::Usage(String::from_str(alloc, "error: an option is missing\n")?)),
    }
}

/// The same order, if its options go together.
fn together<'a>(alloc: Global, asked: Order<'a>) -> Result<Order<'a>, WordsFault>
    ensures asked { IfOk result (λ o. (o ≡ asked.entry) × OptionsGoTogether o) }
    ensures refused { IfErr result (λ _. ¬ (OptionsGoTogether asked.entry)) }
{
    match lacking(&asked) {
        None => Ok(asked),
        Some((given, wanted)) => Err(WordsFault::Usage(format!(in alloc;
            "error: the argument '--{given}' needs the argument '--{wanted}'\n\n\
             For more information, try '--help'.\n"
        )?)),
    }
}

/// An option that an order was given, and one that has to stand beside it and doesn't.
fn lacking(asked: &Order<'_>) -> Option<(&'static str, &'static str)>
    ensures none { IfNone result (OptionsGoTogether asked.now) }
    ensures some { IfSome result (λ _. ¬ (OptionsGoTogether asked.now)) }
{
    let Order::Lint(files) = asked else {
        return None;
    };
    match (files.maps.is_some(), files.report.is_some()) {
        (false, false) => None,
        (true, false) => Some(("maps <F>", "report <F>")),
        (false, true) => Some(("report <F>", "maps <F>")),
        (true, true) if files.trace.is_none() => Some(("maps <F>", "trace <F>")),
        (true, true) if files.rounds.is_none() => Some(("maps <F>", "rounds <N>")),
        (true, true) => None,
    }
}

/// What clap says in place of matches: help, or why the words are refused.
fn answer<'a>(alloc: Global, error: &Error) -> Result<Order<'a>, WordsFault>
    ensures help { IfOk result IsHelp }
    ensures memory { kind_of error.now ≡ kind.OutOfMemory → result ≡ Err fault.NoMemory }
    ensures shown { OnOk result ((kind_of error.now ≡ kind.DisplayHelp) ⊎ (kind_of error.now ≡ kind.DisplayVersion)) }
    ensures refused { IfErr result (λ f. (f ≡ fault.NoMemory) ⊎
        (kind_of error.now ≢ kind.DisplayHelp) × (kind_of error.now ≢ kind.DisplayVersion)) }
{
    if error.kind() == ErrorKind::OutOfMemory {
        return Err(WordsFault::NoMemory);
    }
    let text = format!(in alloc; "{error}")?;
    if error.use_stderr() {
        Err(WordsFault::Usage(text))
    } else {
        Ok(Order::Help(text))
    }
}

fn matches_of<'a, S: AsStr>(
    alloc: Global,
    words: &'a [S],
    helps: &'a Helps,
) -> Result<ArgMatches<'a>, Error> {
    command(alloc, helps)?.try_get_matches_from(words)
}

/// What the words that were matched ask for.
fn order_in<'a>(given: &ArgMatches<'a>) -> Option<Order<'a>>
    ensures some { IfSome result (IsOrderAt (subcommand_rows_of given.now)) }
    ensures none { IfNone result ((o : Order) → ¬ (IsOrderAt (subcommand_rows_of given.now) o)) }
{
    let (name, options) = given.subcommand()?;
    order_named(name, options)
}

/// What the subcommand of this name asks for by these options.
fn order_named<'a>(name: &str, options: &ArgMatches<'a>) -> Option<Order<'a>>
    ensures some { IfSome result (IsOrderOf name.now (rows_of (found_of options.now))) }
    ensures none { IfNone result ((o : Order) → ¬ (IsOrderOf name.now (rows_of (found_of options.now)) o)) }
{
    match name {
        "replay" => Some(Order::Replay(file_replay(options)?)),
        "check" => Some(Order::Check(file_check(options)?)),
        "lint" => Some(Order::Lint(file_lint(options)?)),
        "dump" => Some(Order::Dump(text_of(options, "maps")?)),
        _ => Some(Order::Pipe {
            rounds: number_of(options, "rounds")?,
            workers: number_of(options, "workers")? as usize,
        }),
    }
}

/// The files and numbers of a replay: those of a check, and the workers.
fn file_replay<'a>(options: &ArgMatches<'a>) -> Option<FileReplay<'a>>
    ensures some { IfSome result (IsReplayOf (rows_of (found_of options.now))) }
    ensures none { IfNone result ((files : FileReplay) →
        ¬ (IsReplayOf (rows_of (found_of options.now)) files)) }
{
    let files = file_check(options)?;
    Some(FileReplay {
        config: files.config,
        trace: files.trace,
        rounds: files.rounds,
        workers: number_of(options, "workers")? as usize,
        maps: files.maps,
        report: files.report,
    })
}

/// The files and the number of a check.
fn file_check<'a>(options: &ArgMatches<'a>) -> Option<FileCheck<'a>>
    ensures some { IfSome result (IsCheckOf (rows_of (found_of options.now))) }
    ensures none { IfNone result ((files : FileCheck) →
        ¬ (IsCheckOf (rows_of (found_of options.now)) files)) }
{
    Some(FileCheck {
        config: text_of(options, "config")?,
        trace: text_of(options, "trace")?,
        rounds: number_of(options, "rounds")?,
        maps: text_of(options, "maps")?,
        report: text_of(options, "report")?,
    })
}

/// Those of a lint, of which all but the configuration may be left out.
fn file_lint<'a>(options: &ArgMatches<'a>) -> Option<FileLint<'a>>
    ensures some { IfSome result (IsLintOf (rows_of (found_of options.now))) }
    ensures none { IfNone result ((files : FileLint) →
        ¬ (IsLintOf (rows_of (found_of options.now)) files)) }
{
    Some(FileLint {
        config: text_of(options, "config")?,
        trace: text_of(options, "trace"),
        rounds: number_of(options, "rounds"),
        maps: text_of(options, "maps"),
        report: text_of(options, "report"),
    })
}

/// The text of this option.
fn text_of<'a>(options: &ArgMatches<'a>, option: &str) -> Option<&'a str>
    ensures some { IfSome result (λ text.
        HasText (rows_of (found_of options.now)) option.now text.now) }
    ensures none { IfNone result ((text : Text) →
        ¬ (HasText (rows_of (found_of options.now)) option.now text)) }
    ensures value { MayHaveText (rows_of (found_of options.now)) option.now result }
{
    options.get_str(option)
}

/// The number of this option.
fn number_of(options: &ArgMatches<'_>, option: &str) -> Option<u32>
    ensures some { IfSome result (HasNumber (rows_of (found_of options.now)) option.now) }
    ensures none { IfNone result ((number : ℕ) →
        ¬ (HasNumber (rows_of (found_of options.now)) option.now number)) }
    ensures value { MayHaveNumber (rows_of (found_of options.now)) option.now result }
{
    options.get_one::<u32>(option)
}
