//! The values of arguments, as `clap` reads them.
//!
//! The parsers are given arguments that are a command, so a parse fails for want of memory alone.
ghost use Rattle.std.specs.Prelude.{◌≡◌, ◌++◌, ◌<◌, ◌^◌, List, Some, ℕ, IfErr, IfOk, OnOk, codes, decimal, map, string_bytes};
ghost use Rattle.clap.specs.Words.{app_of, found_of, kind_of, new_rule, one_text, with_rule};
ghost use Rattle.command_line.specs.Command as plain;
ghost use Rattle.command_line.specs.Parser.{AreWords, GivesValue, GivesCommand, joined_option, parser_words};
ghost use Rattle.command_line.specs.View.{command_view, line_view, option_view};
ghost use Rattle.command_line.specs.declared.command.CommandForm.TheVariants as form;

use crate::command::{Command, FunctionArguments, RunArguments};
use crate::line::{Line, Valued};
use align_base::Word;
use clap::builder::ValueParser;
use clap::error::ErrorKind;
use clap::{Arg, ArgMatches, Error};
use outcomes::Memory;
use std::alloc::{AllocError, Global};

/// An option as one argument.
fn joined_option(alloc: Global, option: &Valued<'_>) -> Result<String, AllocError>
    ensures { IfOk result (λ text. string_bytes text ≡ joined_option (option_view option.now)) }
{
    let mut text = String::from_str(alloc, option.flag)?;
    text.push_str("=")?;
    text.push_str(option.value)?;
    Ok(text)
}

/// Adds options, each as one argument.
fn push_options(
    alloc: Global,
    words: &mut Vec<String>,
    options: &[Valued<'_>],
) -> Result<(), AllocError>
    ensures { OnOk result (map string_bytes words.new.items
        ≡ map string_bytes words.old.items ++ map (λ option. joined_option (option_view option)) options.now) }
{
    let mut rest = options;
    while let [option, after @ ..] = rest {
        words.push(joined_option(alloc, option)?)?;
        rest = after;
    }
    Ok(())
}

/// Adds plain arguments.
fn push_plain(alloc: Global, words: &mut Vec<String>, plain: &[&str]) -> Result<(), AllocError>
    ensures { OnOk result (map string_bytes words.new.items
        ≡ map string_bytes words.old.items ++ map (λ text. text.now) plain.now) }
{
    let mut rest = plain;
    while let [text, after @ ..] = rest {
        words.push(String::from_str(alloc, text)?)?;
        rest = after;
    }
    Ok(())
}

/// The arguments that the parser is given.
pub fn parser_words(alloc: Global, name: &str, line: &Line<'_>) -> Result<Vec<String>, AllocError>
    ensures { IfOk result (λ words. map string_bytes words.items ≡ parser_words name.now (line_view line.now)) }
{
    let mut words = Vec::new(alloc);
    words.push(String::from_str(alloc, name)?)?;
    push_options(alloc, &mut words, line.options.as_slice())?;
    words.push(String::from_str(alloc, "--")?)?;
    push_plain(alloc, &mut words, line.plain.as_slice())?;
    Ok(words)
}

/// Adds two plain arguments, by their names.
fn with_two<'a>(
    alloc: Global,
    parser: clap::Command<'a>,
    first: &'a str,
    second: &'a str,
) -> Result<clap::Command<'a>, AllocError>
    ensures { IfOk result (λ p. app_of p
        ≡ with_rule (with_rule (app_of parser.entry) (new_rule first.entry.now)) (new_rule second.entry.now)) }
{
    let parser = parser.arg(Arg::new(alloc, first))?;
    parser.arg(Arg::new(alloc, second))
}

/// Adds four plain arguments, by their names.
fn with_four<'a>(
    alloc: Global,
    parser: clap::Command<'a>,
    first: &'a str,
    second: &'a str,
    third: &'a str,
    fourth: &'a str,
) -> Result<clap::Command<'a>, AllocError>
    ensures { IfOk result (λ p. app_of p ≡ with_rule (with_rule (with_rule (with_rule (app_of parser.entry)
        (new_rule first.entry.now)) (new_rule second.entry.now)) (new_rule third.entry.now)) (new_rule fourth.entry.now)) }
{
    let parser = with_two(alloc, parser, first, second)?;
    with_two(alloc, parser, third, fourth)
}

/// Parses the words of `decide LEFT F RIGHT G`.
fn decide_matches<'a>(alloc: Global, words: &'a [String]) -> Result<ArgMatches<'a>, Error>
    ensures ok { (c : plain.Command) → AreWords form.DecidePlain (map string_bytes words.entry.now) c
        → IfOk result (λ matches. GivesCommand matches c) }
    ensures err { (c : plain.Command) → AreWords form.DecidePlain (map string_bytes words.entry.now) c
        → IfErr result (λ e. kind_of e ≡ ErrorKind.OutOfMemory) }
{
    let empty = clap::Command::new(alloc, "decide");
    let parser = with_four(
        alloc,
        empty,
        "left",
        "left_function",
        "right",
        "right_function",
    )?;
    parser.try_get_matches_from(words)
}

/// Parses the words of `run FILE F ADMIT TESTS`.
fn run_matches<'a>(alloc: Global, words: &'a [String]) -> Result<ArgMatches<'a>, Error>
    ensures ok { (c : plain.Command) → AreWords form.Run (map string_bytes words.entry.now) c
        → IfOk result (λ matches. GivesCommand matches c) }
    ensures err { (c : plain.Command) → AreWords form.Run (map string_bytes words.entry.now) c
        → IfErr result (λ e. kind_of e ≡ ErrorKind.OutOfMemory) }
{
    let steps = Arg::new(alloc, "steps")
        .long("steps")
        .value_parser(ValueParser::unsigned(1, 65_536))
        .default_value("20000");
    let optioned = clap::Command::new(alloc, "run").arg(steps)?;
    let parser = with_four(alloc, optioned, "file", "function", "admission", "tests")?;
    parser.try_get_matches_from(words)
}

/// Parses the words of `show FILE F`.
fn show_matches<'a>(alloc: Global, words: &'a [String]) -> Result<ArgMatches<'a>, Error>
    ensures ok { (c : plain.Command) → AreWords form.Show (map string_bytes words.entry.now) c
        → IfOk result (λ matches. GivesCommand matches c) }
    ensures err { (c : plain.Command) → AreWords form.Show (map string_bytes words.entry.now) c
        → IfErr result (λ e. kind_of e ≡ ErrorKind.OutOfMemory) }
{
    let empty = clap::Command::new(alloc, "show");
    let parser = with_two(alloc, empty, "file", "function")?;
    parser.try_get_matches_from(words)
}

/// The value of an argument that has one.
fn word_of(alloc: Global, matches: &ArgMatches<'_>, id: &str) -> Result<Word, Memory>
    requires { (text : List ℕ) × GivesValue matches.now id.now text }
    ensures { IfOk result (λ word. GivesValue matches.now id.now word) }
{
    Word::new(alloc, matches.get_str(id).unwrap().as_bytes())
}

/// The number of steps, where the parse gave one.
fn steps_of(matches: &ArgMatches<'_>) -> u64
    requires { (n : ℕ) × (one_text (found_of matches.now) (codes "steps") ≡ Some (decimal n)) × (n < 2 ^ 64) }
    ensures { (n : ℕ) → one_text (found_of matches.now) (codes "steps") ≡ Some (decimal n) → n < 2 ^ 64 → result ≡ n }
{
    matches.get_one::<u64>("steps").unwrap()
}

/// The command to decide whose words these are.
pub fn decide_of(alloc: Global, words: &[String]) -> Result<Command, Memory>
    requires { (c : plain.Command) × AreWords form.DecidePlain (map string_bytes words.now) c }
    ensures { IfOk result (λ found. (c : plain.Command) → AreWords form.DecidePlain (map string_bytes words.now) c
        → command_view found ≡ c) }
{
    let Ok(matches) = decide_matches(alloc, words) else {
        return Err(Memory);
    };
    let left = FunctionArguments {
        file: word_of(alloc, &matches, "left")?,
        name: word_of(alloc, &matches, "left_function")?,
    };
    let right = FunctionArguments {
        file: word_of(alloc, &matches, "right")?,
        name: word_of(alloc, &matches, "right_function")?,
    };
    Ok(Command::DecidePlain(left, right))
}

/// The command to run whose words these are.
pub fn run_of(alloc: Global, words: &[String]) -> Result<Command, Memory>
    requires { (c : plain.Command) × AreWords form.Run (map string_bytes words.now) c }
    ensures { IfOk result (λ found. (c : plain.Command) → AreWords form.Run (map string_bytes words.now) c
        → command_view found ≡ c) }
{
    let Ok(matches) = run_matches(alloc, words) else {
        return Err(Memory);
    };
    let function = FunctionArguments {
        file: word_of(alloc, &matches, "file")?,
        name: word_of(alloc, &matches, "function")?,
    };
    let admission = word_of(alloc, &matches, "admission")?;
    let tests = word_of(alloc, &matches, "tests")?;
    Ok(Command::Run(RunArguments {
        function,
        admission,
        tests,
        steps: steps_of(&matches),
    }))
}

/// The command to show whose words these are.
pub fn show_of(alloc: Global, words: &[String]) -> Result<Command, Memory>
    requires { (c : plain.Command) × AreWords form.Show (map string_bytes words.now) c }
    ensures { IfOk result (λ found. (c : plain.Command) → AreWords form.Show (map string_bytes words.now) c
        → command_view found ≡ c) }
{
    let Ok(matches) = show_matches(alloc, words) else {
        return Err(Memory);
    };
    Ok(Command::Show(FunctionArguments {
        file: word_of(alloc, &matches, "file")?,
        name: word_of(alloc, &matches, "function")?,
    }))
}
