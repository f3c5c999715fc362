//! Options and plain arguments.
ghost use Rattle.std.specs.Prelude.{◌≡◌, IfNone, IfOk, IfSome, None, OnOk, Some, option_map};
ghost use Rattle.std.specs.List.{AllByRecursion};
ghost use Rattle.command_line.specs.Command.{IsArgument};
ghost use Rattle.command_line.specs.Parts.{is_bare, is_dashed, is_long};
ghost use Rattle.command_line.specs.Reading as reading;
ghost use Rattle.command_line.specs.View.{item_view, line_view, mode_view};

use align_base::Word;
use std::alloc::{AllocError, Global};
use std::str;

/// An option: its name with `--` before it, and its value.
#[derive(Clone, Copy)]
pub struct Valued<'a> {
    pub flag: &'a str,
    pub value: &'a str,
}

/// The options and the plain arguments, in order.
#[derive(Drop)]
pub struct Line<'a> {
    pub options: Vec<Valued<'a>>,
    pub plain: Vec<&'a str>,
}

/// What the arguments before leave open.
#[derive(Clone, Copy)]
pub enum Mode<'a> {
    /// Nothing.
    Usual,
    /// The value of the option with this name is next.
    ValueOf(&'a str),
    /// All arguments are plain, since `--` stands before.
    AllPlain,
}

/// What one argument adds.
#[derive(Clone, Copy)]
pub enum Item<'a> {
    Nothing,
    Bare(&'a str),
    WithValue(Valued<'a>),
}

/// Whether it begins with `-`.
#[tactic(auto, unfolding(crate::specs::Parts::is_dashed))]
fn is_dashed(argument: &[u8]) -> bool
    ensures { result ≡ is_dashed argument.now }
{
    match argument {
        [] => false,
        [first, ..] => *first == b'-',
    }
}

/// Whether an argument is plain where no `--` stands before it.
#[tactic(auto, unfolding(crate::specs::Parts::is_bare))]
fn is_bare(argument: &[u8]) -> bool
    ensures { result ≡ is_bare argument.now }
{
    match argument {
        [] | [_] => true,
        [first, ..] => *first != b'-',
    }
}

/// Whether it begins with `--` and is longer.
#[tactic(auto, unfolding(crate::specs::Parts::is_long))]
fn is_long(argument: &[u8]) -> bool
    ensures { result ≡ is_long argument.now }
{
    match argument {
        [] | [_] | [_, _] => false,
        [first, second, ..] => *first == b'-' && *second == b'-',
    }
}

/// An argument that begins with `-` and is neither `-` nor `--`.
#[tactic(auto, unfolding(crate::specs::Reading::dashed_turn))]
fn dashed_turn(text: &str) -> Option<(Item<'_>, Mode<'_>)>
    ensures { option_map (λ t. (item_view t.0, mode_view t.1)) result ≡ reading.dashed_turn text.now }
{
    match text.split_once('=') {
        Some((flag, value)) => {
            if is_long(flag.as_bytes()) && !value.is_empty() {
                Some((Item::WithValue(Valued { flag, value }), Mode::Usual))
            } else {
                None
            }
        }
        None => {
            if is_long(text.as_bytes()) {
                Some((Item::Nothing, Mode::ValueOf(text)))
            } else {
                None
            }
        }
    }
}

/// An argument where no `--` and no name of an option stands before.
#[tactic(auto, unfolding(crate::specs::Reading::usual_turn))]
fn usual_turn(text: &str) -> Option<(Item<'_>, Mode<'_>)>
    ensures { option_map (λ t. (item_view t.0, mode_view t.1)) result ≡ reading.usual_turn text.now }
{
    if is_bare(text.as_bytes()) {
        return Some((Item::Bare(text), Mode::Usual));
    }
    if text == "--" {
        return Some((Item::Nothing, Mode::AllPlain));
    }
    dashed_turn(text)
}

/// What an argument adds, and what it leaves open; nothing where it is refused.
#[tactic(auto, unfolding(crate::specs::Reading::turn))]
fn turn<'a>(mode: Mode<'a>, text: &'a str) -> Option<(Item<'a>, Mode<'a>)>
    ensures { option_map (λ t. (item_view t.0, mode_view t.1)) result ≡ reading.turn (mode_view mode.entry) text.entry.now }
{
    match mode {
        Mode::Usual => usual_turn(text),
        Mode::AllPlain => Some((Item::Bare(text), Mode::AllPlain)),
        Mode::ValueOf(flag) => {
            if is_dashed(text.as_bytes()) {
                None
            } else {
                Some((Item::WithValue(Valued { flag, value: text }), Mode::Usual))
            }
        }
    }
}

impl<'a> Line<'a> {
    /// Adds what an argument adds.
    fn push(&mut self, item: Item<'a>) -> Result<(), AllocError>
        ensures { OnOk result (line_view self.new ≡ reading.pushed (line_view self.old) (item_view item.entry)) }
    {
        match item {
            Item::Nothing => {}
            Item::Bare(text) => self.plain.push(text)?,
            Item::WithValue(option) => self.options.push(option)?,
        }
        Ok(())
    }
}

/// The text of an argument, where it is text and not empty.
fn text_of(argument: &[u8]) -> Option<&str>
    ensures some { IfSome result (λ text. (text.now ≡ argument.now) × IsArgument argument.now) }
    ensures none { IfNone result (IsArgument argument.now → ⊥) }
{
    if argument.is_empty() {
        return None;
    }
    match str::from_utf8(argument) {
        Ok(text) => Some(text),
        Err(_) => None,
    }
}

/// The options and the plain arguments, where the arguments are read.
pub fn line_of(alloc: Global, arguments: &[Word]) -> Result<Option<Line<'_>>, AllocError>
    ensures some { IfOk result (λ line. IfSome line (λ l. AllByRecursion IsArgument arguments.now
        × (reading.line_in reading.Usual arguments.now ≡ Some (line_view l)))) }
    ensures none { IfOk result (λ line. IfNone line (AllByRecursion IsArgument arguments.now
        → reading.line_in reading.Usual arguments.now ≡ None)) }
{
    let mut line = Line {
        options: Vec::new(alloc),
        plain: Vec::new(alloc),
    };
    let mut mode = Mode::Usual;
    let mut rest = arguments;
    while let [argument, after @ ..] = rest {
        let Some(text) = text_of(argument.bytes()) else {
            return Ok(None);
        };
        let Some((item, next)) = turn(mode, text) else {
            return Ok(None);
        };
        line.push(item)?;
        mode = next;
        rest = after;
    }
    match mode {
        Mode::ValueOf(_) => Ok(None),
        _ => Ok(Some(line)),
    }
}
