//! Cuts a text into labels and statements.
ghost use Rattle.std.specs.Prelude.{◌≡◌, ◌++◌, map, length, OnOk, IfOk, IfErr};
ghost use Rattle.std.specs.Option.{option_map};
ghost use Rattle.std.specs.Str.Lines.{lines};
ghost use Rattle.text_lines.specs.Words.{prefix_of, behind_prefix};
ghost use Rattle.text_lines.specs.Bytes.{is_name_byte};
ghost use Rattle.text_lines.specs.Cutting.{label_at, colon_behind, items_left, items_of_text, visible_part};
ghost use Rattle.text_lines.specs.Kinds.{out_of_memory};
ghost use Rattle.text_lines.specs.Texts.{AreItems};
ghost use Rattle.text_lines.specs.Views.{seen};

use crate::cuts::{first_line, visible_part};
use crate::refusal::ReadRefusal;
use crate::words::{behind_blanks, is_name, is_name_byte, trim};
use std::alloc::Global;

/// What stands in a text, with the number of its line, counted from 1.
#[derive(Clone, Copy, Debug)]
pub enum Item<'t> {
    /// The label of this name.
    Label { name: &'t [u8], line: usize },
    /// The text of a statement, without blanks at its ends.
    Statement { text: &'t [u8], line: usize },
}

/// The bytes up to the first that no name may have, and from there on.
fn split_name(text: &[u8]) -> (&[u8], &[u8])
    ensures name { result.0.now ≡ prefix_of is_name_byte text.now }
    ensures rest { result.1.now ≡ behind_prefix is_name_byte text.now }
{
    let mut end = 0;
    while end < text.len() {
        if !is_name_byte(text[end]) {
            return (&text[..end], &text[end..]);
        }
        end += 1;
    }
    (&text[..end], &text[end..])
}

/// The name and the rest, where the rest begins with a colon.
fn colon_behind<'t>(name: &'t [u8], rest: &'t [u8]) -> Option<(&'t [u8], &'t [u8])>
    ensures { option_map (λ found. (found.0.now, found.1.now)) result ≡ colon_behind name.now rest.now }
{
    match rest {
        [b':', after @ ..] if is_name(name) => Some((name, after)),
        _ => None,
    }
}

/// The name of the label that a text begins with, behind blanks, and what follows its colon.
#[tactic(auto, unfolding(crate::specs::Cutting::label_at))]
fn label_at(text: &[u8]) -> Option<(&[u8], &[u8])>
    ensures { option_map (λ found. (found.0.now, found.1.now)) result ≡ label_at text.now }
{
    let (name, rest) = split_name(behind_blanks(text));
    colon_behind(name, rest)
}

/// Puts the items of a line behind others.
fn push_line<'t>(
    items: &mut Vec<Item<'t>>,
    visible: &'t [u8],
    line: usize,
) -> Result<(), ReadRefusal>
    ensures pushed { OnOk result (map seen items.new.items ≡ map seen items.old.items ++ items_left line visible.now) }
    ensures memory { IfErr result (λ e. e ≡ out_of_memory) }
{
    let mut rest = visible;
    while let Some((name, after)) = label_at(rest) {
        items.push(Item::Label { name, line })?;
        rest = after;
    }
    let text = trim(rest);
    if !text.is_empty() {
        items.push(Item::Statement { text, line })?;
    }
    Ok(())
}

/// The labels and statements of a text in their order, and the number of its lines.
pub fn items_in(alloc: Global, text: &[u8]) -> Result<(Vec<Item<'_>>, usize), ReadRefusal>
    ensures items { IfOk result (λ found. map seen found.0.items ≡ items_of_text text.now) }
    ensures lines { IfOk result (λ found. found.1 ≡ length (lines text.now)) }

    // Which items these are, line by line.
    ensures held { IfOk result (λ found. AreItems text.now (map seen found.0.items)) }
    ensures memory { IfErr result (λ e. e ≡ out_of_memory) }
{
    let mut items = Vec::new(alloc);
    let mut rest = text;
    let mut line = 0;
    while let Some((here, after)) = first_line(rest) {
        line += 1;
        push_line(&mut items, visible_part(here), line)?;
        rest = after;
    }
    Ok((items, line))
}
