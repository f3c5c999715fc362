//! Where the body of a function begins and ends.
ghost use Rattle.std.specs.Prelude.{◌≡◌, ◌==◌, false, map, bytes_eq, IfNone, IfSome};
ghost use Rattle.std.specs.Option.{option_map};
ghost use Rattle.std.specs.List.{list_any};
ghost use Rattle.text_lines.specs.Words.{prefix_of};
ghost use Rattle.text_lines.specs.Views.{seen};
ghost use Rattle.att_bodies.specs.Body.{is_label, is_directive, is_local, is_symbol_byte, symbol_of, ends_function, ends_body, is_code, IsExtent};
ghost use Rattle.att_bodies.specs.Faults.{is_data};
ghost use Rattle.att_bodies.specs.Functions.{line_of, last_line};
ghost use Rattle.att_bodies.specs.Reading.{behind_body, body_split, extent_of, count_of, leaves};

use insn_table::{Insn, Op};
use text_lines::{Item, behind_blanks, is_blank, split_word};

/// Whether the last instruction returns or jumps.
pub fn leaves(insns: &[Insn]) -> bool
    ensures { result ≡ leaves insns.now }
{
    match insns.last() {
        Some(insn) => matches!(insn.op, Op::Ret | Op::Jmp),
        None => false,
    }
}

/// Whether the statement is a directive: whether it begins with a dot.
pub fn is_directive(text: &[u8]) -> bool
    ensures { result ≡ is_directive text.now }
{
    matches!(text, [b'.', ..])
}

/// Whether the word is one of these.
fn is_one_of(word: &[u8], words: &[&str]) -> bool
    ensures { result ≡ list_any (λ w. bytes_eq w word.now) (map (λ w. w.now) words.now) }
{
    let mut rest = words;
    while let [other, after @ ..] = rest {
        if other.as_bytes() == word {
            return true;
        }
        rest = after;
    }
    false
}

/// Whether the directive puts data into a section.
#[tactic(auto, unfolding(crate::specs::Faults::is_data))]
pub fn is_data(text: &[u8]) -> bool
    ensures { result ≡ is_data text.now }
{
    let (word, _) = split_word(text);
    is_one_of(
        word,
        &[
            ".byte", ".word", ".short", ".value", ".long", ".int", ".quad", ".octa", ".ascii",
            ".asciz", ".string", ".zero", ".skip", ".space", ".fill", ".float", ".double",
        ],
    )
}

/// Whether the item is a label of this name.
pub(crate) fn is_label(name: &[u8], item: &Item<'_>) -> bool
    ensures { result ≡ is_label name.now (seen item.now) }
{
    match item {
        Item::Label { name: label, .. } => *label == name,
        Item::Statement { .. } => false,
    }
}

/// Whether a label of this name stands inside functions: whether the name begins with `.L`.
fn is_local(name: &[u8]) -> bool
    ensures { result ≡ is_local name.now }
{
    matches!(name, [b'.', b'L', ..])
}

/// Whether it is neither a blank nor a comma.
fn is_symbol_byte(byte: u8) -> bool
    ensures { result ≡ is_symbol_byte byte }
{
    !is_blank(byte) && byte != b','
}

/// The bytes up to the first blank or comma.
fn symbol_prefix(text: &[u8]) -> &[u8]
    ensures { result.now ≡ prefix_of is_symbol_byte text.now }
{
    let mut end = 0;
    while end < text.len() {
        if !is_symbol_byte(text[end]) {
            return &text[..end];
        }
        end += 1;
    }
    &text[..end]
}

/// The symbol behind a directive's word, up to a blank or a comma.
#[tactic(auto, unfolding(crate::specs::Body::symbol_of))]
fn symbol(text: &[u8]) -> &[u8]
    ensures { result.now ≡ symbol_of text.now }
{
    let (_, rest) = split_word(text);
    symbol_prefix(behind_blanks(rest))
}

/// Whether the directive ends the function of this name.
#[tactic(auto, unfolding(crate::specs::Body::ends_function))]
fn ends_function(name: &[u8], text: &[u8]) -> bool
    ensures { result ≡ ends_function name.now text.now }
{
    let (word, _) = split_word(text);
    word == b".cfi_endproc".as_slice() || word == b".size".as_slice() && symbol(text) == name
}

/// Whether the item ends the body of the function of this name.
fn ends_body(name: &[u8], item: &Item<'_>) -> bool
    ensures { result ≡ ends_body name.now (seen item.now) }
{
    match item {
        Item::Label { name: label, .. } => !is_local(label),
        Item::Statement { text, .. } => ends_function(name, text),
    }
}

/// How many instructions the item is: one, where it is a statement that is no directive.
pub fn count_of(item: &Item<'_>) -> usize
    ensures { result ≡ count_of (seen item.now) }
{
    match item {
        Item::Label { .. } => 0,
        Item::Statement { text, .. } => { if is_directive(text) { 0 } else { 1 } }
    }
}

/// The items from the first on that ends the body.
#[tactic(auto, unfolding(crate::specs::Reading::behind_body))]
fn behind_body<'i, 't>(name: &[u8], items: &'i [Item<'t>]) -> &'i [Item<'t>]
    ensures { map seen result.now ≡ behind_body name.now (map seen items.now) }
{
    let mut rest = items;
    while let [item, after @ ..] = rest {
        if ends_body(name, item) {
            return rest;
        }
        rest = after;
    }
    rest
}

/// The body that begins with the first item, and what stands behind it.
fn body_split<'i, 't>(name: &[u8], items: &'i [Item<'t>]) -> (&'i [Item<'t>], &'i [Item<'t>])
    ensures { (map seen result.0.now, map seen result.1.now) ≡ body_split name.now (map seen items.now) }
{
    match items.split_first() {
        Some((_, rest)) => {
            let behind = behind_body(name, rest);
            (&items[..items.len() - behind.len()], behind)
        }
        None => (items, items),
    }
}

/// The body of the function of this name, and what stands behind it, if a label has that name.
#[tactic(auto, unfolding(crate::specs::Reading::extent_of))]
pub fn extent<'i, 't>(
    name: &[u8],
    items: &'i [Item<'t>],
) -> Option<(&'i [Item<'t>], &'i [Item<'t>])>
    ensures read { option_map (λ found. (map seen found.0.now, map seen found.1.now)) result
        ≡ extent_of name.now (map seen items.now) }

    // Which items these are, by their places: from the first label of the name up to one that ends it.
    ensures found { IfSome result (λ found. IsExtent name.now (map seen items.now)
        (map seen found.0.now) (map seen found.1.now)) }
    ensures none { IfNone result (list_any (is_label name.now) (map seen items.now) ≡ false) }
{
    let mut rest = items;
    while let [item, after @ ..] = rest {
        if is_label(name, item) {
            return Some(body_split(name, rest));
        }
        rest = after;
    }
    None
}

/// The line of an item.
fn line_of(item: &Item<'_>) -> usize
    ensures { result ≡ line_of (seen item.now) }
{
    match item {
        Item::Label { line, .. } | Item::Statement { line, .. } => *line,
    }
}

/// Whether an item stands on this line.
fn stands_on(line: usize, items: &[Item<'_>]) -> bool
    ensures { result ≡ list_any (λ i. line_of i == line) (map seen items.now) }
{
    let mut rest = items;
    while let [item, after @ ..] = rest {
        if line_of(item) == line {
            return true;
        }
        rest = after;
    }
    false
}

/// The last line of a body in a text of so many lines, where these items stand behind it.
pub fn last_line(lines: usize, body: &[Item<'_>], after: &[Item<'_>]) -> usize
    ensures { result ≡ last_line lines (map seen body.now) (map seen after.now) }
{
    match after.split_first() {
        None => lines,
        Some((ending, _)) => {
            let line = line_of(ending);
            if stands_on(line, body) {
                line
            } else {
                line.saturating_sub(1)
            }
        }
    }
}
