//! Reads lines.
ghost use Rattle.std.specs.Prelude.{◌≡◌, ◌≤◌, length, IfOk, map, false};
ghost use Rattle.std.specs.List.{list_all};
ghost use Rattle.std.specs.Option.{option_map};
ghost use Rattle.std.specs.Char.{is_ascii_digit};
ghost use Rattle.admission.specs.declared.admission.RegionLine.{RegionLine};
ghost use Rattle.admission_text.specs.Grammar as grammar;
ghost use Rattle.admission_text.specs.Reading as reading;
ghost use Rattle.text_parts.specs.Cuts as cuts;

use crate::entry::{Draft, Entry, Keyword};
use crate::expr::expr_of;
use crate::register::{output_of, word_number};
use admission::{Items, Need, RegionLine, Rel};
use align_base::Word;
use insn_ops::Output;
use outcomes::Memory;
use std::alloc::Global;
use text_parts::{first_part, five_words, four_words, one_word, three_words, two_words};

// The relation that is written so.
#[tactic(auto, unfolding(crate::specs::Reading::relation_of))]
fn relation_of(word: &[u8]) -> Option<Rel>
    ensures { result ≡ reading.relation_of word.now }
{
    match word {
        b"=" => Some(Rel::Eq),
        b"!=" => Some(Rel::Ne),
        b"<" => Some(Rel::Lt),
        b"<=" => Some(Rel::Le),
        b"s<" => Some(Rel::Slt),
        b"s<=" => Some(Rel::Sle),
        _ => None,
    }
}

// Whether it is a power of two from 2 to 4,096.
fn is_modulus(m: u64) -> bool
    ensures { result ≡ reading.is_modulus m }
{
    matches!(
        m,
        2 | 4 | 8 | 16 | 32 | 64 | 128 | 256 | 512 | 1024 | 2048 | 4096
    )
}

// Whether each byte is a lower-case letter or a digit.
fn are_name_bytes(bytes: &[u8]) -> bool
    ensures { result ≡ list_all grammar.is_name_byte bytes.now }
{
    for byte in bytes {
        if !byte.is_ascii_lowercase() && !byte.is_ascii_digit() {
            return false;
        }
    }
    true
}

// Whether it may name a region.
#[tactic(auto, unfolding(crate::specs::Reading::is_region_name))]
fn is_region_name(name: &[u8]) -> bool
    ensures { result ≡ reading.is_region_name name.now }
{
    match name {
        [first, rest @ ..] => first.is_ascii_lowercase()
            && are_name_bytes(rest)
            && rest.len() <= 15,
        [] => false,
    }
}

// The number of the region of this name.
fn region_number(regions: &[RegionLine], name: &[u8]) -> Option<u32>
    requires { length regions.now ≤ 8 }
    ensures { result ≡ grammar.region_number name.now (map (λ (r : RegionLine). r.name) regions.now) }
{
    let mut number = 0u32;
    for region in regions {
        if region.name.bytes() == name {
            return Some(number);
        }
        number += 1;
    }
    None
}

// The number of the region of this name among those of a draft.
fn number_in(draft: &Draft, name: &[u8]) -> Option<u32>
    requires { length draft.now.admission.regions ≤ 8 }
    ensures { result ≡ grammar.region_number name.now (reading.names_of draft.now) }
{
    region_number(draft.admission.regions.as_slice(), name)
}

// Whether a region may be written.
#[tactic(auto, unfolding(crate::specs::Reading::right_of))]
fn right_of(word: &[u8]) -> Option<bool>
    ensures { result ≡ reading.right_of word.now }
{
    match word {
        b"write" => Some(true),
        b"read" => Some(false),
        _ => None,
    }
}

// `admit 1`, by what stands behind the first space, as in all that follow.
#[tactic(auto, unfolding(crate::specs::Reading::header_entry))]
fn header_entry(draft: &Draft, rest: &[u8]) -> Option<Entry>
    ensures { result ≡ reading.header_entry draft.now rest.now }
{
    if draft.headed || rest != b"1".as_slice() {
        return None;
    }
    Some(Entry::Header)
}

// `region NAME BASE LEN read` or `write`.
#[tactic(auto, unfolding(crate::specs::Reading::region_entry))]
fn region_entry(alloc: Global, draft: &Draft, rest: &[u8]) -> Result<Option<Entry>, Memory>
    requires { length draft.now.admission.regions ≤ 8 }
    ensures { IfOk result (λ found. found ≡ reading.region_entry draft.now rest.now) }
{
    let Some((name, base, len, right)) = four_words(rest) else {
        return Ok(None);
    };
    let Some(write) = right_of(right) else {
        return Ok(None);
    };
    if !is_region_name(name) || number_in(draft, name).is_some() {
        return Ok(None);
    }
    let Some(base) = expr_of(alloc, base)? else {
        return Ok(None);
    };
    let Some(len) = expr_of(alloc, len)? else {
        return Ok(None);
    };
    let name = Word::new(alloc, name)?;
    Ok(Some(Entry::Region(RegionLine {
        name,
        base,
        len,
        write,
    })))
}

// `E mod M = R`.
#[tactic(auto, unfolding(crate::specs::Reading::modulo_need))]
fn modulo_need(
    alloc: Global,
    left: &[u8],
    word: &[u8],
    modulus: &[u8],
    equals: &[u8],
    rest: &[u8],
) -> Result<Option<Need>, Memory>
    ensures { IfOk result (λ found. found ≡ reading.modulo_need left.now word.now modulus.now equals.now rest.now) }
{
    if word != b"mod".as_slice() || equals != b"=".as_slice() {
        return Ok(None);
    }
    let Some(m) = word_number(modulus) else {
        return Ok(None);
    };
    let Some(r) = word_number(rest) else {
        return Ok(None);
    };
    if !is_modulus(m) || r >= m {
        return Ok(None);
    }
    let Some(a) = expr_of(alloc, left)? else {
        return Ok(None);
    };
    Ok(Some(Need::Modulo { a, m, r }))
}

// `E REL E`.
#[tactic(auto, unfolding(crate::specs::Reading::compare_need))]
fn compare_need(
    alloc: Global,
    left: &[u8],
    word: &[u8],
    right: &[u8],
) -> Result<Option<Need>, Memory>
    ensures { IfOk result (λ found. found ≡ reading.compare_need left.now word.now right.now) }
{
    let Some(rel) = relation_of(word) else {
        return Ok(None);
    };
    let Some(a) = expr_of(alloc, left)? else {
        return Ok(None);
    };
    let Some(b) = expr_of(alloc, right)? else {
        return Ok(None);
    };
    Ok(Some(Need::Compare { a, rel, b }))
}

// What a `require` line asks.
fn need_of(alloc: Global, rest: &[u8]) -> Result<Option<Need>, Memory>
    ensures { IfOk result (λ found. found ≡ reading.need_by (cuts.five_words rest.now) rest.now) }
{
    if let Some((left, word, modulus, equals, last)) = five_words(rest) {
        return modulo_need(alloc, left, word, modulus, equals, last);
    }
    let Some((left, word, right)) = three_words(rest) else {
        return Ok(None);
    };
    compare_need(alloc, left, word, right)
}

// `require E REL E`, or `require E mod M = R`.
#[tactic(auto, unfolding(crate::specs::Reading::require_entry))]
fn require_entry(alloc: Global, rest: &[u8]) -> Result<Option<Entry>, Memory>
    ensures { IfOk result (λ found. found ≡ reading.require_entry rest.now) }
{
    let Some(need) = need_of(alloc, rest)? else {
        return Ok(None);
    };
    Ok(Some(Entry::Require(need)))
}

// `apart NAME NAME`.
#[tactic(auto, unfolding(crate::specs::Reading::apart_entry))]
fn apart_entry(draft: &Draft, rest: &[u8]) -> Option<Entry>
    requires { length draft.now.admission.regions ≤ 8 }
    ensures { result ≡ reading.apart_entry draft.now rest.now }
{
    let (left, right) = two_words(rest)?;
    let first = number_in(draft, left)?;
    let second = number_in(draft, right)?;
    if first == second {
        return None;
    }
    Some(Entry::Apart(first, second))
}

// `scratch BASE LEN`.
#[tactic(auto, unfolding(crate::specs::Reading::scratch_entry))]
fn scratch_entry(alloc: Global, rest: &[u8]) -> Result<Option<Entry>, Memory>
    ensures { IfOk result (λ found. found ≡ reading.scratch_entry rest.now) }
{
    let Some((base, len)) = two_words(rest) else {
        return Ok(None);
    };
    let Some(base) = expr_of(alloc, base)? else {
        return Ok(None);
    };
    let Some(len) = expr_of(alloc, len)? else {
        return Ok(None);
    };
    Ok(Some(Entry::Scratch(base, len)))
}

// `stack N`.
#[tactic(auto, unfolding(crate::specs::Reading::stack_entry))]
fn stack_entry(draft: &Draft, rest: &[u8]) -> Option<Entry>
    ensures { result ≡ reading.stack_entry draft.now rest.now }
{
    if draft.stacked {
        return None;
    }
    let word = one_word(rest)?;
    let bytes = word_number(word)?;
    if bytes % 8 == 0 && bytes <= 4096 {
        Some(Entry::Stack(bytes))
    } else {
        None
    }
}

// The outputs of words, if there are any.
fn outputs_of(alloc: Global, rest: Option<&[u8]>) -> Result<Option<Items<Output>>, Memory>
    ensures { IfOk result (λ found. found ≡ reading.outputs_of (cuts.parts_left 32 (option_map (λ t. t.now) rest.entry))) }
{
    let mut live = Items::new(alloc);
    let mut left = rest;
    while let Some(text) = left {
        let (word, more) = first_part(text, b' ');
        let Some(output) = output_of(word) else {
            return Ok(None);
        };
        live.push(output)?;
        left = more;
    }
    Ok(Some(live))
}

// `live`, and outputs.
#[tactic(auto, unfolding(crate::specs::Reading::live_entry))]
fn live_entry(alloc: Global, draft: &Draft, rest: Option<&[u8]>) -> Result<Option<Entry>, Memory>
    ensures { IfOk result (λ found. found ≡ reading.live_entry draft.now (option_map (λ t. t.now) rest.entry)) }
{
    if draft.lived {
        return Ok(None);
    }
    let Some(live) = outputs_of(alloc, rest)? else {
        return Ok(None);
    };
    Ok(Some(Entry::Live(live)))
}

// The word that begins a line.
#[tactic(auto, unfolding(crate::specs::Reading::keyword_of))]
fn keyword_of(word: &[u8]) -> Option<Keyword>
    ensures { result ≡ reading.keyword_of word.now }
{
    match word {
        b"admit" => Some(Keyword::Admit),
        b"region" => Some(Keyword::Region),
        b"require" => Some(Keyword::Require),
        b"apart" => Some(Keyword::Apart),
        b"scratch" => Some(Keyword::Scratch),
        b"stack" => Some(Keyword::Stack),
        b"live" => Some(Keyword::Live),
        _ => None,
    }
}

// What a line of this keyword spells.
fn entry_with(
    alloc: Global,
    draft: &Draft,
    keyword: Keyword,
    rest: Option<&[u8]>,
) -> Result<Option<Entry>, Memory>
    requires { length draft.now.admission.regions ≤ 8 }
    ensures { IfOk result (λ found. found ≡ reading.entry_with draft.now keyword (option_map (λ t. t.now) rest.entry)) }
{
    match (keyword, rest) {
        (Keyword::Live, _) => live_entry(alloc, draft, rest),
        (_, None) => Ok(None),
        (Keyword::Admit, Some(text)) => Ok(header_entry(draft, text)),
        (Keyword::Region, Some(text)) => region_entry(alloc, draft, text),
        (Keyword::Require, Some(text)) => require_entry(alloc, text),
        (Keyword::Apart, Some(text)) => Ok(apart_entry(draft, text)),
        (Keyword::Scratch, Some(text)) => scratch_entry(alloc, text),
        (Keyword::Stack, Some(text)) => Ok(stack_entry(draft, text)),
    }
}

/// What a line spells behind those that made the draft, if anything.
#[tactic(auto, unfolding(crate::specs::Reading::entry_of))]
pub fn entry_of(alloc: Global, draft: &Draft, text: &[u8]) -> Result<Option<Entry>, Memory>
    requires { length draft.now.admission.regions ≤ 8 }
    ensures { IfOk result (λ found. found ≡ reading.entry_of draft.now text.now) }
{
    let (word, rest) = first_part(text, b' ');
    let Some(keyword) = keyword_of(word) else {
        return Ok(None);
    };
    if !draft.headed && !matches!(keyword, Keyword::Admit) {
        return Ok(None);
    }
    entry_with(alloc, draft, keyword, rest)
}
