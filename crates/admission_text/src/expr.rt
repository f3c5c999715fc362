//! Reads expressions.
ghost use Rattle.std.specs.Prelude.{◌≡◌, IfOk};
ghost use Rattle.admission_text.specs.Reading as reading;

use crate::cuts::cut_sign;
use crate::register::{register_of, word_number};
use admission::{Expr, Items, Term};
use outcomes::Memory;
use std::alloc::Global;
use text_parts::cut_at;

// How many terms an expression may have.
const MOST_TERMS: usize = 8;

// A term, which is added or subtracted.
#[tactic(auto, unfolding(crate::specs::Reading::term_of))]
fn term_of(text: &[u8], minus: bool) -> Option<Term>
    ensures { result ≡ reading.term_of minus text.now }
{
    if let Some((number, register)) = cut_at(text, b'*') {
        let c = word_number(number)?;
        let n = register_of(register)?;
        return Some(Term {
            minus,
            c,
            reg: Some(n),
        });
    }
    if let Some(n) = register_of(text) {
        return Some(Term {
            minus,
            c: 1,
            reg: Some(n),
        });
    }
    let c = word_number(text)?;
    Some(Term {
        minus,
        c,
        reg: None,
    })
}

// One to eight terms, joined by `+` or `-`.
pub(crate) fn expr_of(alloc: Global, text: &[u8]) -> Result<Option<Expr>, Memory>
    ensures { IfOk result (λ found. found ≡ reading.expr_of text.now) }
{
    let mut terms = Items::new(alloc);
    let mut rest = text;
    let mut minus = false;
    while terms.len() < MOST_TERMS {
        let Some((here, next, after)) = cut_sign(rest) else {
            let Some(term) = term_of(rest, minus) else {
                return Ok(None);
            };
            terms.push(term)?;
            return Ok(Some(Expr { terms }));
        };
        let Some(term) = term_of(here, minus) else {
            return Ok(None);
        };
        terms.push(term)?;
        minus = next;
        rest = after;
    }
    Ok(None)
}
