//! One line: its token and its text.
ghost use Rattle.std.specs.Prelude.{◌≡◌, ℕ, List, [], ◌∷◌, length, MatchOption, IfOk};
ghost use Rattle.turk_base.specs.Encodings.{Spells};
ghost use Rattle.reply_text.specs.LeafData.{leaf_of, leaves_of};
ghost use Rattle.reply_text.specs.Leaves.{text};
ghost use Rattle.reply_text.specs.Lines.{IsText, IsReplyLine, IsNoReplyLine};

use crate::leaf::Leaf;
use crate::leaves::line_leaves;
use std::alloc::Global;
use turk_base::{NoMemory, TextStop, Units};

/// No text with more bytes of UTF-8 has at most 1,048,576 units, since a unit takes four bytes at most.
const MOST_BYTES: usize = 4_194_304;

/// The reply of a line, and how many bytes of UTF-8 its text has.
#[derive(Drop)]
pub struct Reply {
    pub token: Units,
    pub answer: Units,
    pub size: usize,
}

fn text_at(leaf: &Leaf) -> Option<&str>
    ensures { MatchOption result ((s : List ℕ) → leaf_of leaf.now ≡ text s → ⊥) (λ s. leaf_of leaf.now ≡ text s.now) }
{
    match leaf {
        Leaf::Text(text) => Some(text.as_str()),
        Leaf::Whole(_) => None,
    }
}

fn two_leaves(leaves: &[Leaf]) -> Option<(&Leaf, &Leaf)>
    ensures { MatchOption result (length leaves.now ≡ 2 → ⊥) (λ p. leaves.now ≡ p.0.now ∷ p.1.now ∷ []) }
{
    let (first, rest) = leaves.split_first()?;
    let (second, rest) = rest.split_first()?;
    if rest.is_empty() {
        Some((first, second))
    } else {
        None
    }
}

fn two_texts(leaves: &[Leaf]) -> Option<(&str, &str)>
    ensures { MatchOption result ((a b : List ℕ) → leaves_of leaves.now ≡ text a ∷ text b ∷ [] → ⊥) (λ p. leaves_of leaves.now ≡ text p.0.now ∷ text p.1.now ∷ []) }
{
    let (first, second) = two_leaves(leaves)?;
    let token = text_at(first)?;
    let answer = text_at(second)?;
    Some((token, answer))
}

/// The units of a text, None exactly where there are more than 1,048,576.
fn units_of(alloc: Global, text: &str) -> Result<Option<Units>, NoMemory>
    ensures { IfOk result (λ o. MatchOption o ((units : List ℕ) → IsText text.now units → ⊥) (λ units. IsText text.now units)) }
{
    if text.len() > MOST_BYTES {
        return Ok(None);
    }
    match Units::from_utf8(alloc, text.as_bytes()) {
        Ok(units) => Ok(Some(units)),
        Err(stop) => match stop {
            TextStop::Memory => Err(NoMemory),
            _ => Ok(None),
        },
    }
}

/// The reply of a line, None exactly where the line isn't of the form.
pub fn reply_line(alloc: Global, line: &[u8]) -> Result<Option<Reply>, NoMemory>
    ensures { IfOk result (λ o. MatchOption o (IsNoReplyLine line.now) (λ r. IsReplyLine line.now r.token r.answer r.size)) }
{
    let Some(leaves) = line_leaves(alloc, line)? else {
        return Ok(None);
    };
    let Some((first, second)) = two_texts(leaves.as_slice()) else {
        return Ok(None);
    };
    let Some(token) = units_of(alloc, first)? else {
        return Ok(None);
    };
    let Some(answer) = units_of(alloc, second)? else {
        return Ok(None);
    };
    let size = second.len();
    Ok(Some(Reply {
        token,
        answer,
        size,
    }))
}
