//! The members of a line of JSON.

ghost use Rattle.std.specs.Prelude.{◌≡◌, map, MatchOption, IfOk};
ghost use Rattle.serde_json.specs.View.{view};
ghost use Rattle.reply_text.specs.Leaves.{IsLine, leaf_data};
ghost use Rattle.reply_text.specs.LeafData.{leaf_of, leaves_of, IsNoLeaf, AreNoLeaves, IsNoLine};

use crate::leaf::Leaf;
use serde_json::{Category, Value};
use std::alloc::Global;
use turk_base::NoMemory;

fn leaf_at(alloc: Global, value: &Value) -> Result<Option<Leaf>, NoMemory>
    ensures { IfOk result (λ o. MatchOption o (IsNoLeaf (view value.now)) (λ l. view value.now ≡ leaf_data (leaf_of l))) }
{
    if let Some(text) = value.as_str() {
        return match String::from_str(alloc, text) {
            Ok(text) => Ok(Some(Leaf::Text(text))),
            Err(_) => Err(NoMemory),
        };
    }
    match value.as_u64() {
        Some(n) => Ok(Some(Leaf::Whole(n))),
        None => Ok(None),
    }
}

fn leaves_at(alloc: Global, values: &[Value]) -> Result<Option<Vec<Leaf>>, NoMemory>
    ensures { IfOk result (λ o. MatchOption o (AreNoLeaves (map view values.now)) (λ v. map view values.now ≡ map leaf_data (leaves_of v.items))) }
{
    let mut found = Vec::new(alloc);
    for value in values {
        let Some(leaf) = leaf_at(alloc, value)? else {
            return Ok(None);
        };
        if found.push(leaf).is_err() {
            return Err(NoMemory);
        }
    }
    Ok(Some(found))
}

/// The texts and whole numbers of a line that is an array of these alone.
pub fn line_leaves(alloc: Global, line: &[u8]) -> Result<Option<Vec<Leaf>>, NoMemory>
    ensures { IfOk result (λ o. MatchOption o (IsNoLine line.now) (λ v. IsLine line.now (leaves_of v.items))) }
{
    let value = match Value::from_slice(alloc, line) {
        Ok(value) => value,
        Err(error) => {
            return match error.classify() {
                Category::Memory => Err(NoMemory),
                _ => Ok(None),
            };
        }
    };
    let Some(items) = value.as_array() else {
        return Ok(None);
    };
    leaves_at(alloc, items.as_slice())
}
