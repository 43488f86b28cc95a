//! The text that is told of a value that was thrown and never caught.
#![tactic(auto)]

ghost use Rattle.std.specs.Prelude.{◌≡◌, ◌<◌, ◌≤◌, ◌++◌, IfOk, OnOk, Option, codes};
ghost use Rattle.std.specs.Option.{option_map};
ghost use Rattle.turk_base.specs.Values.{Val};
ghost use Rattle.js_tree.specs.Report as told;
ghost use Rattle.value_cells.specs.Needs.{needs};
ghost use Rattle.value_cells.specs.Seen.{Naming, Fits, Grows, count, val_in};
ghost use Rattle.thrown_text.specs.Finds.{Finds, text_found};

use convert_rules::Prim;
use std::alloc::Global;
use turk_base::{NoMemory, Units};
use value_cells::{Heap, Value};

#[cfg(test)]
mod tests;

/// The key `name`.
fn name_key(alloc: Global) -> Result<Units, NoMemory>
    ensures { IfOk result (λ key. key ≡ codes "name") }
{
    Units::from_bytes(alloc, b"name")
}

/// The key `message`.
fn message_key(alloc: Global) -> Result<Units, NoMemory>
    ensures { IfOk result (λ key. key ≡ codes "message") }
{
    Units::from_bytes(alloc, b"message")
}

/// What was found, where it is a text.
fn text_in(found: Option<Value>) -> Option<Units>
    ensures { (nu : Naming) → result ≡ text_found (option_map (val_in nu) found) }
{
    match found {
        Some(Value::Text(text)) => Some(text),
        _ => None,
    }
}

/// The property of a cell, or of the first of its prototypes that has the key, where it is a text.
fn text_at<H: Heap>(heap: &mut H, cell: u32, key: &Units) -> Result<Option<Units>, NoMemory>
    requires { cell < count (H.seen heap.old) }
    ensures more { count (H.seen heap.old) ≤ count (H.seen heap.new) }
    ensures found { IfOk result (λ text. Finds cell key.now text (H.seen heap.old) (H.seen heap.new)) }
{
    let Ok(found) = heap.get(cell, key) else {
        return Err(NoMemory);
    };
    Ok(text_in(found))
}

/// A name and a message with a colon between them.
fn joined(name: Units, message: &Units) -> Result<Units, NoMemory>
    ensures { IfOk result (λ text. text ≡ name ++ (codes ": " ++ message.now)) }
{
    let mut text = name;
    text.push_bytes(b": ")?;
    text.append(message)?;
    Ok(text)
}

/// The name and the message where both are texts, else `object`.
fn error_text(alloc: Global, name: Option<Units>, message: Option<Units>) -> Result<Units, NoMemory>
    ensures { IfOk result (λ text. (x y : Option Val) → name ≡ text_found x → message ≡ text_found y → text ≡ told.error_text x y) }
{
    match (name, message) {
        (Some(name), Some(message)) => joined(name, &message),
        _ => Units::from_bytes(alloc, b"object"),
    }
}

/// What is told of an object: its name and its message where both are texts, else `object`.
fn object_text<H: Heap>(alloc: Global, heap: &mut H, cell: u32) -> Result<Units, NoMemory>
    requires { cell < count (H.seen heap.old) }
    ensures more { count (H.seen heap.old) ≤ count (H.seen heap.new) }
    ensures grows { OnOk result (Grows (H.seen heap.old).names (H.seen heap.new).names) }
    ensures told { IfOk result (λ text. (nu : Naming) → Fits nu (H.seen heap.new).names → text ≡ told.error_text (told.found_on ((H.seen heap.old).first nu) (nu cell) (codes "name")) (told.found_on ((H.seen heap.old).first nu) (nu cell) (codes "message"))) }
{
    let key = name_key(alloc)?;
    let name = text_at(heap, cell, &key)?;
    let key = message_key(alloc)?;
    let message = text_at(heap, cell, &key)?;
    error_text(alloc, name, message)
}

/// The text of a value that was thrown and never caught: of an object its `name`, `: ` and its
/// `message`, looked up as properties are, where both are texts, and `object` else; of any other
/// value its text.
///
/// A look-up touches slots, so the verdict of a run is read before. NoMemory comes for want of
/// memory alone.
pub fn uncaught_text<H: Heap>(alloc: Global, heap: &mut H, value: &Value) -> Result<Units, NoMemory>
    requires { needs value.now ≤ count (H.seen heap.old) }
    ensures more { count (H.seen heap.old) ≤ count (H.seen heap.new) }
    ensures grows { OnOk result (Grows (H.seen heap.old).names (H.seen heap.new).names) }
    ensures told { IfOk result (λ text. (nu : Naming) → Fits nu (H.seen heap.new).names → text ≡ told.uncaught_text (val_in nu value.now) ((H.seen heap.old).first nu)) }
{
    match value {
        Value::Undefined => convert_rules::text(alloc, &Prim::Undefined),
        Value::Null => convert_rules::text(alloc, &Prim::Null),
        Value::Truth(truth) => convert_rules::text(alloc, &Prim::Truth(*truth)),
        Value::Number(number) => convert_rules::text(alloc, &Prim::Number(*number)),
        Value::Text(text) => text.copy(alloc),
        Value::Object(cell) => object_text(alloc, heap, *cell),
    }
}
