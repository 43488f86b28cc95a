//! Whether a data is within the limits of a record.
ghost use Rattle.std.specs.Prelude.{◌≡◌, ◌≤◌, true};
ghost use Rattle.turk_base.specs.declared.Record.TheVariants.{Once};
ghost use Rattle.turk_base.specs.Data.{nesting, nesting_items, nesting_fields, items_of, fields_of};
ghost use Rattle.turk_base.specs.Node.{data_of};
ghost use Rattle.record_bytes.specs.Limits.{IsRecordWithin, IsDataWithin, AreItemsWithin, AreFieldsWithin};

use turk_base::{Data, Node, Units};

/// How deep the data of a record is nested at most.
const DEEPEST: u32 = 64;

/// The most items of a list.
const MOST_ITEMS: usize = 1_000_000;

/// The most fields.
const MOST_FIELDS: usize = 4_294_967_295;

/// The most units of a text, and of a key.
const MOST_UNITS: usize = 1_048_576;

/// Tests a data against the limits of a record: true exactly where it is nested at most 64 deep, with texts and keys of at
/// most 1,048,576 units, lists of at most 1,000,000 items and fewer than 2^32 fields at each level.
pub fn fits(gift: &Data) -> bool
    ensures within { result ≡ true → IsRecordWithin (Once gift.now) }
    ensures all { IsRecordWithin (Once gift.now) → result ≡ true }
{
    node_fits(gift.node(), DEEPEST)
}

// A node, where `left` levels may still be opened.
#[cycle(fitting)]
#[tactic(auto, unfolding(record_bytes::specs::Limits::IsDataWithin, turk_base::specs::Data::nesting))]
fn node_fits(node: &Node, left: u32) -> bool
    ensures within { result ≡ true → IsDataWithin (data_of node.now) }
    ensures deep { result ≡ true → nesting (data_of node.now) ≤ left }
    ensures all { IsDataWithin (data_of node.now) → nesting (data_of node.now) ≤ left → result ≡ true }
{
    match node {
        Node::Undefined => true,
        Node::Null => true,
        Node::Truth(_) => true,
        Node::Number(_) => true,
        Node::Text(text) => text.len() <= MOST_UNITS,
        Node::List(items) => {
            if left == 0 {
                return false;
            }
            if items.len() > MOST_ITEMS {
                return false;
            }
            items_fit(items, left - 1)
        }
        Node::Fields(fields) => {
            if left == 0 {
                return false;
            }
            if fields.len() > MOST_FIELDS {
                return false;
            }
            fields_fit(fields, left - 1)
        }
    }
}

#[cycle(fitting)]
fn items_fit(items: &[Data], left: u32) -> bool
    ensures within { result ≡ true → AreItemsWithin (items_of items.now) }
    ensures deep { result ≡ true → nesting_items (items_of items.now) ≤ left }
    ensures all { AreItemsWithin (items_of items.now) → nesting_items (items_of items.now) ≤ left → result ≡ true }
{
    for item in items {
        if !node_fits(item.node(), left) {
            return false;
        }
    }
    true
}

#[cycle(fitting)]
fn fields_fit(fields: &[(Units, Data)], left: u32) -> bool
    ensures within { result ≡ true → AreFieldsWithin (fields_of fields.now) }
    ensures deep { result ≡ true → nesting_fields (fields_of fields.now) ≤ left }
    ensures all { AreFieldsWithin (fields_of fields.now) → nesting_fields (fields_of fields.now) ≤ left → result ≡ true }
{
    for field in fields {
        if field.0.len() > MOST_UNITS {
            return false;
        }
        if !node_fits(field.1.node(), left) {
            return false;
        }
    }
    true
}
