//! What stands at a path among entries, and below it.
ghost use Rattle.std.specs.Prelude.{◌≡◌, ◌++◌, ◌&&◌, not};
ghost use Rattle.std.specs.Option.{option_copied};
ghost use Rattle.turk_base.specs.Trace.{at, below, begins, same_list};
ghost use Rattle.ask_model.specs.Asker.{known_at};

use crate::Known;
use turk_base::{Entry, Path, Record};

// The record at a path.
fn record_at<'a>(entries: &'a [Entry], path: &[u32]) -> Option<&'a Record>
    ensures { option_copied result ≡ at entries.now path.now }
{
    for entry in entries {
        if entry.path.as_slice() == path {
            return Some(&entry.what);
        }
    }
    None
}

// Whether a path begins with this front and is longer.
fn is_longer(path: &Path, front: &Path) -> bool
    ensures { result ≡ (begins front.now path.now && not (same_list front.now path.now)) }
{
    front.begins(path) && front != path
}

fn is_below(entries: &[Entry], path: &Path) -> bool
    ensures { result ≡ below entries.now path.now }
{
    for entry in entries {
        if is_longer(&entry.path, path) {
            return true;
        }
    }
    false
}

/// The record at a path, among these entries and then those.
pub fn record_in<'a>(trace: &'a [Entry], made: &'a [Entry], path: &[u32]) -> Option<&'a Record>
    ensures { option_copied result ≡ at (trace.now ++ made.now) path.now }
{
    match record_at(trace, path) {
        Some(record) => Some(record),
        None => record_at(made, path),
    }
}

fn is_below_in(trace: &[Entry], made: &[Entry], path: &Path) -> bool
    ensures { result ≡ below (trace.now ++ made.now) path.now }
{
    is_below(trace, path) || is_below(made, path)
}

/// What is known at a path, where these entries and those are known.
pub fn known_in(trace: &[Entry], made: &[Entry], path: &Path) -> Known
    ensures { result ≡ known_at (trace.now ++ made.now) path.now }
{
    if record_in(trace, made, path.as_slice()).is_some() {
        return Known::Here;
    }
    if is_below_in(trace, made, path) {
        Known::Below
    } else {
        Known::Nothing
    }
}
