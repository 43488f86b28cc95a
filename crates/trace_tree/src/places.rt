//! Spots among a trace's entries.

ghost use Rattle.std.specs.Prelude.{◌≡◌, ◌↔◌, ◌++◌, [], ◌∷◌, IfSome, IsNone};
ghost use Rattle.trace_tree.specs.Traces.{StandsNone};
ghost use Rattle.trace_tree.specs.Spots.{IsSpot, path_of, StandsAt};

use crate::goes_on;
use crate::spot::Spot;
use turk_base::Entry;

// The path of a Spot.
pub(crate) fn front_of(entries: &[Entry], spot: Spot) -> &[u32]
    requires { IsSpot entries.now spot }
    ensures { result.now ≡ path_of entries.now spot }
{
    match entries.get(spot.number) {
        Some(entry) => &entry.path.as_slice()[..spot.depth],
        None => &[],
    }
}

// The Spot of the first entry whose path begins with the Spot's and has the index next.
pub(crate) fn child_of(entries: &[Entry], spot: Spot, index: u32) -> Option<Spot>
    requires { IsSpot entries.now spot }
    ensures spot { IfSome result (λ s. StandsAt entries.now s (path_of entries.now spot ++ index ∷ [])) }
    ensures none { IsNone result ↔ StandsNone entries.now (path_of entries.now spot ++ index ∷ []) }
{
    let front = front_of(entries, spot);
    for (number, entry) in entries.iter().enumerate() {
        if goes_on(entry.path.as_slice(), front, index) {
            return Some(Spot {
                number,
                depth: front.len() + 1,
            });
        }
    }
    None
}
