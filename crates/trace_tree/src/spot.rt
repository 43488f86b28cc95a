//! Places in the tree of a trace's paths.

/// A place in the tree of a trace's paths: the path of a record or the front of one, or the empty path.
/// It is good for the trace that gave it, also after pushes.
#[derive(Clone, Copy, Debug, PartialEq, Eq)]
pub struct Spot {
    pub(crate) number: usize,
    pub(crate) depth: usize,
}
