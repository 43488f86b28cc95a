//! A sink over a standard stream. It is trusted edge: what a stream takes, no contract says.

ghost use Rattle.std.specs.Prelude.{◌≡◌, ◌+◌, ◌<◌, ◌≤◌, ℕ, None, IfSome, IfNone, length};

use crate::sink::Sink;
use crate::source::Failed;
use std::io::{ErrorKind, Write};

/// How often a call that was interrupted is tried.
const TRIES: u32 = 1000;

#[derive(Drop)]
enum Stream<A, B> {
    Out(A),
    Notes(B),
}

/// Standard output or standard error: one type over either, so that both go to one call. It tells
/// no bytes. A stream that takes nothing of a piece that isn't empty has failed.
#[derive(Drop)]
pub struct StdSink<A, B> {
    to: Stream<A, B>,
    faults: u64,
}

fn put<W: Write>(to: &mut W, from: &[u8]) -> Option<usize>
    ensures bound { IfSome result (λ n. n ≤ length from.now) }
    ensures some { IfSome result (λ n. 0 < length from.now → 0 < n) }
    ensures empty { IfNone result (0 < length from.now) }
{
    if from.is_empty() {
        return Some(0);
    }
    for _ in 0..TRIES {
        match to.write(from) {
            Ok(0) => return None,
            Ok(n) => return Some(n),
            Err(error) => {
                if error.kind() != ErrorKind::Interrupted {
                    return None;
                }
            }
        }
    }
    None
}

impl<A: Write, B: Write> StdSink<A, B> {
    /// A sink over the standard output.
    pub fn out(to: A) -> StdSink<A, B>
        ensures { result.faults ≡ 0 }
    {
        StdSink {
            to: Stream::Out(to),
            faults: 0,
        }
    }

    /// A sink over the standard error.
    pub fn notes(to: B) -> StdSink<A, B>
        ensures { result.faults ≡ 0 }
    {
        StdSink {
            to: Stream::Notes(to),
            faults: 0,
        }
    }
}

impl<A: Write, B: Write> Sink for StdSink<A, B> {
    ghost written = { λ s. None };

    ghost faults = { λ s. s.faults };

    fn write(&mut self, from: &[u8]) -> Result<usize, Failed> {
        let done = match &mut self.to {
            Stream::Out(to) => put(to, from),
            Stream::Notes(to) => put(to, from),
        };
        match done {
            Some(n) => Ok(n),
            None => {
                self.faults = self.faults.saturating_add(1);
                Err(Failed)
            }
        }
    }
}
