//! Why a post isn't answered.
ghost use Rattle.std.specs.Prelude.{◌≡◌, ◌↔◌, IsTrue};
ghost use Rattle.ledger_board.specs.Stops.{stop_of};

use crate::LedgerCause;
use gate_log::LogStop;

/// A failure with its cause, or want of memory.
#[derive(Clone, Copy, Drop)]
pub enum LedgerStop {
    Cause(LedgerCause),
    Memory,
}

// What a log's refusal is to a board.
pub fn stop_of(stop: LogStop) -> LedgerStop
    ensures { result ≡ stop_of stop }
{
    match stop {
        LogStop::Fault => LedgerStop::Cause(LedgerCause::Disk),
        LogStop::Broken(place) => LedgerStop::Cause(LedgerCause::Broken(place)),
        LogStop::Full => LedgerStop::Cause(LedgerCause::Full),
        LogStop::Closed => LedgerStop::Cause(LedgerCause::Closed),
        LogStop::Memory => LedgerStop::Memory,
    }
}

// That the disk failed.
pub fn is_fault(stop: &LedgerStop) -> bool
    ensures { IsTrue result ↔ (stop.now ≡ LedgerStop.Cause LedgerCause.Disk) }
{
    match stop {
        LedgerStop::Cause(LedgerCause::Disk) => true,
        LedgerStop::Cause(LedgerCause::Broken(_)) => false,
        LedgerStop::Cause(LedgerCause::BadTask(_)) => false,
        LedgerStop::Cause(LedgerCause::Full) => false,
        LedgerStop::Cause(LedgerCause::Closed) => false,
        LedgerStop::Memory => false,
    }
}
