//! The answers of a log in the words of a journal.

ghost use Rattle.std.specs.Prelude.{◌≡◌};
ghost use Rattle.trace_journal.specs.TraceJournal.{stop_of};

use crate::JournalStop;
use gate_log::LogStop;

pub(crate) fn stop_of(stop: LogStop) -> JournalStop
    ensures { result ≡ stop_of stop }
{
    match stop {
        LogStop::Fault => JournalStop::Fault,
        LogStop::Broken(place) => JournalStop::Broken(place),
        LogStop::Full => JournalStop::LogFull,
        LogStop::Closed => JournalStop::Closed,
        LogStop::Memory => JournalStop::Memory,
    }
}
