//! What a command is answered with.

ghost use Rattle.std.specs.Prelude.{◌≡◌};
ghost use Rattle.turkit_top.specs.Answers.{nothing, noted, note_of};

use crate::status::Status;
use std::alloc::Global;
use turk_base::Bytes;

/// How words that are no command are answered.
const USAGE: &[u8] =
    b"usage: turkit plain SCRIPT [REPLIES] [OPTIONS]\n       turkit run SCRIPT REPLIES JOURNAL TASKS [OPTIONS]\n       turkit play SCRIPT EVENTS [OPTIONS]\n       turkit show SCRIPT REPLIES JOURNAL\n       turkit make N\noptions: --fuel N  --name X  --dice N\n";

/// What is to be answered: the status, the output that goes with it, and the note, where it is the answer's own.
#[derive(Drop)]
pub struct Answer {
    pub status: Status,
    pub output: Bytes,
    /// The lines of a run, or on a script or a line that is none; empty where the status tells the note.
    pub note: Bytes,
}

/// A status without output and without a note of its own.
pub fn nothing(alloc: Global, status: Status) -> Answer
    ensures { result ≡ nothing status }
{
    Answer {
        status,
        output: Bytes::new(alloc),
        note: Bytes::new(alloc),
    }
}

/// A status without output and with a note of its own.
pub fn noted(alloc: Global, status: Status, note: Bytes) -> Answer
    ensures { result ≡ noted status note }
{
    Answer {
        status,
        output: Bytes::new(alloc),
        note,
    }
}

/// The note of an answer.
pub fn note_of(answer: &Answer) -> &[u8]
    ensures { result.now ≡ note_of answer.now }
{
    match answer.status {
        Status::Usage => USAGE,
        Status::ReadFault => b"read fault\n",
        Status::Memory => b"no memory\n",
        Status::NotBuilt => b"not built\n",
        _ => answer.note.as_slice(),
    }
}
