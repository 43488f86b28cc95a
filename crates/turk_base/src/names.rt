//! The calls of Name.
ghost use Rattle.std.specs.Prelude.{◌≡◌, ◌↔◌, IfOk, OnOk, IfErr, IsTrue};
ghost use Rattle.turk_base.specs.SessionName.{IsName, is_name_byte, HasCause};

use crate::{Name, NameStop, NoMemory};
use std::alloc::Global;

impl Name {
    /// The bytes of the name.
    pub fn as_slice(&self) -> &[u8]
        ensures bytes { result.now ≡ self.now }
        ensures name { IsName self.now }
    {
        self.items.as_slice()
    }

    /// An equal name.
    pub fn copy(&self, alloc: Global) -> Result<Name, NoMemory>
        ensures { IfOk result (λ copy. copy ≡ self.now) }
    {
        match Vec::from_slice(alloc, self.items.as_slice()) {
            Ok(items) => Ok(Name { items }),
            Err(_) => Err(NoMemory),
        }
    }

    /// The name that the text spells, Bad exactly where it isn't a session name.
    pub fn read(alloc: Global, text: &str) -> Result<Name, NameStop>
        ensures ok { IfOk result (λ name. name ≡ text.now) }
        ensures is_name { OnOk result (IsName text.now) }
        ensures cause { IfErr result (λ stop. HasCause stop text.now) }
    {
        let bytes = text.as_bytes();
        if !is_session_name(bytes) {
            return Err(NameStop::Bad);
        }
        match Vec::from_slice(alloc, bytes) {
            Ok(items) => Ok(Name { items }),
            Err(_) => Err(NameStop::Memory),
        }
    }
}

fn is_session_name(bytes: &[u8]) -> bool
    ensures { IsTrue result ↔ IsName bytes.now }
{
    !bytes.is_empty() && bytes.len() <= 32 && bytes.iter().all(|b| is_name_letter(*b))
}

fn is_name_letter(byte: u8) -> bool
    ensures { result ≡ is_name_byte byte }
{
    matches!(byte, b'0'..=b'9' | b'A'..=b'Z' | b'a'..=b'z' | b'-' | b'_')
}
