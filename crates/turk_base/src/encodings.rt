//! Texts from UTF-8 and back.
ghost use Rattle.std.specs.Prelude.{◌≡◌, ◌≤◌, ◌<◌, ◌^◌, ◌++◌, length, IfOk, IfErr};
ghost use Rattle.std.specs.Char.{IsScalar};
ghost use Rattle.std.specs.Char.Escape.{encode_utf16};
ghost use Rattle.turk_base.specs.Encodings.{Spells, HasTextCause, bytes_of};

use crate::{Bytes, NoMemory, TextStop, Units};
use std::alloc::Global;

const LIMIT: usize = 1_048_576;

impl Units {
    /// The text that the bytes spell in UTF-8. NotUtf8 tells the first place, in bytes, where no whole character stands; else TooLong comes exactly where there are more than 1,048,576 units.
    pub fn from_utf8(alloc: Global, bytes: &[u8]) -> Result<Units, TextStop>
        requires { length bytes.now < 2 ^ 32 }
        ensures ok { IfOk result (λ units. Spells bytes.now units) }
        ensures within { IfOk result (λ units. length units ≤ 2 ^ 20) }
        ensures cause { IfErr result (λ stop. HasTextCause stop bytes.now) }
    {
        let text = match str::from_utf8(bytes) {
            Ok(text) => text,
            Err(error) => return Err(TextStop::NotUtf8(error.valid_up_to() as u32)),
        };
        let units = match units_of(alloc, text) {
            Ok(units) => units,
            Err(NoMemory) => return Err(TextStop::Memory),
        };
        if units.len() > LIMIT {
            return Err(TextStop::TooLong);
        }
        Ok(units)
    }

    /// The text in UTF-8, with EF BF BD for each surrogate that has no partner.
    pub fn to_utf8(&self, alloc: Global) -> Result<Bytes, NoMemory>
        ensures { IfOk result (λ bytes. bytes ≡ bytes_of self.now) }
    {
        match String::from_utf16_lossy(alloc, self.as_slice()) {
            Ok(text) => Ok(Bytes::from_vec(text.into_bytes())),
            Err(_) => Err(NoMemory),
        }
    }
}

fn units_of(alloc: Global, text: &str) -> Result<Units, NoMemory>
    ensures { IfOk result (λ units. Spells text.now units) }
{
    let mut units = Units::new(alloc);
    let mut chars = text.chars();
    while let Some(c) = chars.next() {
        push_char(&mut units, c)?;
    }
    Ok(units)
}

fn push_char(units: &mut Units, c: char) -> Result<(), NoMemory>
    ensures units { IfOk result (λ _. units.new ≡ units.old ++ encode_utf16 c) }
    ensures scalar { IsScalar c }
{
    let code = c as u32;
    if code < 0x1_0000 {
        return units.push(code as u16);
    }
    units.push((0xD800 + (code - 0x1_0000) / 0x400) as u16)?;
    units.push((0xDC00 + (code - 0x1_0000) % 0x400) as u16)
}
