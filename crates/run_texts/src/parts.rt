//! Numbers and paths.
ghost use Rattle.std.specs.Prelude.{◌≡◌, ◌∷◌, ◌++◌, decimal, IfOk};
ghost use Rattle.std.specs.List.{flat_map};
ghost use Rattle.run_texts.specs.Texts.{path_text};

use itoa::Buffer;
use turk_base::{NoMemory, Path, Units};

/// Adds a number in decimal.
pub fn push_number(text: &mut Units, number: u64) -> Result<(), NoMemory>
    ensures { IfOk result (λ _. text.new ≡ text.old ++ decimal number) }
{
    let mut buffer = Buffer::new();
    text.push_bytes(buffer.format(number).as_bytes())
}

/// Adds a path: its indexes in decimal joined by `.`, or `-` where it is empty.
pub fn push_path(text: &mut Units, path: &Path) -> Result<(), NoMemory>
    ensures { IfOk result (λ _. text.new ≡ text.old ++ path_text path.now) }
{
    match path.as_slice() {
        [] => text.push_bytes(b"-"),
        [first, rest @ ..] => {
            push_number(text, *first as u64)?;
            push_pointed(text, rest)
        }
    }
}

// indexes, each with a point before it
fn push_pointed(text: &mut Units, indexes: &[u32]) -> Result<(), NoMemory>
    ensures { IfOk result (λ _. text.new ≡ text.old ++ flat_map (λ index. 46 ∷ decimal index) indexes.now) }
{
    for index in indexes {
        text.push(46)?;
        push_number(text, *index as u64)?;
    }
    Ok(())
}
