//! Tokens: the session name and a path, in text.
ghost use Rattle.std.specs.Prelude.{◌≡◌, ◌∷◌, [], ◌++◌, decimal, IfOk};
ghost use Rattle.std.specs.List.{flat_map};
ghost use Rattle.turk_base.specs.Trace.{dotted, token_of};

use crate::{Name, NoMemory, Path, Units};
use std::alloc::Global;

/// The token of a path: the session name, `/`, and the indexes in decimal joined by `.`.
pub fn token(alloc: Global, name: &Name, path: &Path) -> Result<Units, NoMemory>
    ensures { IfOk result (λ token. token ≡ token_of name.now path.now) }
{
    let mut units = Units::new(alloc);
    units.push_bytes(name.as_slice())?;
    units.push(47)?;
    push_dotted(alloc, &mut units, path.as_slice())?;
    Ok(units)
}

fn push_dotted(alloc: Global, units: &mut Units, path: &[u32]) -> Result<(), NoMemory>
    ensures { IfOk result (λ _. units.new ≡ units.old ++ dotted path.now) }
{
    match path {
        [] => Ok(()),
        [first, rest @ ..] => {
            push_decimal(alloc, units, *first)?;
            push_pointed(alloc, units, rest)
        }
    }
}

fn push_pointed(alloc: Global, units: &mut Units, path: &[u32]) -> Result<(), NoMemory>
    ensures { IfOk result (λ _. units.new ≡ units.old ++ flat_map (λ index. 46 ∷ decimal index) path.now) }
{
    for index in path {
        units.push(46)?;
        push_decimal(alloc, units, *index)?;
    }
    Ok(())
}

fn push_decimal(alloc: Global, units: &mut Units, number: u32) -> Result<(), NoMemory>
    ensures { IfOk result (λ _. units.new ≡ units.old ++ decimal number) }
{
    match number.to_string(alloc) {
        Ok(text) => units.push_bytes(text.as_bytes()),
        Err(_) => Err(NoMemory),
    }
}
