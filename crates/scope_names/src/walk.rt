//! What the walk over a script carries along.
ghost use Rattle.std.specs.Prelude.{◌≡◌, ◌+◌, min, IfOk, [], ◌∷◌};
ghost use Rattle.scope_names.specs.Walks.{Enters, LeavesFrame, Numbers};

use crate::NoRoom;
use crate::names::Names;
use crate::scopes::Scopes;
use std::alloc::Global;
use turk_base::Units;

/// The frames round the place, the number of the next function, and the declared names so far.
#[derive(Drop)]
pub struct Walk {
    pub alloc: Global,
    pub scopes: Scopes,
    pub next: u32,
    pub names: u32,
}

impl Walk {
    /// Goes into a frame with these names.
    pub fn enter(self, names: Names, own: bool) -> Result<Walk, NoRoom>
        ensures { IfOk result (λ walk. Enters self (record { names = names; own = own }) walk) }
    {
        let count = names.len();
        let Walk {
            alloc,
            scopes,
            next,
            names: before,
        } = self;
        let scopes = scopes.enter(names, own)?;
        Ok(Walk {
            alloc,
            scopes,
            next,
            names: added(before, count),
        })
    }

    /// Goes into a frame with one name.
    pub fn enter_one(self, alloc: Global, name: &Units, own: bool) -> Result<Walk, NoRoom>
        ensures { IfOk result (λ walk. Enters self (record { names = name.now ∷ []; own = own }) walk) }
    {
        let names = Names::new(alloc).add(alloc, name)?;
        self.enter(names, own)
    }

    /// Takes the next number.
    pub fn number(self) -> Result<(u32, Walk), NoRoom>
        ensures { IfOk result (λ r. Numbers self r.0 r.1) }
    {
        let number = self.next;
        let next = number.checked_add(1).ok_or(NoRoom)?;
        Ok((
            number,
            Walk {
                alloc: self.alloc,
                scopes: self.scopes,
                next,
                names: self.names,
            },
        ))
    }

    /// Leaves the innermost frame.
    pub fn leave(self) -> Walk
        ensures { LeavesFrame self result }
    {
        Walk {
            alloc: self.alloc,
            scopes: self.scopes.leave(),
            next: self.next,
            names: self.names,
        }
    }
}

/// A count with more added, at most 65,536.
fn added(before: u32, more: usize) -> u32
    ensures { result ≡ min (before + more) 65536 }
{
    if more >= 65536 || before >= 65536 {
        return 65536;
    }
    (before + more as u32).min(65536)
}
