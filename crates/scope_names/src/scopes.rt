//! The frames round a place.
ghost use Rattle.std.specs.Prelude.{◌≡◌, ◌<◌, ◌^◌, [], ◌∷◌, IfOk, length};
ghost use Rattle.js_tree.specs.Binds.{BindsTo, Frames, FrameNames, is_built_in};
ghost use Rattle.turk_base.specs.Conversions.{same_units};
ghost use Rattle.scope_names.specs.Shown.{shown};

use crate::NoRoom;
use crate::names::Names;
use js_tree::Binding;
use std::alloc::Global;
use std::marker::Model;
use turk_base::Units;

/// One frame.
#[derive(Drop)]
pub struct Scope {
    names: Names,
    own: bool,
}

/// The frames round a place. Contracts see them with the innermost first.
#[derive(Drop)]
pub struct Scopes {
    frames: Vec<Scope>,
}

impl Model for Scopes {
    ghost use Rattle.std.specs.Prelude.{List, ◌<◌, ◌^◌, length};
    ghost use Rattle.js_tree.specs.Binds.{FrameNames};
    ghost use Rattle.scope_names.specs.Shown.{shown};

    ghost Value = { List FrameNames };

    ghost view = { λ s. shown s.frames.items };

    ghost invariant = { λ s. length s.frames.items < 2 ^ 32 };
}

impl Scopes {
    /// No frames.
    pub fn new(alloc: Global) -> Scopes
        ensures { result ≡ [] }
    {
        Scopes {
            frames: Vec::new(alloc),
        }
    }

    /// Puts a frame within the others. It is refused for want of memory.
    pub fn enter(mut self, names: Names, own: bool) -> Result<Scopes, NoRoom>
        ensures { IfOk result (λ made. made ≡ record { names = names; own = own } ∷ self) }
    {
        if self.frames.len() >= u32::MAX as usize {
            return Err(NoRoom);
        }
        self.frames.push(Scope { names, own })?;
        Ok(self)
    }

    /// Takes the innermost frame away.
    pub fn leave(mut self) -> Scopes
        ensures { (frame : FrameNames) (outer : Frames) → self ≡ frame ∷ outer → result ≡ outer }
    {
        self.frames.pop();
        self
    }

    /// Where a name is declared, and whether that frame holds the own name of a function expression.
    pub fn find(&self, name: &Units) -> (Binding, bool)
        ensures { BindsTo self.now name.now result.1 result.0 }
    {
        nearest(self.frames.as_slice(), name)
    }
}

fn nearest(frames: &[Scope], name: &Units) -> (Binding, bool)
    requires { length frames.now < 2 ^ 32 }
    ensures { BindsTo (shown frames.now) name.now result.1 result.0 }
{
    let count = frames.len();
    for out in 0..count {
        let frame = &frames[count - 1 - out];
        if frame.names.has(name) {
            return (Binding::Out(out as u32), frame.own);
        }
    }
    if is_built_in(name) {
        (Binding::BuiltIn, false)
    } else {
        (Binding::Nothing, false)
    }
}

/// Whether a name is there without a declaration (ECMA-262, 3rd edition, 15.1 and 15.11.6).
fn is_built_in(name: &Units) -> bool
    ensures { result ≡ is_built_in name.now }
{
    is_word(b"undefined", name)
        || is_word(b"Error", name)
        || is_word(b"TypeError", name)
        || is_word(b"ReferenceError", name)
        || is_word(b"String", name)
}

fn is_word(word: &[u8], name: &Units) -> bool
    ensures { result ≡ same_units word.now name.now }
{
    let units = name.as_slice();
    if units.len() != word.len() {
        return false;
    }
    for at in 0..word.len() {
        if word[at] as u16 != units[at] {
            return false;
        }
    }
    true
}
