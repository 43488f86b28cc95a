//! The calls of Replies.
ghost use Rattle.std.specs.Prelude.{◌≡◌, [], ◌∷◌, ◌++◌, length, IfOk, OnErr};
ghost use Rattle.std.specs.Option.{option_copied};
ghost use Rattle.turk_base.specs.Trace.{answer};

use crate::{NoMemory, Replies, Units};
use std::alloc::Global;

impl Replies {
    /// No replies.
    pub fn new(alloc: Global) -> Replies
        ensures { result ≡ [] }
    {
        Replies {
            items: Vec::new(alloc),
        }
    }

    /// How many replies.
    pub fn len(&self) -> usize
        ensures { result ≡ length self.now }
    {
        self.items.len()
    }

    /// The replies in order.
    pub fn as_slice(&self) -> &[(Units, Units)]
        ensures { result.now ≡ self.now }
    {
        self.items.as_slice()
    }

    /// Adds a reply at the end. After a refusal the replies are as before, and the two texts are dropped.
    pub fn add(&mut self, token: Units, text: Units) -> Result<(), NoMemory>
        ensures ok { IfOk result (λ _. self.new ≡ self.old ++ (token, text) ∷ []) }
        ensures err { OnErr result (self.new ≡ self.old) }
    {
        match self.items.push((token, text)) {
            Ok(()) => Ok(()),
            Err(_) => Err(NoMemory),
        }
    }

    /// The text of the first reply with this token, None exactly where there is none.
    pub fn find(&self, token: &Units) -> Option<&Units>
        ensures { option_copied result ≡ answer self.now token.now }
    {
        find_in(self.items.as_slice(), token)
    }
}

fn find_in<'a>(replies: &'a [(Units, Units)], token: &Units) -> Option<&'a Units>
    ensures { option_copied result ≡ answer replies.now token.now }
{
    for reply in replies {
        if reply.0 == *token {
            return Some(&reply.1);
        }
    }
    None
}
