//! Copies of what is told where a call of the asker was refused.
ghost use Rattle.std.specs.Prelude.{◌≡◌, IfOk, IfErr};
ghost use Rattle.machine_host.specs.Chain.{IsDivergence};

use ask_model::{AskStop, Called, Divergence, Kept};
use std::alloc::Global;
use turk_base::NoMemory;

fn copy_kept(alloc: Global, kept: &Kept) -> Result<Kept, NoMemory>
    ensures { IfOk result (λ copy. copy ≡ kept.now) }
{
    match kept {
        Kept::Post(text) => Ok(Kept::Post(text.copy(alloc)?)),
        Kept::Reply(token) => Ok(Kept::Reply(token.copy(alloc)?)),
        Kept::Draw(bound) => Ok(Kept::Draw(*bound)),
        Kept::Once => Ok(Kept::Once),
        Kept::Below => Ok(Kept::Below),
        Kept::Held(text) => Ok(Kept::Held(text.copy(alloc)?)),
    }
}

fn copy_called(alloc: Global, called: &Called) -> Result<Called, NoMemory>
    ensures { IfOk result (λ copy. copy ≡ called.now) }
{
    match called {
        Called::Post(text) => Ok(Called::Post(text.copy(alloc)?)),
        Called::Reply(token) => Ok(Called::Reply(token.copy(alloc)?)),
        Called::Random(bound) => Ok(Called::Random(*bound)),
        Called::Once => Ok(Called::Once),
        Called::Fork => Ok(Called::Fork),
    }
}

fn copy_divergence(alloc: Global, divergence: &Divergence) -> Result<Divergence, NoMemory>
    ensures { IfOk result (λ copy. copy ≡ divergence.now) }
{
    let path = divergence.path.copy(alloc)?;
    let kept = copy_kept(alloc, &divergence.kept)?;
    let called = copy_called(alloc, &divergence.called)?;
    Ok(Divergence { path, kept, called })
}

/// An equal refusal. Only the copy of a divergence takes memory.
pub fn copy_stop(alloc: Global, stop: &AskStop) -> Result<AskStop, NoMemory>
    ensures copy { IfOk result (λ copy. copy ≡ stop.now) }
    ensures lost { IfErr result (λ lost. IsDivergence stop.now) }
{
    match stop {
        AskStop::Fault(which) => Ok(AskStop::Fault(*which)),
        AskStop::Diverged(divergence) => Ok(AskStop::Diverged(copy_divergence(alloc, divergence)?)),
        AskStop::TraceFull => Ok(AskStop::TraceFull),
        AskStop::LogFull => Ok(AskStop::LogFull),
        AskStop::Memory => Ok(AskStop::Memory),
    }
}
