//! The threads of a run.

ghost use Rattle.std.specs.Prelude.{◌≡◌, IfOk, IfErr, vec_capacity};
ghost use Rattle.thread_work.specs.Promises.{promised};

use crate::rounds::work;
use crate::site::Site;
use hda_run::Gate;
use message_ledger::Tokens;
use owners::Spread;
use std::snapshot::Snapshot;
use std::sync::Wait;
use std::thread;
use std::thread::{Promise, PromisedHandle, Scope, Threads};
use thread_parts::Sealed;
use world_model::HaltCause;

/// What is promised of a thread: it gives the part back that it was given, with the same
/// `SealedModel`.
#[derive(Drop)]
pub struct Given<'a, S: Spread, C: Tokens>(Snapshot<Sealed<'a, S, C>>);

impl<'a, S: Spread, C: Tokens> Promise<Sealed<'a, S, C>> for Given<'a, S, C> {
    ghost kept_by = { λ given back. back ≡ given.0.value };
}

/// Works with each part in a thread of its own until the book has stopped, and gives the parts back
/// in their order, with the `SealedModel`s that they had. Where a thread can't be started the book is halted
/// for that, and the part comes back as it was.
pub fn run_all<
    'a,
    S: Spread + Sync + 'a,
    C: Tokens + Send + Sync,
    R: Threads + Wait + Sync,
    G: Gate + Sync,
>(site: &Site<'_, R, G, C>, parts: Vec<Sealed<'a, S, C>>) -> Vec<Sealed<'a, S, C>>
    ensures { result.items ≡ parts.entry.items }
{
    thread::scope(
        thread::scope_env(),
        site.rt,
        |scope| -> Vec<Sealed<S, C>>
            ensures { result.items ≡ parts.entry.items }
        { run_parts(scope, site, parts) },
    )
}

// Starts a thread for each part, the last first, then joins them, the first first, and puts the
// parts that came back in their places.
fn run_parts<
    's,
    'a: 's,
    E,
    S: Spread + Sync + 'a,
    C: Tokens + Send + Sync + 's,
    R: Threads + Wait + Sync + 's,
    G: Gate + Sync + 's,
>(
    scope: &'s Scope<'s, E>,
    site: &'s Site<'s, R, G, C>,
    parts: Vec<Sealed<'a, S, C>>,
) -> Vec<Sealed<'a, S, C>>
    ensures all { result.items ≡ parts.entry.items }
    ensures room { vec_capacity result ≡ vec_capacity parts.entry }
{
    let mut parts = parts;
    let Some(part) = parts.pop() else {
        return parts;
    };
    let started = start_one(scope, site, part);
    let mut parts = run_parts(scope, site, parts);
    parts.push_reserved(take_back(site.rt, started));
    parts
}

// Starts a thread for one part. Where it can't be started the book is halted, and the part comes
// back: nothing is done with it where the book has stopped.
fn start_one<
    's,
    'a: 's,
    E,
    S: Spread + Sync + 'a,
    C: Tokens + Send + Sync + 's,
    R: Wait + Sync + 's,
    G: Gate + Sync + 's,
>(
    scope: &'s Scope<'s, E>,
    site: &'s Site<'s, R, G, C>,
    part: Sealed<'a, S, C>,
) -> Result<PromisedHandle<Sealed<'a, S, C>, Given<'a, S, C>>, Sealed<'a, S, C>>
    ensures started { IfOk result (λ handle. promised handle ≡ part.entry) }
    ensures back { IfErr result (λ back. back ≡ part.entry) }
{
    let given = Given(Snapshot::of(&part));
    let job = move || -> Sealed<S, C>
        ensures { result ≡ part.entry }
    { work(site, part) };
    match scope.spawn_with(given, job) {
        Ok(handle) => Ok(handle),
        Err(refused) => {
            let _ = site.book.lock(site.rt).halt(HaltCause::Start);
            site.signs.mark_stopped();
            Err((refused.value)())
        }
    }
}

// The part that a thread gives back, or that came back because there was none.
fn take_back<'a, S: Spread, C: Tokens, R: Threads>(
    rt: &R,
    started: Result<PromisedHandle<Sealed<'a, S, C>, Given<'a, S, C>>, Sealed<'a, S, C>>,
) -> Sealed<'a, S, C>
    ensures joined { IfOk started.entry (λ handle. result ≡ promised handle) }
    ensures back { IfErr started.entry (λ back. result ≡ back) }
{
    match started {
        Ok(handle) => handle.join(rt),
        Err(part) => part,
    }
}
