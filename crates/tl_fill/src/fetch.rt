//! Containers that are to be fetched, one after the other.
ghost use Rattle.std.specs.Prelude.{◌≤◌, map, IfOk, IfErr};
ghost use Rattle.tl_model.specs.Devices.{SameShelf};
ghost use Rattle.tl_fetch.specs.Sinks.{IsOpen};
ghost use Rattle.tl_fill.specs.Halts.{HaltsAt, HaltsAmong};
ghost use Rattle.tl_fill.specs.Wanted.{wanted_of, wanted_paths, AreAwaited, HasFilled, HaveFilled};

use crate::halt::{Halt, halt_of};
use std::alloc::Global;
use tl_db::Repo;
use tl_fetch::{ContainerPart, FileSink, fetch_into};
use tl_host::Shelf;
use tl_object::Object;

/// A container that is to be fetched: that of a part of a package of a repository.
#[derive(Clone, Copy)]
pub struct Fetch<'a> {
    /// The repository.
    pub repo: &'a Repo,
    /// The package as the repository has it.
    pub entry: &'a Object,
    /// Which of its containers.
    pub part: ContainerPart,
}

// Fetches a container into a sink, or says why the command halts there.
fn fetch_one<S: Shelf, K: FileSink>(
    alloc: Global,
    shelf: &mut S,
    fetch: &Fetch<'_>,
    sink: &mut K,
) -> Result<(), Halt>
    requires { IsOpen (wanted_paths (wanted_of fetch.now)) (K.seen sink.old) }
    ensures filled { IfOk result (λ _. HasFilled S.tells K.tells (S.seen shelf.old).repositories (wanted_of fetch.now)
        (K.seen sink.old) (K.seen sink.new)) }
    ensures halted { IfErr result (HaltsAt S.tells (wanted_of fetch.now)
        (S.seen shelf.old) (S.seen shelf.new) (K.seen sink.old) (K.seen sink.new)) }
    ensures same { SameShelf (S.seen shelf.old) (S.seen shelf.new) }
    ensures later { (S.seen shelf.old).faults ≤ (S.seen shelf.new).faults }
    ensures sink_later { (K.seen sink.old).faults ≤ (K.seen sink.new).faults }
    ensures since { (first : K) → K.since first sink.old → K.since first sink.new }
{
    match fetch_into(alloc, shelf, fetch.repo, fetch.entry, fetch.part, sink) {
        Ok(()) => Ok(()),
        Err(error) => Err(halt_of(alloc, fetch, error)),
    }
}

/// Fetches containers into a sink, one after the other, up to the first that can't be fetched.
pub(crate) fn fetch_all<S: Shelf, K: FileSink>(
    alloc: Global,
    shelf: &mut S,
    fetches: &[Fetch<'_>],
    sink: &mut K,
) -> Result<(), Halt>
    requires { AreAwaited (map wanted_of fetches.now) (K.seen sink.old) }
    ensures filled { IfOk result (λ _. HaveFilled S.tells K.tells (S.seen shelf.old).repositories (map wanted_of fetches.now)
        (K.seen sink.old) (K.seen sink.new)) }
    ensures halted { IfErr result (HaltsAmong S.tells (map wanted_of fetches.now)
        (S.seen shelf.old) (S.seen shelf.new) (K.seen sink.old) (K.seen sink.new)) }
    ensures same { SameShelf (S.seen shelf.old) (S.seen shelf.new) }
    ensures later { (S.seen shelf.old).faults ≤ (S.seen shelf.new).faults }
    ensures sink_later { (K.seen sink.old).faults ≤ (K.seen sink.new).faults }
    ensures since { (first : K) → K.since first sink.old → K.since first sink.new }
{
    for fetch in fetches {
        fetch_one(alloc, shelf, fetch, sink)?;
    }
    Ok(())
}
