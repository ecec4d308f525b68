//! A container's bytes as they come: what is made of each piece.
ghost use Rattle.std.specs.Prelude.{Bool, List, ℕ, [], IfOk, OnOk, IfErr, ◌≡◌};
ghost use Rattle.tl_model.specs.Causes.{HasCauseOf};
ghost use Rattle.tl_entry.specs.Copies.{less_containers};
ghost use Rattle.tl_frame.specs.States.{IsFed};
ghost use Rattle.tl_fetch.specs.Containers.{part_paths};
ghost use Rattle.tl_fetch.specs.Fetching.{EndsAs, HasTakenIn, IsOfContents, IsOfSink, IsToldMore, TakesIn, TookIn};
ghost use Rattle.tl_fetch.specs.Sinks.{SinkSeen, IsOpen};
ghost use Rattle.tl_fetch.specs.declared.fetch_error.FetchError.TheVariants.{SinkFault};

use crate::container::ContainerPart;
use crate::fetch_error::FetchError;
use crate::sink::FileSink;
use crate::unpacking::Unpacking;
use sha2::{Digest, Sha512};
use std::alloc::{AllocError, Global};
use tl_frame::{FrameError, FrameEvent, FrameReader};
use tl_object::Object;
use tl_path::Path;

/// What has come of a container.
#[derive(Drop)]
pub(crate) struct Intake {
    hasher: Sha512,
    reader: FrameReader,
    unpacking: Unpacking,
}

// What a piece tells. That it is no frame shows at the end.
fn events_of(
    alloc: Global,
    reader: &mut FrameReader,
    piece: &[u8],
) -> Result<Vec<FrameEvent>, AllocError>
    ensures { IfOk result (λ events. (fed : List ℕ) → IsFed reader.old fed → IsToldMore reader.new fed piece.now events.items) }
{
    let mut events = Vec::new(alloc);
    match reader.feed(piece, &mut events) {
        Ok(()) => Ok(events),
        Err(FrameError::BadFrame { .. }) => Ok(events),
        Err(FrameError::NoMemory) => Err(AllocError),
    }
}

impl Intake {
    /// Nothing has come of the container of a part.
    pub(crate) fn new(
        alloc: Global,
        entry: &Object,
        part: ContainerPart,
    ) -> Result<Intake, AllocError>
        ensures { IfOk result (λ intake. (tells : Bool) (sink : SinkSeen) → IsOpen (part_paths entry.now part) sink
            → TookIn tells (less_containers entry.now) (part_paths entry.now part) sink sink intake []) }
    {
        let unpacking = Unpacking::new(alloc, entry, part)?;
        Ok(Intake {
            hasher: Sha512::new(),
            reader: FrameReader::new(alloc),
            unpacking,
        })
    }

    /// Takes the next piece in. That it is no frame shows at the end.
    pub(crate) fn take<K: FileSink>(
        &mut self,
        alloc: Global,
        piece: &[u8],
        sink: &mut K,
    ) -> Result<(), FetchError>
        requires { (bytes : List ℕ) × HasTakenIn K.tells self.old (K.seen sink.old) bytes }
        ensures took { OnOk result (TakesIn K.tells (K.seen sink.old) (K.seen sink.new)
            self.old self.new piece.now) }
        ensures since { (first : K) → K.since first sink.old → K.since first sink.new }
        ensures error { IfErr result IsOfSink }
        ensures cause { HasCauseOf (λ e. e ≡ SinkFault) (K.seen sink.old).faults (K.seen sink.new).faults result }
    {
        self.hasher.update(piece);
        let events = events_of(alloc, &mut self.reader, piece)?;
        self.unpacking.take_all(alloc, events, sink)
    }

    /// How a container ends whose bytes have all come: its digest is compared first, and then what it holds.
    pub(crate) fn finish(self, entry: &Object, name: Path, want: [u8; 64]) -> Result<(), FetchError>
        ensures gave { EndsAs name want entry.now self result }
        ensures error { IfErr result IsOfContents }
    {
        let Intake {
            hasher,
            reader,
            unpacking,
        } = self;
        let got = hasher.finalize();
        if got != want {
            return Err(FetchError::DigestDiffers { name, want, got });
        }
        match reader.finish() {
            Ok(()) => {}
            Err(FrameError::BadFrame { at }) => return Err(FetchError::BadFrame { at }),
            Err(FrameError::NoMemory) => return Err(FetchError::NoMemory),
        }
        if !unpacking.is_whole() {
            let name = entry.name.clone()?;
            return Err(FetchError::FrameEntry { name });
        }
        Ok(())
    }
}
