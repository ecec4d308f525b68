//! The files of a container, handed on as they come, as far as they are what they have to be.
ghost use Rattle.std.specs.Prelude.{◌≡◌, ◌<◌, ◌&&◌, ◌∷◌, [], not, nat_le, length, drop, IsTrue, IfOk, OnOk, IfErr};
ghost use Rattle.std.specs.List.{flat_map};
ghost use Rattle.tl_model.specs.Causes.{HasCauseOf};
ghost use Rattle.tl_entry.specs.Copies.{less_containers};
ghost use Rattle.tl_entry.specs.declared.object.Object.{Object};
ghost use Rattle.tl_object.specs.Writing.{object_text};
ghost use Rattle.tl_frame.specs.Events.{event_tokens};
ghost use Rattle.tl_fetch.specs.Containers.{part_paths};
ghost use Rattle.tl_fetch.specs.Fetching.{IsOfSink};
ghost use Rattle.tl_fetch.specs.Unpacked.{IsFresh, CanTake, Unpacks, heads, reads_as};
ghost use Rattle.tl_fetch.specs.declared.fetch_error.FetchError.TheVariants.{SinkFault};

use crate::container::{ContainerPart, part_paths};
use crate::fetch_error::FetchError;
use crate::sink::FileSink;
use std::alloc::{AllocError, Global};
use tl_frame::FrameEvent;
use tl_object::{Object, ObjectError, read_object, write_object};
use tl_path::Path;

// A text of so many bytes never comes: a container is shorter.
const TOO_LONG: usize = 4_294_967_296;

/// What has to come of a container, and how far it has come.
#[derive(Drop)]
pub(crate) struct Unpacking {
    // The text of the entry that has to come.
    text: Vec<u8>,
    // The paths of the files that have to come, and how many of them came.
    paths: Vec<Path>,
    place: usize,
    is_wrong: bool,
}

impl Unpacking {
    /// Nothing has come of the container of a part.
    pub(crate) fn new(
        alloc: Global,
        entry: &Object,
        part: ContainerPart,
    ) -> Result<Unpacking, AllocError>
        ensures { IfOk result (IsFresh (less_containers entry.now) (part_paths entry.now part)) }
    {
        let less = entry.less_containers(alloc)?;
        let text = write_object(alloc, &less)?;
        let paths = part_paths(alloc, entry, part)?;
        Ok(Unpacking {
            text,
            paths,
            place: 0,
            is_wrong: false,
        })
    }

    // Whether a text reads as the entry that has to come.
    fn is_entry(&self, alloc: Global, text: &[u8]) -> Result<bool, AllocError>
        ensures { IfOk result (λ is. (entry : Object) → self.now.text.items ≡ object_text entry
            → is ≡ reads_as text.now entry) }
    {
        if text.len() >= TOO_LONG {
            return Err(AllocError);
        }
        match read_object(alloc, text) {
            Ok(read) => {
                let text = write_object(alloc, &read)?;
                Ok(text.as_slice() == self.text.as_slice())
            }
            Err(ObjectError::BadObject { .. }) => Ok(false),
            Err(ObjectError::NoMemory) => Err(AllocError),
        }
    }

    // Whether a path is the next of those that have to come.
    fn is_next(&self, path: &Path) -> bool
        ensures next { result ≡ heads path.now (drop self.now.place self.now.paths.items) }
        ensures inside { IsTrue result → self.now.place < length self.now.paths.items }
    {
        match self.paths.get(self.place) {
            Some(next) => path.bytes() == next.bytes(),
            None => false,
        }
    }

    // Begins a file, where it is the next that has to come.
    fn take_file<K: FileSink>(
        &mut self,
        path: &Path,
        len: u64,
        sink: &mut K,
    ) -> Result<(), FetchError>
        requires { CanTake K.tells self.old (K.seen sink.old) (FrameEvent.File path.now len ∷ []) }
        ensures goes { OnOk result (Unpacks K.tells (K.seen sink.old) (K.seen sink.new) self.old self.new
            (event_tokens (FrameEvent.File path.now len))) }
        ensures since { (first : K) → K.since first sink.old → K.since first sink.new }
        ensures error { IfErr result IsOfSink }
        ensures cause { HasCauseOf (λ e. e ≡ SinkFault) (K.seen sink.old).faults (K.seen sink.new).faults result }
    {
        if self.is_wrong || !self.is_next(path) {
            self.is_wrong = true;
            return Ok(());
        }
        if sink.file(path, len).is_err() {
            return Err(FetchError::SinkFault);
        }
        self.place += 1;
        Ok(())
    }

    // Brings more of the last file, unless another one had to come.
    fn take_bytes<K: FileSink>(&self, bytes: &[u8], sink: &mut K) -> Result<(), FetchError>
        requires { CanTake K.tells self.now (K.seen sink.old) (FrameEvent.Bytes bytes.now ∷ []) }
        ensures goes { OnOk result (Unpacks K.tells (K.seen sink.old) (K.seen sink.new) self.now self.now
            (event_tokens (FrameEvent.Bytes bytes.now))) }
        ensures since { (first : K) → K.since first sink.old → K.since first sink.new }
        ensures error { IfErr result IsOfSink }
        ensures cause { HasCauseOf (λ e. e ≡ SinkFault) (K.seen sink.old).faults (K.seen sink.new).faults result }
    {
        if self.is_wrong {
            return Ok(());
        }
        if sink.piece(bytes).is_err() {
            return Err(FetchError::SinkFault);
        }
        Ok(())
    }

    // Takes what a piece of a frame tells.
    fn take<K: FileSink>(
        &mut self,
        alloc: Global,
        event: FrameEvent,
        sink: &mut K,
    ) -> Result<(), FetchError>
        requires { CanTake K.tells self.old (K.seen sink.old) (event ∷ []) }
        ensures goes { OnOk result (Unpacks K.tells (K.seen sink.old) (K.seen sink.new) self.old self.new
            (event_tokens event)) }
        ensures since { (first : K) → K.since first sink.old → K.since first sink.new }
        ensures error { IfErr result IsOfSink }
        ensures cause { HasCauseOf (λ e. e ≡ SinkFault) (K.seen sink.old).faults (K.seen sink.new).faults result }
    {
        match event {
            FrameEvent::Entry(text) => {
                if !self.is_entry(alloc, text.as_slice())? {
                    self.is_wrong = true;
                }
                Ok(())
            }
            FrameEvent::File { path, len } => self.take_file(&path, len, sink),
            FrameEvent::Bytes(bytes) => self.take_bytes(bytes.as_slice(), sink),
            FrameEvent::End => Ok(()),
        }
    }

    /// Takes what pieces of a frame tell, one after the other, and hands on what is as it has to be.
    pub(crate) fn take_all<K: FileSink>(
        &mut self,
        alloc: Global,
        events: Vec<FrameEvent>,
        sink: &mut K,
    ) -> Result<(), FetchError>
        requires { CanTake K.tells self.old (K.seen sink.old) events.items }
        ensures goes { OnOk result (Unpacks K.tells (K.seen sink.old) (K.seen sink.new) self.old self.new
            (flat_map event_tokens events.items)) }
        ensures since { (first : K) → K.since first sink.old → K.since first sink.new }
        ensures error { IfErr result IsOfSink }
        ensures cause { HasCauseOf (λ e. e ≡ SinkFault) (K.seen sink.old).faults (K.seen sink.new).faults result }
    {
        for event in events {
            self.take(alloc, event, sink)?;
        }
        Ok(())
    }

    /// Whether all has come, and nothing else.
    pub(crate) fn is_whole(&self) -> bool
        ensures { result ≡ (not self.now.is_wrong
            && nat_le (length self.now.paths.items) self.now.place) }
    {
        !self.is_wrong && self.place >= self.paths.len()
    }
}
