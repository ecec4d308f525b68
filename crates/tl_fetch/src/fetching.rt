//! The fetching of a package's container, in pieces.
ghost use Rattle.std.specs.Prelude.{◌≡◌, ◌≤◌, [], length, Ok, IfOk, IfErr};
ghost use Rattle.tl_model.specs.Causes.{HasCauseOf, Rose};
ghost use Rattle.tl_model.specs.Devices.{SameShelf};
ghost use Rattle.tl_model.specs.Seen.{Told};
ghost use Rattle.tl_kind.specs.Quantities.{limit_of};
ghost use Rattle.tl_kind.specs.declared.quantity.What.TheVariants.{Frame};
ghost use Rattle.tl_fetch.specs.Containers.{container_in, part_paths};
ghost use Rattle.tl_fetch.specs.Fetching.{Fetched, HasTakenIn, IsMissing, IsNoFetch, IsOfContents, IsOfDevices, IsOtherFormat, TakesAll, stated_both, stated_of};
ghost use Rattle.tl_fetch.specs.Sinks.{IsOpen};
ghost use Rattle.tl_repo.specs.Files.{held_by};
ghost use Rattle.tl_fetch.specs.declared.fetch_error.FetchError.TheVariants.{ShelfFault, SinkFault};

use crate::container::{ContainerPart, box_of, container_format, container_name};
use crate::fetch_error::FetchError;
use crate::intake::Intake;
use crate::sink::FileSink;
use std::alloc::Global;
use tl_db::{Db, Repo};
use tl_host::Shelf;
use tl_kind::What;
use tl_object::{Container, Object};
use tl_path::{Name, Path};
use tl_text::Text;

const PIECE: usize = 65536;

// What an entry states of a container: its size and its SHA-512.
#[derive(Clone, Copy)]
struct Stated {
    size: u64,
    digest: [u8; 64],
}

// What is stated, where both size and digest are, and the size is within its limit.
fn stated_in(name: &Name, known: Container) -> Result<Stated, FetchError>
    ensures ok { IfOk result (λ stated. stated_both name.now known.size known.digest ≡ Ok stated) }
    ensures err { IfErr result (IsNoFetch (stated_both name.now known.size known.digest)) }
    ensures within { IfOk result (λ stated. stated.size ≤ limit_of Frame) }
    ensures error { IfErr result IsOfContents }
{
    let (Some(size), Some(digest)) = (known.size, known.digest) else {
        let name = name.clone()?;
        return Err(FetchError::NoContainer { name });
    };
    let what = What::Frame;
    let limit = what.limit();
    if size > limit {
        return Err(FetchError::TooLarge { what, limit });
    }
    Ok(Stated { size, digest })
}

// The error that a repository's containers have this format.
fn other_format(alloc: Global, format: &[u8]) -> FetchError
    ensures { IsOtherFormat format.now result }
{
    match Text::parse(alloc, format) {
        Ok(format) => FetchError::ContainerFormat { format },
        Err(_) => FetchError::NoMemory,
    }
}

// What an entry states of the container of a part, where it can be fetched.
fn what_is_stated(
    alloc: Global,
    db: &Db,
    entry: &Object,
    part: ContainerPart,
) -> Result<Stated, FetchError>
    ensures ok { IfOk result (λ stated. stated_of db.now entry.now part ≡ Ok stated) }
    ensures err { IfErr result (IsNoFetch (stated_of db.now entry.now part)) }
    ensures within { IfOk result (λ stated. stated.size ≤ limit_of Frame) }
    ensures error { IfErr result IsOfContents }
{
    let format = container_format(alloc, db)?;
    if format != b"frame".as_slice() {
        return Err(other_format(alloc, format));
    }
    if entry.relocated {
        let name = entry.name.clone()?;
        return Err(FetchError::Relocated { name });
    }
    stated_in(&entry.name, box_of(entry, part))
}

// Takes in a container of so many bytes, in pieces, and gives the number of those that came: fewer where a read gives none before, and
// more where the last one gives more.
fn take_in<S: Shelf, K: FileSink>(
    alloc: Global,
    shelf: &mut S,
    number: u32,
    name: &Path,
    size: u64,
    intake: &mut Intake,
    sink: &mut K,
) -> Result<u64, FetchError>
    requires size { Told S.tells (size ≡ length (held_by (S.seen shelf.old) number name.now)) }
    requires small { size ≤ limit_of Frame }
    requires fresh { HasTakenIn K.tells intake.old (K.seen sink.old) [] }
    ensures took { IfOk result (TakesAll S.tells K.tells (held_by (S.seen shelf.old) number name.now)
        (K.seen sink.old) (K.seen sink.new) intake.old intake.new) }
    ensures same { SameShelf (S.seen shelf.old) (S.seen shelf.new) }
    ensures cause { HasCauseOf (λ error. error ≡ ShelfFault) (S.seen shelf.old).faults (S.seen shelf.new).faults result }
    ensures sink { HasCauseOf (λ error. error ≡ SinkFault) (K.seen sink.old).faults (K.seen sink.new).faults result }
    ensures since { (first : K) → K.since first sink.old → K.since first sink.new }
    ensures error { IfErr result IsOfDevices }
{
    let mut piece = [0u8; PIECE];
    let mut done = 0u64;
    while done < size {
        let count = shelf.read(number, name, done, &mut piece)?;
        if count == 0 {
            break;
        }
        intake.take(alloc, &piece[..count], sink)?;
        done += count as u64;
    }
    Ok(done)
}

/// Fetches the container of a part of a package from a repository, in pieces of 65,536 bytes, and gives its files to a sink as they come:
/// each begins and is brought in its turn. In this order: `ContainerFormat`, `Relocated`, `NoContainer`, `TooLarge`, `Absent`,
/// `SizeDiffers`, `DigestDiffers`, `BadFrame`, and `FrameEntry` where the frame's entry doesn't read as the package's without its
/// containers, or its paths aren't those of the part. What is wrong with the frame is said once size and digest were compared, and behind it
/// the sink is given nothing. `Absent` comes only where the count of absences rose, `ShelfFault` and `SinkFault` only where that of
/// the faults there did. Its time and memory don't depend on the sizes of the files.
pub fn fetch_into<S: Shelf, K: FileSink>(
    alloc: Global,
    shelf: &mut S,
    repo: &Repo,
    entry: &Object,
    part: ContainerPart,
    sink: &mut K,
) -> Result<(), FetchError>
    requires { IsOpen (part_paths entry.now part) (K.seen sink.old) }
    ensures fetched { Fetched S.tells K.tells (container_in (S.seen shelf.old) repo.now entry.now part)
        repo.now.db entry.now part (K.seen sink.old) (K.seen sink.new) result }
    ensures same { SameShelf (S.seen shelf.old) (S.seen shelf.new) }
    ensures cause { HasCauseOf (λ error. error ≡ ShelfFault) (S.seen shelf.old).faults (S.seen shelf.new).faults result }
    ensures sink { HasCauseOf (λ error. error ≡ SinkFault) (K.seen sink.old).faults (K.seen sink.new).faults result }
    ensures since { (first : K) → K.since first sink.old → K.since first sink.new }
    ensures absent { IfErr result (λ error. IsMissing error → Rose (S.seen shelf.old).absences (S.seen shelf.new).absences) }
{
    let stated = what_is_stated(alloc, &repo.db, entry, part)?;
    let name = container_name(alloc, &repo.db, entry, part)?;
    let mut intake = Intake::new(alloc, entry, part)?;
    let Some(size) = shelf.size(repo.number, &name)? else {
        return Err(FetchError::Absent { name });
    };
    let want = stated.size;
    if size != want {
        return Err(FetchError::SizeDiffers {
            name,
            want,
            got: size,
        });
    }
    let got = take_in(alloc, shelf, repo.number, &name, size, &mut intake, sink)?;
    if got != want {
        return Err(FetchError::SizeDiffers { name, want, got });
    }
    intake.finish(entry, name, stated.digest)
}
