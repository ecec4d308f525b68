// What a sync has to make durable.
use crate::names::{
    JOURNAL, JOURNAL_FILES, JOURNAL_FOLDERS, MOST_COMPONENTS, folder_above, folder_of,
};
use crate::place::Place;
use crate::stands::{file_len, is_absence};
use std::alloc::{AllocError, Global};
use std::fs::File;
use std::io::ErrorKind;
use std::rt::Files;
use std::{fs, io};

/// The names that were touched since the last sync that succeeded, the folders in which a name came or went, and those above. A
/// folder ends in a slash; the whole folder is the empty text.
#[derive(Drop)]
pub(crate) struct Touched {
    alloc: Global,
    files: Vec<String>,
    folders: Vec<String>,
    // a folder that was noted with all above it since the last sync, if there is one
    way: Option<String>,
    // the folders of the last sync, in order: what leads to them is durable
    settled: Vec<String>,
    // whether nothing was made durable yet, and so not the journal as an earlier program left it
    is_first: bool,
    // whether an attempt failed: the system tells of bytes that it lost only once
    is_unsure: bool,
}

impl Touched {
    pub(crate) fn new(alloc: Global) -> Touched {
        Touched {
            alloc,
            files: Vec::new(alloc),
            folders: Vec::new(alloc),
            way: None,
            settled: Vec::new(alloc),
            is_first: true,
            is_unsure: false,
        }
    }

    /// Notes a name before it is touched.
    pub(crate) fn note_file(&mut self, name: &str) -> Result<(), AllocError> {
        note(self.alloc, &mut self.files, name)
    }

    /// Notes a folder before a name comes or goes in it.
    pub(crate) fn note_folder(&mut self, folder: &str) -> Result<(), AllocError> {
        note(self.alloc, &mut self.folders, folder)
    }

    /// Notes the folder of a name, and those above it: an earlier program may have made or emptied them without a sync.
    pub(crate) fn note_way(&mut self, name: &str) -> Result<(), AllocError> {
        let folder = folder_of(name);
        if is_folder_at(&self.way, folder) {
            return Ok(());
        }
        self.note_folder(folder)?;
        if !is_among(&self.settled, folder) {
            self.note_above(folder)?;
            self.way = Some(String::from_str(self.alloc, folder)?);
        }
        Ok(())
    }

    // Notes the folders above a folder, up to one that was noted already.
    fn note_above(&mut self, folder: &str) -> Result<(), AllocError> {
        let mut above = folder;
        for _ in 0..MOST_COMPONENTS {
            if above.is_empty() {
                break;
            }
            above = folder_above(above);
            if is_folder_above(&self.way, above) {
                break;
            }
            self.note_folder(above)?;
        }
        Ok(())
    }

    /// A folder as it is to be noted, with room for it.
    pub(crate) fn prepare_folder(&mut self, folder: &str) -> Result<String, AllocError> {
        self.folders.reserve(1)?;
        String::from_str(self.alloc, folder)
    }

    /// Notes a folder that was prepared.
    pub(crate) fn note_prepared(&mut self, folder: String) -> Result<(), AllocError> {
        self.folders.push(folder)?;
        Ok(())
    }

    /// Makes all of it durable, files before folders, and the first time what is there of the journal before all. Once the system
    /// has failed at that, each later call fails too.
    pub(crate) fn settle<R: Files<File = File>>(
        &mut self,
        rt: &R,
        place: &mut Place,
    ) -> io::Result<()> {
        if self.is_unsure {
            return Err(io::Error::other("an earlier attempt has failed"));
        }
        self.is_unsure = true;
        if self.is_first {
            settle_journal(rt, place)?;
            self.is_first = false;
        }
        in_order(&mut self.files);
        in_order(&mut self.folders);
        settle_files(rt, place, &self.files)?;
        settle_folders(rt, place, &self.folders)?;
        self.forget()?;
        self.is_unsure = false;
        Ok(())
    }

    // Forgets what is durable by now, but for the folders.
    fn forget(&mut self) -> Result<(), AllocError> {
        self.files.clear();
        self.way = None;
        if !self.folders.is_empty() {
            self.settled.clear();
            self.settled.append(&mut self.folders)?;
        }
        Ok(())
    }
}

fn is_folder_at(way: &Option<String>, folder: &str) -> bool {
    match way {
        Some(way) => way.as_str() == folder,
        None => false,
    }
}

// Whether the folder is that of the way, or one above.
fn is_folder_above(way: &Option<String>, folder: &str) -> bool {
    match way {
        Some(way) => way.as_str().starts_with(folder),
        None => false,
    }
}

// Whether a list in order has the name.
fn is_among(names: &[String], name: &str) -> bool {
    names.binary_search_by(|one| one.as_str().cmp(name)).is_ok()
}

fn note(alloc: Global, names: &mut Vec<String>, name: &str) -> Result<(), AllocError> {
    if let Some(last) = names.last() {
        if last.as_str() == name {
            return Ok(());
        }
    }
    names.push(String::from_str(alloc, name)?)?;
    Ok(())
}

fn in_order(names: &mut Vec<String>) {
    names.sort_unstable();
    names.dedup();
}

// Makes durable what is there of the journal: an earlier program may have written it without a sync. It asks nothing where there is no
// journal, and writes nothing.
fn settle_journal<R: Files<File = File>>(rt: &R, place: &mut Place) -> io::Result<()> {
    place.go(JOURNAL)?;
    match fs::metadata(rt, place.path()) {
        Ok(_) => {}
        Err(error) if is_absence(&error) => return Ok(()),
        Err(error) => return Err(error),
    }
    for name in JOURNAL_FILES {
        unless_only_read(settle_file(rt, place, name))?;
    }
    settle_journal_folders(rt, place)
}

fn settle_journal_folders<R: Files<File = File>>(rt: &R, place: &mut Place) -> io::Result<()> {
    for folder in JOURNAL_FOLDERS {
        unless_only_read(settle_folder(rt, place, folder))?;
    }
    Ok(())
}

// A file system that is only read, and may have no such call, holds nothing that isn't durable.
fn unless_only_read(answered: io::Result<()>) -> io::Result<()> {
    match answered {
        Err(error) if is_only_read(error.kind()) => Ok(()),
        answered => answered,
    }
}

fn is_only_read(kind: ErrorKind) -> bool {
    matches!(
        kind,
        ErrorKind::InvalidInput | ErrorKind::ReadOnlyFilesystem
    )
}

fn settle_files<R: Files<File = File>>(
    rt: &R,
    place: &mut Place,
    names: &[String],
) -> io::Result<()> {
    for name in names {
        settle_file(rt, place, name.as_str())?;
    }
    Ok(())
}

fn settle_folders<R: Files<File = File>>(
    rt: &R,
    place: &mut Place,
    names: &[String],
) -> io::Result<()> {
    for name in names {
        settle_folder(rt, place, name.as_str())?;
    }
    Ok(())
}

// A file that is gone by now needs nothing of its own.
fn settle_file<R: Files<File = File>>(rt: &R, place: &mut Place, name: &str) -> io::Result<()> {
    place.go(name)?;
    if file_len(rt, place.path())?.is_some() {
        File::open(rt, place.path())?.sync_all()?;
    }
    Ok(())
}

// A folder that is gone by now went from one that was noted too.
fn settle_folder<R: Files<File = File>>(rt: &R, place: &mut Place, name: &str) -> io::Result<()> {
    place.go(name)?;
    match File::open(rt, place.path()) {
        Ok(folder) => folder.sync_all(),
        Err(error) if is_absence(&error) => Ok(()),
        Err(error) => Err(error),
    }
}
