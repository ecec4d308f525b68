// The calls on a folder, each as the system does it.
ghost use Rattle.std.specs.Prelude.{◌≤◌, length, IfOk};

use crate::failure::{Changes, Doing, Failure};
use crate::fits::{check_absent, check_way};
use crate::kept::Kept;
use crate::lock::Lock;
use crate::making::{copy_all, fill, make_new, replace};
use crate::names::{GATE, MOST_COMPONENTS, folder_above, folder_of};
use crate::place::Place;
use crate::stands::{file_len, is_absence};
use crate::touched::Touched;
use crate::walk::Walk;
use std::alloc::{AllocError, Global};
use std::fs::{File, OpenOptions};
use std::io::{ErrorKind, Write};
use std::os::unix::fs::MetadataExt;
use std::rt::Files;
use std::{fs, io};

/// A folder of files. It keeps open the file that is being read, the one that is being added to, and a walk.
#[derive(Drop)]
pub(crate) struct Folder<'a, R: Files<File = File> + Print + AllocGlobal> {
    rt: &'a R,
    doing: Doing,
    place: Place,
    lock: Lock,
    // the name at which a file was found last, if there is one
    looked: String,
    // the folder in which a file was found to have its place last
    fitting: String,
    reading: Kept,
    adding: Kept,
    walk: Option<Walk>,
    touched: Touched,
    changes: Changes,
}

impl<'a, R: Files<File = File> + Print + AllocGlobal> Folder<'a, R> {
    pub(crate) fn new(rt: &'a R, folder: &[u8]) -> Result<Folder<'a, R>, AllocError> {
        let alloc = rt.alloc();
        Ok(Folder {
            rt,
            doing: Doing::Lock,
            place: Place::new(alloc, folder)?,
            lock: Lock::new(),
            looked: String::new(alloc),
            fitting: String::new(alloc),
            reading: Kept::new(alloc),
            adding: Kept::new(alloc),
            walk: None,
            touched: Touched::new(alloc),
            changes: Changes::Nothing,
        })
    }

    fn alloc(&self) -> Global {
        self.rt.alloc()
    }

    /// The failure of the call before, which had this cause.
    pub(crate) fn failure(&self, cause: io::Error) -> Failure {
        let path = self.place.path();
        Failure::new(self.rt.alloc(), self.doing, path, cause, self.changes)
    }

    // Begins a call that changes nothing. The first one locks the folder, for as long as this value lives.
    fn enter(&mut self, doing: Doing) -> io::Result<()> {
        self.go_to_lock()?;
        if !self.lock.is_held() {
            self.lock.share()?;
        }
        self.doing = doing;
        Ok(())
    }

    // Begins a call that changes something. The first one locks the folder for this host alone.
    fn enter_alone(&mut self, doing: Doing) -> io::Result<()> {
        self.go_to_lock()?;
        if !self.lock.is_alone() {
            self.lock.take_alone()?;
        }
        self.doing = doing;
        Ok(())
    }

    fn go_to_lock(&mut self) -> io::Result<()> {
        self.doing = Doing::Open;
        self.place.go("")?;
        if !self.lock.is_open() {
            self.lock.open(self.rt, self.place.path())?;
        }
        self.doing = Doing::Lock;
        Ok(())
    }

    /// The length of the name's file. Where no file stands and none can come, that is an error.
    pub(crate) fn size(&mut self, name: &str) -> io::Result<Option<u64>> {
        self.enter(Doing::Look)?;
        self.place.go(name)?;
        let len = file_len(self.rt, self.place.path())?;
        if len.is_some() {
            self.looked.clear();
            self.looked.push_str(name)?;
        } else {
            self.check_fits(name)?;
        }
        Ok(len)
    }

    fn check_fits(&mut self, name: &str) -> io::Result<()> {
        check_absent(self.rt, self.alloc(), &mut self.place, name)?;
        let folder = folder_of(name);
        if self.fitting.as_str() != folder {
            check_way(self.rt, &mut self.place, name)?;
            self.fitting.clear();
            self.fitting.push_str(folder)?;
        }
        Ok(())
    }

    /// Fills the buffer from a place in the name's file, as far as the file goes.
    pub(crate) fn read(&mut self, name: &str, from: u64, into: &mut [u8]) -> io::Result<usize>
        ensures { IfOk result (λ count. count ≤ length into.new) }
    {
        self.enter(Doing::Read)?;
        self.place.go(name)?;
        if self.reading.file(name).is_none() {
            self.open_to_read(name)?;
        }
        match self.reading.file(name) {
            Some(file) => fill(file, from, into),
            None => Ok(0),
        }
    }

    // Opens the name's file, where there is one. It looks first whether a file stands there, since opening a pipe may
    // take forever, unless the call before has just looked.
    fn open_to_read(&mut self, name: &str) -> io::Result<()> {
        self.reading.close();
        if self.looked.as_str() != name && file_len(self.rt, self.place.path())?.is_none() {
            return Ok(());
        }
        match File::open(self.rt, self.place.path()) {
            Ok(file) => self.reading.keep(name, file),
            Err(error) if is_absence(&error) => Ok(()),
            Err(error) => Err(error),
        }
    }

    // Forgets what a change of the files may make wrong. A walk looks at each name as it comes to it, so only a new
    // name makes it wrong.
    fn let_go(&mut self) {
        self.looked.clear();
        self.reading.close();
        self.adding.close();
    }

    /// Goes on to the next file after this name, or to the first one after the empty text; false where there is none.
    pub(crate) fn next(&mut self, after: &str) -> io::Result<bool> {
        self.enter(Doing::List)?;
        if self.given() != Some(after) {
            self.walk = Some(Walk::begin(self.rt.alloc(), after)?);
        }
        let found = self.go_on();
        if found.is_err() {
            self.walk = None;
        }
        found
    }

    fn go_on(&mut self) -> io::Result<bool> {
        match &mut self.walk {
            Some(walk) => {
                let is_found = walk.next(self.rt, &mut self.place)?;
                if is_found {
                    self.looked.clear();
                    self.looked.push_str(walk.given())?;
                }
                Ok(is_found)
            }
            None => Ok(false),
        }
    }

    /// The name that the walk gave last.
    pub(crate) fn given(&self) -> Option<&str> {
        match &self.walk {
            Some(walk) => Some(walk.given()),
            None => None,
        }
    }

    /// Makes the name's file anew, empty. What stood there is let go, and not written to.
    pub(crate) fn create(&mut self, name: &str) -> io::Result<()> {
        self.enter_alone(Doing::Create)?;
        self.walk = None;
        self.let_go();
        let file = self.make(name)?;
        self.adding.keep(name, file)
    }

    fn make(&mut self, name: &str) -> io::Result<File> {
        self.touched.note_file(name)?;
        self.touched.note_way(name)?;
        self.place.go(name)?;
        match make_new(self.rt, self.place.path(), name) {
            Ok(file) => Ok(file),
            Err(error) => match error.kind() {
                ErrorKind::AlreadyExists => replace(self.rt, self.alloc(), &mut self.place, name),
                ErrorKind::NotFound => {
                    self.make_folders(name)?;
                    self.place.go(name)?;
                    make_new(self.rt, self.place.path(), name)
                }
                _ => Err(error),
            },
        }
    }

    // Makes the folders of a name that are missing.
    fn make_folders(&mut self, name: &str) -> io::Result<()> {
        for (at, _) in name.match_indices('/') {
            if let Some((folder, _)) = name.split_at_checked(at) {
                self.make_folder(folder)?;
            }
        }
        Ok(())
    }

    // Makes a folder, where nothing stands.
    fn make_folder(&mut self, folder: &str) -> io::Result<()> {
        self.place.go(folder)?;
        if fs::metadata(self.rt, self.place.path()).is_ok() {
            return Ok(());
        }
        self.touched.note_folder(folder_of(folder))?;
        match fs::create_dir(self.rt, self.place.path()) {
            Ok(()) => Ok(()),
            Err(error) if error.kind() == ErrorKind::AlreadyExists => Ok(()),
            Err(error) => Err(error),
        }
    }

    /// Adds bytes at the end of the name's file.
    pub(crate) fn append(&mut self, name: &str, bytes: &[u8]) -> io::Result<()> {
        self.enter_alone(Doing::Write)?;
        self.place.go(name)?;
        self.touched.note_file(name)?;
        self.touched.note_way(name)?;
        if self.adding.file(name).is_none() {
            self.adding.close();
            let file = self.open_to_add(name)?;
            self.adding.keep(name, file)?;
        }
        match self.adding.file(name) {
            Some(file) => {
                let mut writer: &File = file;
                writer.write_all(bytes)?;
            }
            None => return Err(io::Error::from(ErrorKind::NotFound)),
        }
        if name == GATE {
            self.changes = Changes::Unsaid;
        }
        Ok(())
    }

    // The name's own file. What stands there may be a link, or have other names: then it becomes a copy first.
    fn open_to_add(&mut self, name: &str) -> io::Result<File> {
        let found = fs::symlink_metadata(self.rt, self.place.path())?;
        if found.is_file() && found.nlink() <= 1 {
            return OpenOptions::new()
                .append(true)
                .open(self.rt, self.place.path());
        }
        if file_len(self.rt, self.place.path())?.is_none() {
            return Err(io::Error::from(ErrorKind::NotFound));
        }
        let shared = File::open(self.rt, self.place.path())?;
        self.let_go();
        let own = self.make(name)?;
        copy_all(&shared, &own)?;
        Ok(own)
    }

    /// Removes the name's file, where there is one, and the folders that are empty then.
    pub(crate) fn remove(&mut self, name: &str) -> io::Result<()> {
        self.enter_alone(Doing::Remove)?;
        self.touched.note_way(name)?;
        self.place.go(name)?;
        if file_len(self.rt, self.place.path())?.is_none() {
            return Ok(());
        }
        self.let_go();
        match fs::remove_file(self.rt, self.place.path()) {
            Ok(()) => {}
            Err(error) if is_absence(&error) => {}
            Err(error) => return Err(error),
        }
        self.remove_folders(folder_of(name))
    }

    // Removes this folder if it is empty, then the one that holds it, and so on.
    fn remove_folders(&mut self, first: &str) -> io::Result<()> {
        let mut folder = first;
        for _ in 0..MOST_COMPONENTS {
            if folder.is_empty() || !self.remove_folder(folder)? {
                break;
            }
            folder = folder_above(folder);
        }
        Ok(())
    }

    // False where the folder stays.
    fn remove_folder(&mut self, folder: &str) -> io::Result<bool> {
        let above = self.touched.prepare_folder(folder_above(folder))?;
        self.place.go(folder)?;
        match fs::remove_dir(self.rt, self.place.path()) {
            Ok(()) => {
                self.touched.note_prepared(above)?;
                Ok(true)
            }
            Err(error) if is_kept(error.kind()) => Ok(false),
            Err(error) => Err(error),
        }
    }

    /// Makes durable what was changed since the last sync.
    pub(crate) fn sync(&mut self) -> io::Result<()> {
        self.enter(Doing::Sync)?;
        self.touched.settle(self.rt, &mut self.place)
    }

    /// Writes to standard output. It asks nothing of the folder.
    pub(crate) fn say(&mut self, bytes: &[u8]) -> io::Result<()> {
        self.doing = Doing::Say;
        self.place.go_out("standard output")?;
        io::writer(self.rt).write_all(bytes)?;
        if self.changes == Changes::Unsaid {
            self.changes = Changes::Said;
        }
        Ok(())
    }
}

// Whether a folder stays because it isn't empty, is gone, is a link, is one that the system holds, or may not be removed.
fn is_kept(kind: ErrorKind) -> bool {
    matches!(
        kind,
        ErrorKind::DirectoryNotEmpty
            | ErrorKind::AlreadyExists
            | ErrorKind::NotFound
            | ErrorKind::NotADirectory
            | ErrorKind::ResourceBusy
            | ErrorKind::PermissionDenied
            | ErrorKind::ReadOnlyFilesystem
    )
}
