// The lock on the whole folder, which only programs that take it too heed.
use std::fs::{File, TryLockError};
use std::io;
use std::io::ErrorKind;
use std::rt::Files;

const IS_CHANGED: &str = "another program changes what stands there";

const IS_READ: &str = "another program reads what stands there";

/// The open folder and what is held of it. The lock ends with this value, and leaves no file.
#[derive(Drop)]
pub(crate) struct Lock {
    root: Option<File>,
    held: Held,
}

#[derive(Clone, Copy)]
enum Held {
    Nothing,
    // with others that only read
    Shared,
    Alone,
}

impl Lock {
    pub(crate) fn new() -> Lock {
        Lock {
            root: None,
            held: Held::Nothing,
        }
    }

    pub(crate) fn is_held(&self) -> bool {
        !matches!(self.held, Held::Nothing)
    }

    pub(crate) fn is_alone(&self) -> bool {
        matches!(self.held, Held::Alone)
    }

    pub(crate) fn is_open(&self) -> bool {
        self.root.is_some()
    }

    /// Opens the folder at the path. It takes no lock.
    pub(crate) fn open<R: Files<File = File>>(&mut self, rt: &R, path: &str) -> io::Result<()> {
        self.root = Some(File::open(rt, path)?);
        Ok(())
    }

    /// Locks the open folder together with others that only read, without waiting.
    pub(crate) fn share(&mut self) -> io::Result<()> {
        let Some(root) = &self.root else {
            return Err(io::Error::from(ErrorKind::NotFound));
        };
        match root.try_lock_shared() {
            Ok(()) => {
                self.held = Held::Shared;
                Ok(())
            }
            Err(TryLockError::WouldBlock) => Err(io::Error::new(ErrorKind::WouldBlock, IS_CHANGED)),
            Err(TryLockError::Error(error)) => Err(error),
        }
    }

    /// Locks the open folder for this program alone, without waiting. Where another program holds it, what was held is as before if
    /// that one only reads.
    pub(crate) fn take_alone(&mut self) -> io::Result<()> {
        let Some(root) = &self.root else {
            return Err(io::Error::from(ErrorKind::NotFound));
        };
        self.held = Held::Nothing;
        match root.try_lock() {
            Ok(()) => {
                self.held = Held::Alone;
                Ok(())
            }
            Err(TryLockError::WouldBlock) => {
                self.share()?;
                Err(io::Error::new(ErrorKind::WouldBlock, IS_READ))
            }
            Err(TryLockError::Error(error)) => Err(error),
        }
    }
}
