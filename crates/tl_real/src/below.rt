// What stands below a folder, at any depth.
use crate::listing::list;
use crate::place::Place;
use crate::stands::{Stands, look};
use std::alloc::{AllocError, Global};
use std::io;
use std::rt::Files;
use tl_path::PathRef;

/// The folders at and below a folder, each after the one that holds it, each with a slash at its end, and what else is there.
#[derive(Drop)]
pub(crate) struct Below {
    pub(crate) folders: Vec<String>,
    /// Whether a walk lists something below the folder.
    pub(crate) has_file: bool,
    /// Whether something stands there that is no folder and that no walk lists. Then the folders may not be all.
    pub(crate) has_other: bool,
    waiting: Vec<String>,
}

/// Looks at all that stands below a folder, until it finds something that no walk lists.
pub(crate) fn look_below<R: Files>(
    rt: &R,
    alloc: Global,
    place: &mut Place,
    name: &str,
) -> io::Result<Below> {
    let mut below = Below::begin(alloc, name)?;
    for _ in 0..u64::MAX {
        if below.has_other {
            break;
        }
        match below.waiting.pop() {
            Some(folder) => below.look_in(rt, alloc, place, folder)?,
            None => break,
        }
    }
    Ok(below)
}

impl Below {
    fn begin(alloc: Global, name: &str) -> Result<Below, AllocError> {
        let mut waiting = Vec::new(alloc);
        let mut folder = String::from_str(alloc, name)?;
        folder.push('/')?;
        waiting.push(folder)?;
        Ok(Below {
            folders: Vec::new(alloc),
            has_file: false,
            has_other: false,
            waiting,
        })
    }

    fn look_in<R: Files>(
        &mut self,
        rt: &R,
        alloc: Global,
        place: &mut Place,
        folder: String,
    ) -> io::Result<()> {
        let listing = list(rt, alloc, place, folder.as_str())?;
        if listing.has_unnamed {
            self.has_other = true;
        }
        self.folders.push(folder)?;
        for name in listing.names {
            self.look_at(rt, place, name)?;
        }
        Ok(())
    }

    fn look_at<R: Files>(&mut self, rt: &R, place: &mut Place, name: String) -> io::Result<()> {
        place.go(name.as_str())?;
        match look(rt, place.path())? {
            Stands::Folder => {
                let mut folder = name;
                folder.push('/')?;
                self.waiting.push(folder)?;
            }
            Stands::File(_) if PathRef::check(name.as_bytes()).is_ok() => self.has_file = true,
            _ => self.has_other = true,
        }
        Ok(())
    }
}
