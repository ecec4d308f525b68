// The names below a folder, in byte order.
use crate::listing::list;
use crate::place::Place;
use crate::stands::{Stands, look};
use std::alloc::{AllocError, Global};
use std::io;
use std::rt::Files;
use tl_path::PathRef;

/// A walk over the files below a folder. It lists each folder once, as it comes to it, and looks at each name once,
/// as it comes to it; so a name that goes while the walk is open is passed over.
#[derive(Drop)]
pub(crate) struct Walk {
    alloc: Global,
    // the name given last, or the place at which the walk began
    given: String,
    // names in folders that were listed, the least last
    names: Vec<String>,
    // folders that were met and not yet listed, each with a slash at its end, the least last
    waiting: Vec<String>,
}

enum Step {
    List(String),
    Look(String),
    End,
}

impl Walk {
    /// A walk over the names after this one; over all of them after the empty text.
    pub(crate) fn begin(alloc: Global, after: &str) -> Result<Walk, AllocError> {
        let mut waiting = Vec::new(alloc);
        waiting.push(String::new(alloc))?;
        Ok(Walk {
            alloc,
            given: String::from_str(alloc, after)?,
            names: Vec::new(alloc),
            waiting,
        })
    }

    /// The name given last, or where it began.
    pub(crate) fn given(&self) -> &str {
        self.given.as_str()
    }

    /// Goes on to the next name, which is then the one given last; false at the end.
    pub(crate) fn next<R: Files>(&mut self, rt: &R, place: &mut Place) -> io::Result<bool> {
        for _ in 0..u64::MAX {
            match self.step() {
                Step::List(folder) => self.list(rt, place, folder)?,
                Step::Look(name) => {
                    if self.look(rt, place, name)? {
                        return Ok(true);
                    }
                }
                Step::End => return Ok(false),
            }
        }
        Ok(false)
    }

    // What comes first: a folder with its slash, or a name.
    fn step(&mut self) -> Step {
        let is_folder = match (self.waiting.last(), self.names.last()) {
            (Some(folder), Some(name)) => folder < name,
            (Some(_), None) => true,
            (None, _) => false,
        };
        if is_folder {
            if let Some(folder) = self.waiting.pop() {
                return Step::List(folder);
            }
        }
        match self.names.pop() {
            Some(name) => Step::Look(name),
            None => Step::End,
        }
    }

    // Gives the name where a file stands there, and lets a folder wait. It doesn't look at what can't hold a name
    // that is to be given.
    fn look<R: Files>(&mut self, rt: &R, place: &mut Place, name: String) -> io::Result<bool> {
        let is_after = self.given.as_str() < name.as_str();
        if !is_after && !is_on_way(self.given.as_str(), name.as_str()) {
            return Ok(false);
        }
        if PathRef::check(name.as_bytes()).is_err() {
            return Ok(false);
        }
        place.go(name.as_str())?;
        match look(rt, place.path())? {
            Stands::File(_) if is_after => {
                self.given = name;
                Ok(true)
            }
            Stands::Folder => {
                let mut folder = name;
                folder.push('/')?;
                self.waiting.push(folder)?;
                Ok(false)
            }
            _ => Ok(false),
        }
    }

    // Names that aren't UTF-8 are passed over.
    fn list<R: Files>(&mut self, rt: &R, place: &mut Place, folder: String) -> io::Result<()> {
        let mut found = list(rt, self.alloc, place, folder.as_str())?.names;
        found.sort_unstable_by(|a, b| b.cmp(a));
        self.names.append(&mut found)?;
        Ok(())
    }
}

// Whether a name that isn't after `given` may be a folder that holds a name after it.
fn is_on_way(given: &str, name: &str) -> bool {
    match given.strip_prefix(name) {
        Some(rest) => rest.as_bytes().first().is_none_or(|byte| *byte <= b'/'),
        None => false,
    }
}
