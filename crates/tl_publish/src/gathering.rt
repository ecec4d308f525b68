//! What is gathered of names as they come.
ghost use Rattle.std.specs.Prelude.{◌≡◌, ◌++◌, ◌∷◌, [], IfOk, OnOk, filter};
ghost use Rattle.std.specs.Option.{option_or};
ghost use Rattle.tl_publish.specs.Listable.{is_inside, occupant};
ghost use Rattle.tl_publish.specs.Walk.{gathering_of};

use std::alloc::{AllocError, Global};
use std::marker::Model;
use tl_path::{Path, PathRef};

// The folder and the list; the names below the folder but the list itself, and the first one below the list.
#[derive(Drop)]
pub(crate) struct Gathered {
    folder: Path,
    list: Path,
    inside: Vec<Path>,
    occupant: Option<Path>,
}

impl Model for Gathered {
    ghost use Rattle.std.specs.Prelude.{◌≡◌};
    ghost use Rattle.tl_lsr.specs.Items as items;
    ghost use Rattle.tl_lsr.specs.Lists.{list_path};
    ghost use Rattle.tl_publish.specs.Walk.{Gathering};

    ghost Value = { Gathering };

    ghost view = { λ a. record { inside = a.inside.items; occupant = a.occupant } };

    ghost invariant = { λ a. (a.folder ≡ items.folder) × (a.list ≡ list_path) };
}

impl Gathered {
    /// Nothing is gathered.
    pub(crate) fn new(alloc: Global) -> Result<Gathered, AllocError>
        ensures { IfOk result (λ gathered. gathered ≡ gathering_of []) }
    {
        Ok(Gathered {
            folder: PathRef::known("texmf-dist").to_path(alloc)?,
            list: PathRef::known("texmf-dist/ls-R").to_path(alloc)?,
            inside: Vec::new(alloc),
            occupant: None,
        })
    }

    // Notes a name, where it is the first one below the list.
    fn note_occupant(&mut self, path: &Path) -> Result<(), AllocError>
        ensures inside { self.new.inside ≡ self.old.inside }
        ensures occupant { OnOk result (self.new.occupant ≡ option_or self.old.occupant (occupant (path.now ∷ []))) }
    {
        if self.occupant.is_none() && path.is_below(&self.list) {
            self.occupant = Some(path.clone()?);
        }
        Ok(())
    }

    // Notes a name, where it is below the folder and isn't the list.
    fn note_inside(&mut self, path: &Path) -> Result<(), AllocError>
        ensures inside { OnOk result (self.new.inside ≡ self.old.inside ++ filter is_inside (path.now ∷ [])) }
        ensures occupant { self.new.occupant ≡ self.old.occupant }
    {
        if path.is_below(&self.folder) && *path != self.list {
            self.inside.push(path.clone()?)?;
        }
        Ok(())
    }

    /// Notes a name.
    pub(crate) fn note(&mut self, path: &Path) -> Result<(), AllocError>
        ensures inside { OnOk result (self.new.inside ≡ self.old.inside ++ filter is_inside (path.now ∷ [])) }
        ensures occupant { OnOk result (self.new.occupant ≡ option_or self.old.occupant (occupant (path.now ∷ []))) }
    {
        self.note_occupant(path)?;
        self.note_inside(path)
    }

    /// The names below the folder but the list itself, and the first one below the list.
    pub(crate) fn into_parts(self) -> (Vec<Path>, Option<Path>)
        ensures inside { result.0.items ≡ self.inside }
        ensures occupant { result.1 ≡ self.occupant }
    {
        (self.inside, self.occupant)
    }
}
