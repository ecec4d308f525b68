//! The naming of containers, entry after entry.
ghost use Rattle.std.specs.Prelude.{◌≡◌, Ok, IfOk, IfErr, OnOk};
ghost use Rattle.tl_entry.specs.declared.object.Container.{Container};
ghost use Rattle.tl_fetch.specs.Containers.{box_of};
ghost use Rattle.tl_copying.specs.Answers.{IsCopyError, IsFormatError};
ghost use Rattle.tl_copying.specs.Demands.{Named, demand_both, demand_of, is_stated, containers_in, containers_of, names_none, unnamed, with_demand, with_package, with_packages, with_container};

use crate::demand::{Demand, DemandList};
use crate::entries::{container_format, entries_in};
use crate::error::CopyError;
use std::alloc::{AllocError, Global};
use std::marker::Model;
use tl_db::Db;
use tl_entry::{Container, Gathered, Keyed, Object};
use tl_fetch::{ContainerPart, container_name};
use tl_kind::What;
use tl_path::{Name, Path};
use tl_text::Text;

// The containers that were named so far.
#[derive(Drop)]
pub(crate) struct Naming {
    first: Gathered<Demand>,
    again: DemandList,
}

impl Model for Naming {
    ghost use Rattle.tl_copying.specs.Demands.{Named};

    ghost Value = { Named };

    ghost view = { λ a. record { first = a.first; again = a.again } };
}

// What an entry says of the container of a part.
fn box_of(entry: &Object, part: ContainerPart) -> Container
    ensures { result ≡ box_of entry.now part }
{
    match part {
        ContainerPart::Run => entry.run_box,
        ContainerPart::Doc => entry.doc_box,
        ContainerPart::Src => entry.src_box,
    }
}

// Whether an entry says something of a container.
fn is_stated(known: Container) -> bool
    ensures { result ≡ is_stated known }
{
    known.size.is_some() || known.digest.is_some()
}

// Whether the entry of a name names no container.
fn names_none(name: &Name) -> bool
    ensures { result ≡ names_none name.now }
{
    name.bytes().starts_with(b"00texlive")
}

// The container of a name, of which a package states this.
fn demand_both(name: Path, owner: &Name, known: Container) -> Result<Demand, CopyError>
    ensures ok { IfOk result (λ demand. demand_both name owner.now known.size known.digest ≡ Ok demand) }
    ensures err { IfErr result (IsCopyError (demand_both name owner.now known.size known.digest)) }
{
    let (Some(size), Some(digest)) = (known.size, known.digest) else {
        let name = owner.clone()?;
        return Err(CopyError::NoContainer { name });
    };
    let what = What::Frame;
    let limit = what.limit();
    if size > limit {
        return Err(CopyError::TooLarge { what, limit });
    }
    Ok(Demand { name, size, digest })
}

// The error that the containers have this format.
fn other_format(alloc: Global, format: &[u8]) -> CopyError
    ensures { IsFormatError format.now result }
{
    match Text::parse(alloc, format) {
        Ok(format) => CopyError::ContainerFormat { format },
        Err(_) => CopyError::NoMemory,
    }
}

// The container of a part of a package.
fn demand_of(
    alloc: Global,
    db: &Db,
    entry: &Object,
    part: ContainerPart,
) -> Result<Demand, CopyError>
    ensures ok { IfOk result (λ demand. demand_of db.now entry.now part ≡ Ok demand) }
    ensures err { IfErr result (IsCopyError (demand_of db.now entry.now part)) }
{
    let format = container_format(alloc, db)?;
    if format != b"frame".as_slice() {
        return Err(other_format(alloc, format));
    }
    let name = container_name(alloc, db, entry, part)?;
    demand_both(name, &entry.name, box_of(entry, part))
}

impl Naming {
    // None was named.
    fn new(alloc: Global) -> Naming
        ensures { result ≡ unnamed }
    {
        Naming {
            first: Gathered::new(alloc),
            again: DemandList::new(alloc),
        }
    }

    // Adds a container.
    fn add(&mut self, alloc: Global, demand: Demand) -> Result<(), AllocError>
        ensures { OnOk result (self.new ≡ with_demand demand self.old) }
    {
        if self.first.has(demand.key()) {
            self.again.push(demand)
        } else {
            self.first.put(alloc, demand)
        }
    }

    // Adds the container of a part of a package, where its entry says something of it.
    fn add_part(
        &mut self,
        alloc: Global,
        db: &Db,
        entry: &Object,
        part: ContainerPart,
    ) -> Result<(), CopyError>
        ensures ok { OnOk result (with_container db.now entry.now part self.old ≡ Ok self.new) }
        ensures err { IfErr result (IsCopyError (with_container db.now entry.now part self.old)) }
    {
        if is_stated(box_of(entry, part)) {
            let demand = demand_of(alloc, db, entry, part)?;
            self.add(alloc, demand)?;
        }
        Ok(())
    }

    // Adds the containers of a package.
    fn add_package(&mut self, alloc: Global, db: &Db, entry: &Object) -> Result<(), CopyError>
        ensures ok { OnOk result (with_package db.now entry.now self.old ≡ Ok self.new) }
        ensures err { IfErr result (IsCopyError (with_package db.now entry.now self.old)) }
    {
        if names_none(&entry.name) {
            return Ok(());
        }
        self.add_part(alloc, db, entry, ContainerPart::Run)?;
        self.add_part(alloc, db, entry, ContainerPart::Doc)?;
        self.add_part(alloc, db, entry, ContainerPart::Src)
    }

    /// The containers in the order of their names, each once, and those that name one of them again.
    pub(crate) fn finish(self) -> Result<(DemandList, DemandList), AllocError>
        ensures { IfOk result (λ both. (both.0 ≡ self.first) × (both.1 ≡ self.again)) }
    {
        let Naming { first, again } = self;
        Ok((DemandList::of(first.finish()?), again))
    }
}

// The containers that entries name.
fn containers_of(alloc: Global, db: &Db) -> Result<Naming, CopyError>
    ensures ok { IfOk result (λ naming. containers_of db.now ≡ Ok naming) }
    ensures err { IfErr result (IsCopyError (containers_of db.now)) }
{
    let mut naming = Naming::new(alloc);
    for entry in db.entries() {
        naming.add_package(alloc, db, entry)?;
    }
    Ok(naming)
}

/// The containers that a database's text names.
pub(crate) fn containers_in(alloc: Global, text: &[u8]) -> Result<Naming, CopyError>
    ensures ok { IfOk result (λ naming. containers_in text.now ≡ Ok naming) }
    ensures err { IfErr result (IsCopyError (containers_in text.now)) }
{
    let db = entries_in(alloc, text)?;
    containers_of(alloc, &db)
}
