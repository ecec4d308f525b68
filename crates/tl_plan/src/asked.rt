//! What leaves where some packages are asked to.
ghost use Rattle.std.specs.Prelude.{◌≡◌, ◌||◌, [], ◌++◌, List, ℕ, codes, map, option_copied, IfOk, OnOk};
ghost use Rattle.std.specs.List.{list_any};
ghost use Rattle.std.specs.Str.{bytes_eq};
ghost use Rattle.indexmap.specs.IndexSet.{insert_all};
ghost use Rattle.tl_entry.specs.declared.object.Object.{Object};
ghost use Rattle.tl_depend.specs.Needed.{is_meta, needs_name, needed_by, tree_platforms};
ghost use Rattle.tl_plan.specs.Removal.{is_protected, is_among, is_collection, gathers, leaves_with, binary_parts, parts_by, names_by, leaving_names};
ghost use Rattle.tl_plan.specs.Wanted.{leaves_by, AreWanted};

use indexmap::IndexSet;
use std::alloc::{AllocError, Global};
use tl_db::Db;
use tl_depend::{add_depends, add_on_platforms, is_meta, needed_by};
use tl_object::Object;
use tl_path::{Category, Name};

/// Names that are asked for, that an asked collection names, and that another collection or scheme names.
#[derive(Drop)]
pub struct Wanted {
    asked: IndexSet<Name>,
    gathered: IndexSet<Name>,
    needed: IndexSet<Name>,
}

/// Whether the tree keeps a name for itself.
pub fn is_protected(name: &Name) -> bool
    ensures { result ≡ is_protected name.now }
{
    name.bytes().starts_with(b"00texlive")
}

fn is_collection(category: Category) -> bool
    ensures { result ≡ is_collection category }
{
    matches!(category, Category::Collection)
}

/// Some names, each once.
pub fn name_set(alloc: Global, names: &[Name]) -> Result<IndexSet<Name>, AllocError>
    ensures { IfOk result (λ set. set.keys ≡ insert_all bytes_eq [] names.now) }
{
    let mut set = IndexSet::new(alloc);
    for name in names {
        set.insert(name.clone()?)?;
    }
    Ok(set)
}

// Adds what an entry names, where it is a collection that is asked for.
fn add_gathered(
    alloc: Global,
    names: &mut IndexSet<Name>,
    entry: &Object,
    asked: &IndexSet<Name>,
    platforms: &[Vec<u8>],
) -> Result<(), AllocError>
    ensures { OnOk result ((name : List ℕ) → is_among name names.new.keys ≡ (is_among name names.old.keys
        || gathers (map (λ platform. platform.items) platforms.now) asked.now.keys name entry.now)) }
{
    if is_collection(entry.category) && asked.contains(&entry.name) {
        add_depends(alloc, names, entry.depends.as_slice(), platforms)
    } else {
        Ok(())
    }
}

// The names that the asked collections name.
fn gathered_names(
    alloc: Global,
    db: &Db,
    asked: &IndexSet<Name>,
    platforms: &[Vec<u8>],
) -> Result<IndexSet<Name>, AllocError>
    ensures { IfOk result (λ names. (name : List ℕ) → is_among name names.keys
        ≡ list_any (gathers (map (λ platform. platform.items) platforms.now) asked.now.keys name) db.now) }
{
    let mut names = IndexSet::new(alloc);
    for entry in db.entries() {
        add_gathered(alloc, &mut names, entry, asked, platforms)?;
    }
    Ok(names)
}

// Adds what an entry names, where it is a collection or a scheme that isn't asked for.
fn add_needed(
    alloc: Global,
    names: &mut IndexSet<Name>,
    entry: &Object,
    asked: &IndexSet<Name>,
    platforms: &[Vec<u8>],
) -> Result<(), AllocError>
    ensures { OnOk result ((name : List ℕ) → is_among name names.new.keys ≡ (is_among name names.old.keys
        || needs_name (map (λ platform. platform.items) platforms.now) name asked.now.keys entry.now)) }
{
    if is_meta(entry.category) && !asked.contains(&entry.name) {
        add_depends(alloc, names, entry.depends.as_slice(), platforms)
    } else {
        Ok(())
    }
}

// The names that the collections and schemes name which aren't asked for.
fn needed_names(
    alloc: Global,
    db: &Db,
    asked: &IndexSet<Name>,
    platforms: &[Vec<u8>],
) -> Result<IndexSet<Name>, AllocError>
    ensures { IfOk result (λ names. (name : List ℕ) → is_among name names.keys
        ≡ list_any (needs_name (map (λ platform. platform.items) platforms.now) name asked.now.keys) db.now) }
{
    let mut names = IndexSet::new(alloc);
    for entry in db.entries() {
        add_needed(alloc, &mut names, entry, asked, platforms)?;
    }
    Ok(names)
}

// Whether an entry has a depend on its own binary parts.
fn has_parts(alloc: Global, entry: &Object) -> Result<bool, AllocError>
    ensures { IfOk result (λ has. has ≡ is_among (entry.now.name ++ codes ".ARCH") entry.now.depends) }
{
    let mut wanted = Vec::from_slice(alloc, entry.name.bytes())?;
    wanted.extend_from_slice(b".ARCH")?;
    Ok(
        entry
            .depends
            .as_slice()
            .iter()
            .any(|depend| wanted.as_slice() == depend.bytes()),
    )
}

/// Adds the binary parts of an entry.
pub fn add_parts(
    alloc: Global,
    parts: &mut IndexSet<Name>,
    entry: &Object,
    platforms: &[Vec<u8>],
) -> Result<(), AllocError>
    ensures { OnOk result (parts.new.keys ≡ insert_all bytes_eq parts.old.keys
        (binary_parts (map (λ platform. platform.items) platforms.now) entry.now)) }
{
    if has_parts(alloc, entry)? {
        add_on_platforms(alloc, parts, entry.name.bytes(), platforms)
    } else {
        Ok(())
    }
}

impl Wanted {
    /// What is wanted where some names are asked for. It takes time in proportion to the entries and their depends.
    pub fn of(
        alloc: Global,
        db: &Db,
        names: &[Name],
        platforms: &[Vec<u8>],
    ) -> Result<Wanted, AllocError>
        requires { map (λ platform. platform.items) platforms.now ≡ tree_platforms db.now }
        ensures { IfOk result (λ wanted. AreWanted db.now names.now wanted) }
    {
        let asked = name_set(alloc, names)?;
        let gathered = gathered_names(alloc, db, &asked, platforms)?;
        let needed = needed_names(alloc, db, &asked, platforms)?;
        Ok(Wanted {
            asked,
            gathered,
            needed,
        })
    }

    // Whether an installed package leaves for itself.
    fn leaves_itself(&self, entry: &Object) -> bool
        ensures { result ≡ leaves_by self.now entry.now }
    {
        self.asked.contains(&entry.name)
            || (!is_meta(entry.category)
                && self.gathered.contains(&entry.name)
                && !self.needed.contains(&entry.name))
    }

    // The binary parts of what leaves for itself.
    fn parts(
        &self,
        alloc: Global,
        db: &Db,
        platforms: &[Vec<u8>],
    ) -> Result<IndexSet<Name>, AllocError>
        ensures { IfOk result (λ parts. parts.keys ≡ insert_all bytes_eq []
            (parts_by (leaves_by self.now) (map (λ platform. platform.items) platforms.now) db.now)) }
    {
        let mut parts = IndexSet::new(alloc);
        for entry in db.entries() {
            if self.leaves_itself(entry) {
                add_parts(alloc, &mut parts, entry, platforms)?;
            }
        }
        Ok(parts)
    }

    // Whether an installed package leaves, for itself or as one of these parts.
    fn leaves(&self, entry: &Object, parts: &IndexSet<Name>) -> bool
        ensures { result ≡ leaves_with (leaves_by self.now) parts.now.keys entry.now }
    {
        !is_protected(&entry.name) && (self.leaves_itself(entry) || parts.contains(&entry.name))
    }

    // The names that leave, for themselves or as one of these parts.
    fn names_with(
        &self,
        alloc: Global,
        db: &Db,
        parts: &IndexSet<Name>,
    ) -> Result<IndexSet<Name>, AllocError>
        ensures { IfOk result (λ names. names.keys ≡ insert_all bytes_eq [] (names_by (leaves_by self.now) parts.now.keys db.now)) }
    {
        let mut names = IndexSet::new(alloc);
        for entry in db.entries() {
            if self.leaves(entry, parts) {
                names.insert(entry.name.clone()?)?;
            }
        }
        Ok(names)
    }

    /// The names that leave where some are asked for. It takes time in proportion to the entries and
    /// their depends.
    pub fn leaving(
        &self,
        alloc: Global,
        db: &Db,
        platforms: &[Vec<u8>],
    ) -> Result<IndexSet<Name>, AllocError>
        requires { map (λ platform. platform.items) platforms.now ≡ tree_platforms db.now }
        ensures { IfOk result (λ leaving. (names : List (List ℕ)) → AreWanted db.now names self.now
            → leaving.keys ≡ insert_all bytes_eq [] (leaving_names db.now names)) }
    {
        let parts = self.parts(alloc, db, platforms)?;
        self.names_with(alloc, db, &parts)
    }

    /// The least name of a collection or a scheme that isn't asked for and has a depend that stands for a name.
    pub fn needing<'d>(&self, db: &'d Db, name: &Name) -> Option<&'d Name>
        ensures { (names : List (List ℕ)) → AreWanted db.now names self.now → option_copied result ≡ needed_by db.now name.now names }
    {
        if self.needed.contains(name) {
            needed_by(db, name, &self.asked)
        } else {
            None
        }
    }
}
