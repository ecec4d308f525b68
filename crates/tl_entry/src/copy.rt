//! Copies of entries and of their parts.
ghost use Rattle.std.specs.Prelude.{◌≡◌, IfOk};
ghost use Rattle.tl_entry.specs.Copies.{less_containers};

use crate::lists::{BinList, DocFileList, Facts, Texts};
use crate::object::{BinFiles, Container, DocFile, DocFiles, Fact, Files, Object};
use std::alloc::{AllocError, Global};
use tl_path::Path;
use tl_text::Text;

/// What another equal value is made of.
pub trait Copied {
    /// An equal value.
    fn copied(&self, alloc: Global) -> Result<Self, AllocError>
        ensures { IfOk result (λ copy. copy ≡ self.now) };
}

/// Values that equal those of a slice, in its order.
pub fn copies<T: Copied + Drop>(alloc: Global, items: &[T]) -> Result<Vec<T>, AllocError>
    ensures { IfOk result (λ copies. copies.items ≡ items.now) }
{
    let mut copies = Vec::with_capacity(alloc, items.len())?;
    for item in items {
        copies.push(item.copied(alloc)?)?;
    }
    Ok(copies)
}

impl Copied for Text {
    fn copied(&self, alloc: Global) -> Result<Text, AllocError> {
        self.try_clone(alloc)
    }
}

impl Copied for Path {
    fn copied(&self, _alloc: Global) -> Result<Path, AllocError> {
        self.clone()
    }
}

impl Copied for DocFile {
    fn copied(&self, alloc: Global) -> Result<DocFile, AllocError> {
        Ok(DocFile {
            path: self.path.clone()?,
            details: copy_of_text(alloc, &self.details)?,
            language: copy_of_text(alloc, &self.language)?,
        })
    }
}

impl Copied for Fact {
    fn copied(&self, alloc: Global) -> Result<Fact, AllocError> {
        Ok(Fact {
            key: self.key.try_clone(alloc)?,
            value: self.value.try_clone(alloc)?,
        })
    }
}

impl Copied for BinFiles {
    fn copied(&self, alloc: Global) -> Result<BinFiles, AllocError> {
        Ok(BinFiles {
            platform: self.platform.clone()?,
            blocks: self.blocks,
            paths: self.paths.copy(alloc)?,
        })
    }
}

impl Copied for Object {
    fn copied(&self, alloc: Global) -> Result<Object, AllocError> {
        self.copy(alloc)
    }
}

fn copy_of_text(alloc: Global, text: &Option<Text>) -> Result<Option<Text>, AllocError>
    ensures { IfOk result (λ copy. copy ≡ text.now) }
{
    match text {
        Some(text) => Ok(Some(text.try_clone(alloc)?)),
        None => Ok(None),
    }
}

impl Texts {
    /// An equal list.
    pub fn copy(&self, alloc: Global) -> Result<Texts, AllocError>
        ensures { IfOk result (λ copy. copy ≡ self.now) }
    {
        Ok(Texts::new(copies(alloc, self.as_slice())?))
    }
}

impl Facts {
    /// An equal list.
    pub fn copy(&self, alloc: Global) -> Result<Facts, AllocError>
        ensures { IfOk result (λ copy. copy ≡ self.now) }
    {
        Ok(Facts::new(copies(alloc, self.as_slice())?))
    }
}

impl DocFileList {
    /// An equal list.
    pub fn copy(&self, alloc: Global) -> Result<DocFileList, AllocError>
        ensures { IfOk result (λ copy. copy ≡ self.now) }
    {
        Ok(DocFileList::new(copies(alloc, self.as_slice())?))
    }
}

impl BinList {
    /// An equal list.
    pub fn copy(&self, alloc: Global) -> Result<BinList, AllocError>
        ensures { IfOk result (λ copy. copy ≡ self.now) }
    {
        Ok(BinList::new(copies(alloc, self.as_slice())?))
    }
}

impl Files {
    /// The same files once more.
    pub fn copy(&self, alloc: Global) -> Result<Files, AllocError>
        ensures { IfOk result (λ copy. copy ≡ self.now) }
    {
        Ok(Files {
            blocks: self.blocks,
            paths: self.paths.copy(alloc)?,
        })
    }
}

impl DocFiles {
    /// The same files once more.
    pub fn copy(&self, alloc: Global) -> Result<DocFiles, AllocError>
        ensures { IfOk result (λ copy. copy ≡ self.now) }
    {
        Ok(DocFiles {
            blocks: self.blocks,
            files: self.files.copy(alloc)?,
        })
    }
}

const NO_CONTAINER: Container = Container {
    size: None,
    digest: None,
};

impl Object {
    /// The entry without what is known of its three containers.
    pub fn less_containers(&self, alloc: Global) -> Result<Object, AllocError>
        ensures { IfOk result (λ less. less ≡ less_containers self.now) }
    {
        Ok(Object {
            name: self.name.clone()?,
            category: self.category,
            revision: self.revision,
            catalogue: copy_of_text(alloc, &self.catalogue)?,
            shortdesc: copy_of_text(alloc, &self.shortdesc)?,
            relocated: self.relocated,
            longdesc: self.longdesc.copy(alloc)?,
            depends: self.depends.copy(alloc)?,
            executes: self.executes.copy(alloc)?,
            postactions: self.postactions.copy(alloc)?,
            run_box: NO_CONTAINER,
            doc_box: NO_CONTAINER,
            src_box: NO_CONTAINER,
            doc: self.doc.copy(alloc)?,
            src: self.src.copy(alloc)?,
            run: self.run.copy(alloc)?,
            bin: self.bin.copy(alloc)?,
            catalogue_facts: self.catalogue_facts.copy(alloc)?,
        })
    }

    /// An equal entry.
    pub fn copy(&self, alloc: Global) -> Result<Object, AllocError>
        ensures { IfOk result (λ copy. copy ≡ self.now) }
    {
        let mut copy = self.less_containers(alloc)?;
        copy.run_box = self.run_box;
        copy.doc_box = self.doc_box;
        copy.src_box = self.src_box;
        Ok(copy)
    }
}
