//! The parts of an entry, as its lines are read.
ghost use Rattle.std.specs.Prelude.{◌≡◌, [], None, OnOk, IfOk, map, true, false, unwrap_or};
ghost use Rattle.tl_path.specs.declared.kinds.Category.TheVariants.{Package};
ghost use Rattle.tl_entry.specs.Sections.{no_files, no_doc_files};

use crate::head::Head;
use crate::key::Part;
use std::alloc::{AllocError, Global};
use tl_entry::{
    BinFiles, BinList, Container, DocFileList, DocFiles, Facts, Files, Gathered, Object, Paths,
    Texts,
};
use tl_path::{Category, Name, Platform};
use tl_text::Text;

/// What some lines of an entry gave; what none of them gave is `None` or empty.
#[derive(Drop)]
pub struct Builder {
    pub name: Name,
    pub category: Option<Category>,
    pub revision: Option<u32>,
    pub catalogue: Option<Text>,
    pub shortdesc: Option<Text>,
    pub relocated: Option<bool>,
    pub longdesc: Texts,
    pub depends: Texts,
    pub executes: Texts,
    pub postactions: Texts,
    pub run_box: Container,
    pub doc_box: Container,
    pub src_box: Container,
    pub doc: Option<DocFiles>,
    pub src: Option<Files>,
    pub run: Option<Files>,
    pub bin: Gathered<BinFiles>,
    pub catalogue_facts: Facts,
}

const NO_CONTAINER: Container = Container {
    size: None,
    digest: None,
};

impl Builder {
    ghost use Rattle.tl_object.specs.declared.head.Head.TheVariants as heads;
    ghost use Rattle.tl_entry.specs.Rising.{has_key};
    ghost use Rattle.tl_object.specs.Built.{built, put, finished};
    ghost use Rattle.tl_object.specs.Known.{is_known, container_of};
    ghost use Rattle.tl_object.specs.Reading.{place_of, Nowhere};
    ghost use Rattle.tl_object.specs.Steps.{bare};

    /// The parts of an entry of which the name alone is known.
    pub(crate) fn new(alloc: Global, name: Name) -> Builder
        ensures { result ≡ record (built []) { name = name } }
    {
        Builder {
            name,
            category: None,
            revision: None,
            catalogue: None,
            shortdesc: None,
            relocated: None,
            longdesc: Texts::new(Vec::new(alloc)),
            depends: Texts::new(Vec::new(alloc)),
            executes: Texts::new(Vec::new(alloc)),
            postactions: Texts::new(Vec::new(alloc)),
            run_box: NO_CONTAINER,
            doc_box: NO_CONTAINER,
            src_box: NO_CONTAINER,
            doc: None,
            src: None,
            run: None,
            bin: Gathered::new(alloc),
            catalogue_facts: Facts::new(Vec::new(alloc)),
        }
    }

    fn container(&self, part: Part) -> &Container
        ensures { result.now ≡ container_of self.now part }
    {
        match part {
            Part::Run => &self.run_box,
            Part::Doc => &self.doc_box,
            Part::Src => &self.src_box,
        }
    }

    /// Whether what a line says stands among the parts already, where it may stand once.
    pub(crate) fn is_known(&self, head: &Head) -> bool
        ensures { result ≡ is_known self.now head.now }
    {
        match head {
            Head::Name(_) => true,
            Head::Category(_) => self.category.is_some(),
            Head::Revision(_) => self.revision.is_some(),
            Head::Catalogue(_) => self.catalogue.is_some(),
            Head::Shortdesc(_) => self.shortdesc.is_some(),
            Head::Relocated(_) => self.relocated.is_some(),
            Head::Size(part, _) => self.container(*part).size.is_some(),
            Head::Digest(part, _) => self.container(*part).digest.is_some(),
            Head::Files(Part::Run, _) => self.run.is_some(),
            Head::Files(Part::Doc, _) => self.doc.is_some(),
            Head::Files(Part::Src, _) => self.src.is_some(),
            Head::Binfiles(platform, _) => self.bin.has(platform.bytes()),
            _ => false,
        }
    }

    /// Takes a section of binaries, for a platform that isn't known yet.
    pub(crate) fn put_bin(
        &mut self,
        alloc: Global,
        platform: Platform,
        blocks: u64,
        paths: Paths,
    ) -> Result<(), AllocError>
        requires { has_key (λ b. b.platform) platform self.old.bin ≡ false }
        ensures { OnOk result (self.new ≡ put self.old (heads.Binfiles platform blocks) (map bare paths)) }
    {
        let bin = BinFiles {
            platform,
            blocks,
            paths,
        };
        self.bin.put(alloc, bin)?;
        Ok(())
    }

    fn put_size(&mut self, part: Part, size: u64)
        ensures { self.new ≡ put self.old (heads.Size part size) [] }
    {
        match part {
            Part::Run => self.run_box.size = Some(size),
            Part::Doc => self.doc_box.size = Some(size),
            Part::Src => self.src_box.size = Some(size),
        }
    }

    fn put_digest(&mut self, part: Part, digest: [u8; 64])
        ensures { self.new ≡ put self.old (heads.Digest part digest) [] }
    {
        match part {
            Part::Run => self.run_box.digest = Some(digest),
            Part::Doc => self.doc_box.digest = Some(digest),
            Part::Src => self.src_box.digest = Some(digest),
        }
    }

    /// Takes what a line says that no files may follow.
    pub(crate) fn put(&mut self, head: Head) -> Result<(), AllocError>
        requires { place_of head ≡ Nowhere }
        ensures { OnOk result (self.new ≡ put self.old head []) }
    {
        match head {
            Head::Name(name) => self.name = name,
            Head::Category(category) => self.category = Some(category),
            Head::Revision(revision) => self.revision = Some(revision),
            Head::Catalogue(text) => self.catalogue = Some(text),
            Head::Shortdesc(text) => self.shortdesc = Some(text),
            Head::Relocated(flag) => self.relocated = Some(flag),
            Head::Longdesc(text) => self.longdesc.push(text)?,
            Head::Depend(text) => self.depends.push(text)?,
            Head::Execute(text) => self.executes.push(text)?,
            Head::Postaction(text) => self.postactions.push(text)?,
            Head::Size(part, size) => self.put_size(part, size),
            Head::Digest(part, digest) => self.put_digest(part, digest),
            Head::Fact(fact) => self.catalogue_facts.push(fact)?,
            Head::Files(_, _) | Head::Binfiles(_, _) => unreachable!(),
        }
        Ok(())
    }

    /// The entry of these parts.
    pub(crate) fn finish(self, alloc: Global) -> Result<Object, AllocError>
        ensures { IfOk result (λ object. object ≡ finished self) }
    {
        let bin = BinList::new(self.bin.finish()?);
        Ok(Object {
            name: self.name,
            category: self.category.unwrap_or(Category::Package),
            revision: self.revision.unwrap_or(0),
            catalogue: self.catalogue,
            shortdesc: self.shortdesc,
            relocated: self.relocated.unwrap_or(false),
            longdesc: self.longdesc,
            depends: self.depends,
            executes: self.executes,
            postactions: self.postactions,
            run_box: self.run_box,
            doc_box: self.doc_box,
            src_box: self.src_box,
            doc: doc_or_none(alloc, self.doc),
            src: files_or_none(alloc, self.src),
            run: files_or_none(alloc, self.run),
            bin,
            catalogue_facts: self.catalogue_facts,
        })
    }
}

fn doc_or_none(alloc: Global, doc: Option<DocFiles>) -> DocFiles
    ensures { result ≡ unwrap_or doc no_doc_files }
{
    match doc {
        Some(doc) => doc,
        None => DocFiles {
            blocks: 0,
            files: DocFileList::new(Vec::new(alloc)),
        },
    }
}

fn files_or_none(alloc: Global, files: Option<Files>) -> Files
    ensures { result ≡ unwrap_or files no_files }
{
    match files {
        Some(files) => files,
        None => Files {
            blocks: 0,
            paths: Paths::new(alloc),
        },
    }
}
