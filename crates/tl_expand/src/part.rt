//! A package's entry, and its parts for platforms.
ghost use Rattle.std.specs.Prelude.{◌≡◌, ◌++◌, ◌∷◌, [], true, Some, None, if◌then◌else◌, codes, bytes_eq, IfOk, OnOk};
ghost use Rattle.std.specs.List.{list_any};
ghost use Rattle.tl_text.specs.Texts.{is_text};
ghost use Rattle.tl_path.specs.Names.{is_name};
ghost use Rattle.tl_entry.specs.Copies.{no_container};
ghost use Rattle.tl_entry.specs.Sections.{no_files};
ghost use Rattle.tl_expand.specs.Objects.{with_last, arch_depend, depends_of, package_of, part_name, part_of, part_if_named, bin_files_of};

use crate::choice::{Choice, Chosen, has_binaries};
use crate::files::{doc_files_of, files_of};
use std::alloc::{AllocError, Global};
use tl_entry::{
    BinFiles, BinList, Container, DocFileList, DocFiles, Facts, Files, Object, Paths, Texts, copies,
};
use tl_path::{Name, NameError, Platform};
use tl_srctext::SourceFields;
use tl_text::{Text, TextError};

const NO_CONTAINER: Container = Container {
    size: None,
    digest: None,
};

fn joined(alloc: Global, front: &[u8], end: &[u8]) -> Result<Vec<u8>, AllocError>
    ensures { IfOk result (λ all. all.items ≡ front.now ++ end.now) }
{
    let mut all = Vec::from_slice(alloc, front)?;
    all.extend_from_slice(end)?;
    Ok(all)
}

fn joined_text(alloc: Global, front: &[u8], end: &[u8]) -> Result<Text, AllocError>
    requires { is_text (front.now ++ end.now) ≡ true }
    ensures { IfOk result (λ text. text ≡ front.now ++ end.now) }
{
    let all = joined(alloc, front, end)?;
    match Text::parse(alloc, all.as_slice()) {
        Ok(text) => Ok(text),
        Err(TextError::NotText) => unreachable!(),
        Err(TextError::NoMemory) => Err(AllocError),
    }
}

fn has_text(texts: &[Text], text: &[u8]) -> bool
    ensures { result ≡ list_any (λ t. bytes_eq t text.now) texts.now }
{
    texts.iter().any(|other| other.bytes() == text)
}

// The depend that stands for the parts.
fn arch_depend(alloc: Global, name: &Name) -> Result<Text, AllocError>
    ensures { IfOk result (λ depend. depend ≡ arch_depend name.now) }
{
    joined_text(alloc, name.bytes(), b".ARCH")
}

fn copy_of(alloc: Global, texts: &Texts) -> Result<Texts, AllocError>
    ensures { IfOk result (λ copy. copy ≡ texts.now) }
{
    Ok(Texts::new(copies(alloc, texts.as_slice())?))
}

fn copy_of_text(alloc: Global, text: &Option<Text>) -> Result<Option<Text>, AllocError>
    ensures { IfOk result (λ copy. copy ≡ text.now) }
{
    match text {
        Some(text) => Ok(Some(text.try_clone(alloc)?)),
        None => Ok(None),
    }
}

fn with_last(texts: Texts, text: Text) -> Result<Texts, AllocError>
    ensures { IfOk result (λ all. all ≡ with_last text texts) }
{
    let mut texts = texts;
    if !has_text(texts.as_slice(), text.bytes()) {
        texts.push(text)?;
    }
    Ok(texts)
}

fn depends_of(alloc: Global, source: &SourceFields) -> Result<Texts, AllocError>
    ensures { IfOk result (λ depends. depends ≡ depends_of source.now) }
{
    let depends = copy_of(alloc, &source.depends)?;
    if !has_binaries(source) {
        return Ok(depends);
    }
    let depend = arch_depend(alloc, &source.name)?;
    with_last(depends, depend)
}

// The entry of the package itself.
pub(crate) fn package_of(
    alloc: Global,
    source: &SourceFields,
    revision: u32,
    choice: &Choice,
) -> Result<Object, AllocError>
    ensures { IfOk result (λ object. object ≡ package_of source.now revision choice.now) }
{
    Ok(Object {
        name: source.name.clone()?,
        category: source.category,
        revision,
        catalogue: copy_of_text(alloc, &source.catalogue)?,
        shortdesc: copy_of_text(alloc, &source.shortdesc)?,
        relocated: false,
        longdesc: copy_of(alloc, &source.longdesc)?,
        depends: depends_of(alloc, source)?,
        executes: copy_of(alloc, &source.executes)?,
        postactions: copy_of(alloc, &source.postactions)?,
        run_box: NO_CONTAINER,
        doc_box: NO_CONTAINER,
        src_box: NO_CONTAINER,
        doc: doc_files_of(alloc, &choice.doc)?,
        src: files_of(alloc, &choice.src)?,
        run: files_of(alloc, &choice.run)?,
        bin: BinList::new(Vec::new(alloc)),
        catalogue_facts: Facts::new(Vec::new(alloc)),
    })
}

// The name of a part, if it is one.
fn part_name(alloc: Global, name: &Name, platform: &Platform) -> Result<Option<Name>, AllocError>
    ensures { IfOk result (λ part. part ≡ (if is_name (part_name name.now platform.now) then Some (part_name name.now platform.now) else None)) }
{
    let part = format!(in alloc; "{}.{}", name.text(), platform.text())?;
    match Name::parse(alloc, part.as_bytes()) {
        Ok(part) => Ok(Some(part)),
        Err(NameError::BadName { .. }) => Ok(None),
        Err(NameError::NoMemory) => Err(AllocError),
    }
}

fn part_shortdesc(alloc: Global, name: &Name, platform: &Platform) -> Result<Text, AllocError>
    ensures { IfOk result (λ text. text ≡ platform.now ++ codes " files of " ++ name.now) }
{
    let front = joined(alloc, platform.bytes(), b" files of ")?;
    joined_text(alloc, &front, name.bytes())
}

// A platform's binaries, if any is there.
fn bin_list_of(alloc: Global, platform: &Platform, chosen: &Chosen) -> Result<BinList, AllocError>
    ensures { IfOk result (λ bins. bins ≡ bin_files_of platform.now chosen.now) }
{
    let files = files_of(alloc, chosen)?;
    let mut bins = Vec::new(alloc);
    if !files.paths.is_empty() {
        bins.push(BinFiles {
            platform: platform.clone()?,
            blocks: files.blocks,
            paths: files.paths,
        })?;
    }
    Ok(BinList::new(bins))
}

fn no_files(alloc: Global) -> Files
    ensures { result ≡ no_files }
{
    Files {
        blocks: 0,
        paths: Paths::new(alloc),
    }
}

fn no_texts(alloc: Global) -> Texts
    ensures { result ≡ [] }
{
    Texts::new(Vec::new(alloc))
}

// The entry of the part for a platform, by its name.
fn part_of(
    alloc: Global,
    source: &SourceFields,
    name: Name,
    revision: u32,
    platform: &Platform,
    chosen: &Chosen,
) -> Result<Object, AllocError>
    requires { name ≡ part_name source.now.name platform.now }
    ensures { IfOk result (λ object. object ≡ part_of source.now revision platform.now chosen.now) }
{
    Ok(Object {
        name,
        category: source.category,
        revision,
        catalogue: None,
        shortdesc: Some(part_shortdesc(alloc, &source.name, platform)?),
        relocated: false,
        longdesc: no_texts(alloc),
        depends: no_texts(alloc),
        executes: no_texts(alloc),
        postactions: no_texts(alloc),
        run_box: NO_CONTAINER,
        doc_box: NO_CONTAINER,
        src_box: NO_CONTAINER,
        doc: DocFiles {
            blocks: 0,
            files: DocFileList::new(Vec::new(alloc)),
        },
        src: no_files(alloc),
        run: no_files(alloc),
        bin: bin_list_of(alloc, platform, chosen)?,
        catalogue_facts: Facts::new(Vec::new(alloc)),
    })
}

// Adds the part for a platform, if its name is one.
pub(crate) fn push_part(
    alloc: Global,
    source: &SourceFields,
    revision: u32,
    platform: &Platform,
    chosen: &Chosen,
    objects: &mut Vec<Object>,
) -> Result<(), AllocError>
    ensures { OnOk result (objects.new.items ≡ objects.old.items ++ part_if_named source.now revision platform.now chosen.now) }
{
    if let Some(name) = part_name(alloc, &source.name, platform)? {
        let part = part_of(alloc, source, name, revision, platform, chosen)?;
        objects.push(part)?;
    }
    Ok(())
}
