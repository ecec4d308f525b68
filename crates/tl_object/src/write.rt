//! The writing of an entry.
ghost use Rattle.std.specs.Prelude.{◌≡◌, ◌^◌, ◌<◌, ◌==◌, ◌++◌, ◌∷◌, [], not, true, Ok, All, OnOk, IfOk, codes};
ghost use Rattle.std.specs.List.{flat_map, list_all};
ghost use Rattle.tl_model.specs.Decimal.{decimal_text};
ghost use Rattle.tl_model.specs.Lines.{IsLine};
ghost use Rattle.tl_model.specs.Acks.{IsPlain};
ghost use Rattle.hex.specs.Hex.{encode_lower};
ghost use Rattle.tl_text.specs.Texts.{IsText};
ghost use Rattle.tl_path.specs.Path.{IsPath};
ghost use Rattle.tl_path.specs.Names.{is_platform};
ghost use Rattle.tl_entry.specs.Rising.{is_rising};
ghost use Rattle.tl_object.specs.Plain.{is_key};
ghost use Rattle.tl_object.specs.Formed.{IsFormedText, IsFormedSize, IsDigest, IsFormedDigest, IsFormedBox, IsFormedFile, IsFormedDoc, IsFormedSection, IsFormedBin, IsFormedFact, HasFormedFront, HasFormedTexts, HasFormedFiles};
ghost use Rattle.tl_object.specs.Again.{ReadsAgain};
ghost use Rattle.tl_object.specs.Reading.{entry_of};
ghost use Rattle.tl_object.specs.Writing.{key_line, number_line, text_line, text_lines, category_word, size_line, digest_line, container_lines, path_line, mark_text, file_line, section_line, files_lines, doc_lines, bin_line, bin_lines, relocated_line, fact_line, first_lines, middle_lines, file_lines, object_text};

use hex::encode_to_slice;
use itoa::Buffer;
use std::alloc::{AllocError, Global};
use tl_entry::{BinFiles, Container, DocFile, DocFiles, Fact, Files, Object, Paths};
use tl_path::{Category, PathRef};
use tl_text::Text;

#[tactic(auto, unfolding(crate::specs::Writing::key_line))]
fn put_words(out: &mut Vec<u8>, key: &[u8], value: &[u8]) -> Result<(), AllocError>
    ensures { OnOk result (out.new.items ≡ out.old.items ++ key_line key.now value.now) }
{
    out.extend_from_slice(key)?;
    out.push(b' ')?;
    out.extend_from_slice(value)?;
    out.push(b'\n')?;
    Ok(())
}

fn put_line(out: &mut Vec<u8>, key: &[u8], value: &[u8]) -> Result<(), AllocError>
    requires begins { is_key key.now ≡ true }
    requires line { IsLine value.now }
    ensures written { OnOk result (out.new.items ≡ out.old.items ++ key_line key.now value.now) }
    ensures plain { OnOk result (IsPlain out.old.items → IsPlain out.new.items) }
{
    put_words(out, key, value)
}

fn put_decimal(out: &mut Vec<u8>, n: u64) -> Result<(), AllocError>
    ensures { OnOk result (out.new.items ≡ out.old.items ++ decimal_text n) }
{
    let mut buffer = Buffer::new();
    out.extend_from_slice(buffer.format(n).as_bytes())
}

fn put_number(out: &mut Vec<u8>, key: &[u8], n: u64) -> Result<(), AllocError>
    requires { is_key key.now ≡ true }
    ensures written { OnOk result (out.new.items ≡ out.old.items ++ number_line key.now n) }
    ensures plain { OnOk result (IsPlain out.old.items → IsPlain out.new.items) }
{
    let mut buffer = Buffer::new();
    put_line(out, key, buffer.format(n).as_bytes())
}

fn put_text(out: &mut Vec<u8>, key: &[u8], text: &Option<Text>) -> Result<(), AllocError>
    requires { is_key key.now ≡ true }
    ensures written { OnOk result (out.new.items ≡ out.old.items ++ text_line key.now text.now) }
    ensures plain { OnOk result (IsPlain out.old.items → IsPlain out.new.items) }
    ensures formed { OnOk result (IsFormedText text.now) }
{
    match text {
        Some(text) => put_line(out, key, text.bytes()),
        None => Ok(()),
    }
}

fn put_texts(out: &mut Vec<u8>, key: &[u8], texts: &[Text]) -> Result<(), AllocError>
    requires { is_key key.now ≡ true }
    ensures written { OnOk result (out.new.items ≡ out.old.items ++ text_lines key.now texts.now) }
    ensures plain { OnOk result (IsPlain out.old.items → IsPlain out.new.items) }
    ensures formed { OnOk result (All IsText texts.now) }
{
    for text in texts {
        put_line(out, key, text.bytes())?;
    }
    Ok(())
}

fn category_word(category: Category) -> &'static [u8]
    ensures { result.now ≡ category_word category }
{
    match category {
        Category::Package => b"Package",
        Category::TLCore => b"TLCore",
        Category::ConTeXt => b"ConTeXt",
        Category::Collection => b"Collection",
        Category::Scheme => b"Scheme",
    }
}

fn put_size(out: &mut Vec<u8>, key: &[u8], size: Option<u64>) -> Result<(), AllocError>
    requires { is_key key.now ≡ true }
    ensures written { OnOk result (out.new.items ≡ out.old.items ++ size_line key.now size) }
    ensures plain { OnOk result (IsPlain out.old.items → IsPlain out.new.items) }
    ensures formed { IsFormedSize size }
{
    match size {
        Some(size) => put_number(out, key, size),
        None => Ok(()),
    }
}

fn put_digits(out: &mut Vec<u8>, key: &[u8], digest: [u8; 64]) -> Result<(), AllocError>
    requires { is_key key.now ≡ true }
    ensures written { OnOk result (out.new.items ≡ out.old.items ++ key_line key.now (encode_lower digest)) }
    ensures plain { OnOk result (IsPlain out.old.items → IsPlain out.new.items) }
    ensures formed { IsDigest digest }
{
    let mut digits = [0u8; 128];
    match encode_to_slice(digest.as_slice(), &mut digits) {
        Ok(()) => put_line(out, key, &digits),
        Err(_) => unreachable!(),
    }
}

fn put_digest(out: &mut Vec<u8>, key: &[u8], digest: &Option<[u8; 64]>) -> Result<(), AllocError>
    requires { is_key key.now ≡ true }
    ensures written { OnOk result (out.new.items ≡ out.old.items ++ digest_line key.now digest.now) }
    ensures plain { OnOk result (IsPlain out.old.items → IsPlain out.new.items) }
    ensures formed { OnOk result (IsFormedDigest digest.now) }
{
    match digest {
        Some(digest) => put_digits(out, key, *digest),
        None => Ok(()),
    }
}

fn put_container(
    out: &mut Vec<u8>,
    size_key: &[u8],
    digest_key: &[u8],
    container: &Container,
) -> Result<(), AllocError>
    requires size { is_key size_key.now ≡ true }
    requires digest { is_key digest_key.now ≡ true }
    ensures written { OnOk result (out.new.items ≡ out.old.items ++ container_lines size_key.now digest_key.now container.now) }
    ensures plain { OnOk result (IsPlain out.old.items → IsPlain out.new.items) }
    ensures formed { OnOk result (IsFormedBox container.now) }
{
    put_size(out, size_key, container.size)?;
    put_digest(out, digest_key, &container.digest)
}

#[tactic(auto, unfolding(crate::specs::Writing::path_line))]
fn put_path(out: &mut Vec<u8>, path: PathRef<'_>) -> Result<(), AllocError>
    ensures written { OnOk result (out.new.items ≡ out.old.items ++ path_line path.entry) }
    ensures plain { OnOk result (IsPlain (path_line path.entry)) }
    ensures formed { OnOk result (IsPath path.entry) }
{
    out.push(b' ')?;
    out.extend_from_slice(path.bytes())?;
    out.push(b'\n')?;
    Ok(())
}

fn put_paths(out: &mut Vec<u8>, paths: &Paths) -> Result<(), AllocError>
    ensures written { OnOk result (out.new.items ≡ out.old.items ++ flat_map path_line paths.now) }
    ensures plain { OnOk result (IsPlain out.old.items → IsPlain out.new.items) }
    ensures formed { OnOk result (All IsPath paths.now) }
    ensures rising { is_rising (λ path. path) paths.now ≡ true }
{
    for index in 0..paths.len() {
        put_path(out, paths.at(index))?;
    }
    Ok(())
}

fn put_mark(out: &mut Vec<u8>, word: &[u8], mark: &Option<Text>) -> Result<(), AllocError>
    requires { list_all (λ b. not (b == 10)) word.now ≡ true }
    ensures written { OnOk result (out.new.items ≡ out.old.items ++ mark_text word.now mark.now) }
    ensures line { OnOk result (IsLine (mark_text word.now mark.now)) }
    ensures formed { OnOk result (IsFormedText mark.now) }
{
    if let Some(text) = mark {
        out.push(b' ')?;
        out.extend_from_slice(word)?;
        out.extend_from_slice(text.bytes())?;
        out.push(b'"')?;
    }
    Ok(())
}

#[tactic(auto, unfolding(crate::specs::Writing::file_line))]
fn put_file(out: &mut Vec<u8>, file: &DocFile) -> Result<(), AllocError>
    ensures written { OnOk result (out.new.items ≡ out.old.items ++ file_line file.now) }
    ensures plain { OnOk result (IsPlain (file_line file.now)) }
    ensures formed { OnOk result (IsFormedFile file.now) }
{
    out.push(b' ')?;
    out.extend_from_slice(file.path.bytes())?;
    put_mark(out, b"details=\"", &file.details)?;
    put_mark(out, b"language=\"", &file.language)?;
    out.push(b'\n')?;
    Ok(())
}

fn put_doc_files(out: &mut Vec<u8>, files: &[DocFile]) -> Result<(), AllocError>
    ensures written { OnOk result (out.new.items ≡ out.old.items ++ flat_map file_line files.now) }
    ensures plain { OnOk result (IsPlain out.old.items → IsPlain out.new.items) }
    ensures formed { OnOk result (All IsFormedFile files.now) }
{
    for file in files {
        put_file(out, file)?;
    }
    Ok(())
}

#[tactic(auto, unfolding(crate::specs::Writing::section_line))]
fn put_section(out: &mut Vec<u8>, key: &[u8], blocks: u64) -> Result<(), AllocError>
    ensures written { OnOk result (out.new.items ≡ out.old.items ++ section_line key.now blocks) }
    ensures digits { OnOk result (IsLine (decimal_text blocks)) }
{
    out.extend_from_slice(key)?;
    out.extend_from_slice(b" size=")?;
    put_decimal(out, blocks)?;
    out.push(b'\n')?;
    Ok(())
}

fn put_files(out: &mut Vec<u8>, key: &[u8], files: &Files) -> Result<(), AllocError>
    requires { is_key key.now ≡ true }
    ensures written { OnOk result (out.new.items ≡ out.old.items ++ files_lines key.now files.now) }
    ensures plain { OnOk result (IsPlain out.old.items → IsPlain out.new.items) }
    ensures formed { OnOk result (IsFormedSection files.now) }
{
    if files.blocks == 0 && files.paths.len() == 0 {
        return Ok(());
    }
    put_section(out, key, files.blocks)?;
    put_paths(out, &files.paths)
}

fn put_doc(out: &mut Vec<u8>, doc: &DocFiles) -> Result<(), AllocError>
    ensures written { OnOk result (out.new.items ≡ out.old.items ++ doc_lines doc.now) }
    ensures plain { OnOk result (IsPlain out.old.items → IsPlain out.new.items) }
    ensures formed { OnOk result (IsFormedDoc doc.now) }
{
    let files = doc.files.as_slice();
    if doc.blocks == 0 && files.is_empty() {
        return Ok(());
    }
    put_section(out, b"docfiles", doc.blocks)?;
    put_doc_files(out, files)
}

fn put_section_behind(
    out: &mut Vec<u8>,
    word: &[u8],
    key: &[u8],
    blocks: u64,
) -> Result<(), AllocError>
    ensures { OnOk result (out.new.items ≡ out.old.items ++ (word.now ++ section_line key.now blocks)) }
{
    out.extend_from_slice(word)?;
    put_section(out, key, blocks)
}

#[tactic(auto, unfolding(crate::specs::Writing::bin_line))]
fn put_bin_line(out: &mut Vec<u8>, platform: &[u8], blocks: u64) -> Result<(), AllocError>
    requires { is_platform platform.now ≡ true }
    ensures written { OnOk result (out.new.items ≡ out.old.items ++ bin_line platform.now blocks) }
    ensures plain { OnOk result (IsPlain out.old.items → IsPlain out.new.items) }
{
    put_section_behind(out, b"binfiles arch=", platform, blocks)
}

fn put_bin(out: &mut Vec<u8>, bin: &BinFiles) -> Result<(), AllocError>
    ensures written { OnOk result (out.new.items ≡ out.old.items ++ bin_lines bin.now) }
    ensures plain { OnOk result (IsPlain out.old.items → IsPlain out.new.items) }
    ensures formed { OnOk result (IsFormedBin bin.now) }
{
    put_bin_line(out, bin.platform.bytes(), bin.blocks)?;
    put_paths(out, &bin.paths)
}

fn put_bins(out: &mut Vec<u8>, bins: &[BinFiles]) -> Result<(), AllocError>
    ensures written { OnOk result (out.new.items ≡ out.old.items ++ flat_map bin_lines bins.now) }
    ensures plain { OnOk result (IsPlain out.old.items → IsPlain out.new.items) }
    ensures formed { OnOk result (All IsFormedBin bins.now) }
{
    for bin in bins {
        put_bin(out, bin)?;
    }
    Ok(())
}

#[tactic(auto, unfolding(crate::specs::Writing::fact_line, crate::specs::Writing::key_line))]
fn put_fact(out: &mut Vec<u8>, fact: &Fact) -> Result<(), AllocError>
    ensures written { OnOk result (out.new.items ≡ out.old.items ++ fact_line fact.now) }
    ensures plain { OnOk result (IsPlain (fact_line fact.now)) }
    ensures formed { OnOk result (IsFormedFact fact.now) }
{
    out.extend_from_slice(b"catalogue-")?;
    put_words(out, fact.key.bytes(), fact.value.bytes())
}

fn put_facts(out: &mut Vec<u8>, facts: &[Fact]) -> Result<(), AllocError>
    ensures written { OnOk result (out.new.items ≡ out.old.items ++ flat_map fact_line facts.now) }
    ensures plain { OnOk result (IsPlain out.old.items → IsPlain out.new.items) }
    ensures formed { OnOk result (All IsFormedFact facts.now) }
{
    for fact in facts {
        put_fact(out, fact)?;
    }
    Ok(())
}

#[tactic(auto, unfolding(crate::specs::Writing::relocated_line))]
fn put_relocated(out: &mut Vec<u8>, relocated: bool) -> Result<(), AllocError>
    ensures written { OnOk result (out.new.items ≡ out.old.items ++ relocated_line relocated) }
    ensures plain { OnOk result (IsPlain out.old.items → IsPlain out.new.items) }
{
    if relocated {
        out.extend_from_slice(b"relocated 1\n")?;
    }
    Ok(())
}

fn put_revision(out: &mut Vec<u8>, revision: u32) -> Result<(), AllocError>
    ensures written { OnOk result (out.new.items ≡ out.old.items ++ number_line (codes "revision") revision) }
    ensures plain { OnOk result (IsPlain out.old.items → IsPlain out.new.items) }
    ensures formed { revision < 2 ^ 32 }
{
    put_number(out, b"revision", u64::from(revision))
}

#[tactic(auto, unfolding(crate::specs::Writing::first_lines))]
fn put_first(out: &mut Vec<u8>, object: &Object) -> Result<(), AllocError>
    ensures written { OnOk result (out.new.items ≡ out.old.items ++ first_lines object.now) }
    ensures plain { OnOk result (IsPlain out.old.items → IsPlain out.new.items) }
    ensures formed { OnOk result (HasFormedFront object.now) }
{
    put_line(out, b"name", object.name.bytes())?;
    put_line(out, b"category", category_word(object.category))?;
    put_revision(out, object.revision)?;
    put_text(out, b"catalogue", &object.catalogue)?;
    put_text(out, b"shortdesc", &object.shortdesc)?;
    put_relocated(out, object.relocated)
}

#[tactic(auto, unfolding(crate::specs::Writing::middle_lines))]
fn put_middle(out: &mut Vec<u8>, object: &Object) -> Result<(), AllocError>
    ensures written { OnOk result (out.new.items ≡ out.old.items ++ middle_lines object.now) }
    ensures plain { OnOk result (IsPlain out.old.items → IsPlain out.new.items) }
    ensures formed { OnOk result (HasFormedTexts object.now) }
{
    put_texts(out, b"longdesc", object.longdesc.as_slice())?;
    put_texts(out, b"depend", object.depends.as_slice())?;
    put_texts(out, b"execute", object.executes.as_slice())?;
    put_texts(out, b"postaction", object.postactions.as_slice())
}

fn put_all_files(out: &mut Vec<u8>, object: &Object) -> Result<(), AllocError>
    ensures written { OnOk result (out.new.items ≡ out.old.items ++ file_lines object.now) }
    ensures plain { OnOk result (IsPlain out.old.items → IsPlain out.new.items) }
    ensures formed { OnOk result (HasFormedFiles object.now) }
{
    put_container(out, b"containersize", b"containerchecksum", &object.run_box)?;
    put_container(
        out,
        b"doccontainersize",
        b"doccontainerchecksum",
        &object.doc_box,
    )?;
    put_doc(out, &object.doc)?;
    put_container(
        out,
        b"srccontainersize",
        b"srccontainerchecksum",
        &object.src_box,
    )?;
    put_files(out, b"srcfiles", &object.src)?;
    put_files(out, b"runfiles", &object.run)?;
    put_bins(out, object.bin.as_slice())
}

/// Writes the text of an entry behind what was written before. Its lines read as the entry again, wherever they stand.
pub fn append_object(out: &mut Vec<u8>, object: &Object) -> Result<(), AllocError>
    ensures written { OnOk result (out.new.items ≡ out.old.items ++ object_text object.now) }
    ensures plain { OnOk result (IsPlain out.old.items → IsPlain out.new.items) }
    ensures again { OnOk result (ReadsAgain object.now) }
{
    put_first(out, object)?;
    put_middle(out, object)?;
    put_all_files(out, object)?;
    put_facts(out, object.catalogue_facts.as_slice())
}

/// The text of an entry, each line with its end. It reads as the entry again.
pub fn write_object(alloc: Global, object: &Object) -> Result<Vec<u8>, AllocError>
    ensures text { IfOk result (λ text. text.items ≡ object_text object.now) }
    ensures plain { IfOk result (λ text. IsPlain text.items) }
    ensures reads { IfOk result (λ text. entry_of text.items ≡ Ok object.now) }
{
    let mut out = Vec::new(alloc);
    append_object(&mut out, object)?;
    Ok(out)
}
