//! The forms of the kinds.
ghost use Rattle.std.specs.Prelude.{◌≡◌, true, false, MatchResult, MatchOption, IfOk, OnOk, map, ◌++◌, ◌∷◌, []};
ghost use Rattle.std.specs.List.{list_all, list_any, slice_split};
ghost use Rattle.tl_model.specs.Words.{is_blank, fields};
ghost use Rattle.tl_path.specs.Components.{components};
ghost use Rattle.tl_pattern.specs.declared.kind.PatternKind.TheVariants.{F, D, T, R};
ghost use Rattle.tl_pattern.specs.Form.{HasForm, folder_of, is_path, is_component, is_wild, has_plain_folder, last_of};
ghost use Rattle.tl_pattern.specs.Answers.{Compiles, IsFormError};
ghost use Rattle.tl_pattern.specs.Inside.{IsMadeOf, kind_of};

use crate::error::PatternError;
use crate::kind::PatternKind;
use std::alloc::{AllocError, Global};
use tl_glob::{Glob, GlobError};
use tl_path::{Path, PathError};
use tl_regexp::{Regexp, Regexps};

// What is kept of a pattern: the path of a file with the glob that its last component is, a folder, the words before a name, or a
// regular expression.
#[derive(Drop)]
pub(crate) enum Form {
    File { path: Path, glob: Glob },
    Folder(Path),
    Tree { words: Vec<Path>, name: Path },
    Expression(Regexp),
}

fn is_wild(byte: u8) -> bool
    ensures { result ≡ is_wild byte }
{
    byte == b'*' || byte == b'?'
}

fn has_wild_bytes(text: &[u8]) -> bool
    ensures { result ≡ list_any is_wild text.now }
{
    text.iter().any(|byte| is_wild(*byte))
}

// A path's last component, unless one before it has a byte that stands for others.
fn glob_of(path: &Path) -> Option<&[u8]>
    ensures { MatchOption result (has_plain_folder (components path.now) ≡ false)
        (λ glob. (has_plain_folder (components path.now) ≡ true) × (glob.now ≡ last_of (components path.now))) }
{
    let mut last: &[u8] = &[];
    for component in path.components() {
        if has_wild_bytes(last) {
            return None;
        }
        last = component;
    }
    Some(last)
}

fn path_of(alloc: Global, text: &[u8]) -> Result<Path, PatternError>
    ensures { MatchResult result (λ path. (path ≡ text.now) × (is_path text.now ≡ true)) (IsFormError (is_path text.now ≡ true)) }
{
    match Path::parse(alloc, text) {
        Ok(path) => Ok(path),
        Err(PathError::BadPath { .. }) => Err(PatternError::BadPath),
        Err(PathError::NoMemory) => Err(PatternError::NoMemory),
    }
}

fn file_form(alloc: Global, text: &[u8]) -> Result<Form, PatternError>
    ensures { MatchResult result (λ form. (kind_of form ≡ F) × IsMadeOf text.now form) (IsFormError (HasForm F text.now)) }
{
    let path = path_of(alloc, text)?;
    let Some(glob) = glob_of(&path) else {
        return Err(PatternError::BadPath);
    };
    match Glob::parse(alloc, glob) {
        Ok(glob) => Ok(Form::File { path, glob }),
        Err(GlobError::Empty) => Err(PatternError::BadPath),
        Err(GlobError::NoMemory) => Err(PatternError::NoMemory),
    }
}

fn without_slash(text: &[u8]) -> &[u8]
    ensures { result.now ≡ folder_of text.now }
{
    match text.strip_suffix(b"/") {
        Some(folder) => folder,
        None => text,
    }
}

fn folder_form(alloc: Global, text: &[u8]) -> Result<Form, PatternError>
    ensures { MatchResult result (λ form. (kind_of form ≡ D) × IsMadeOf text.now form) (IsFormError (HasForm D text.now)) }
{
    let path = path_of(alloc, without_slash(text))?;
    Ok(Form::Folder(path))
}

fn parts_of(alloc: Global, text: &[u8]) -> Result<Vec<&[u8]>, AllocError>
    ensures { IfOk result (λ parts. map (λ p. p.now) parts.items ≡ slice_split is_blank text.now) }
{
    text.split(|byte| *byte == b' ' || *byte == b'\t')
        .collect(alloc)
}

// The path of one component.
fn component_of(alloc: Global, text: &[u8]) -> Result<Path, PatternError>
    ensures { MatchResult result (λ path. (path ≡ text.now) × (is_component text.now ≡ true)) (IsFormError (is_component text.now ≡ true)) }
{
    if text.contains(&b'/') {
        return Err(PatternError::BadPath);
    }
    path_of(alloc, text)
}

fn push(words: &mut Vec<Path>, word: Path) -> Result<(), AllocError>
    ensures { OnOk result (words.new.items ≡ words.old.items ++ word ∷ []) }
{
    words.push(word)?;
    Ok(())
}

// The words of a text, each of which is a component.
fn words_of(alloc: Global, text: &[u8]) -> Result<Vec<Path>, PatternError>
    ensures { MatchResult result (λ words. (words.items ≡ fields text.now) × (list_all is_component (fields text.now) ≡ true))
        (IsFormError (list_all is_component (fields text.now) ≡ true)) }
{
    let parts = parts_of(alloc, text)?;
    let mut words = Vec::new(alloc);
    for part in &parts {
        if !part.is_empty() {
            let word = component_of(alloc, part)?;
            push(&mut words, word)?;
        }
    }
    Ok(words)
}

fn tree_form(alloc: Global, text: &[u8]) -> Result<Form, PatternError>
    ensures { MatchResult result (λ form. (kind_of form ≡ T) × IsMadeOf text.now form) (IsFormError (HasForm T text.now)) }
{
    let mut words = words_of(alloc, text)?;
    if words.len() < 2 {
        return Err(PatternError::BadPath);
    }
    match words.pop() {
        Some(name) => Ok(Form::Tree { words, name }),
        None => Err(PatternError::BadPath),
    }
}

fn expression_form(alloc: Global, text: &[u8], regexps: &mut Regexps) -> Result<Form, PatternError>
    ensures made { IfOk result (λ form. (kind_of form ≡ R) × IsMadeOf text.now form) }
    ensures answer { Compiles R text.now regexps.old regexps.new result }
{
    let Ok(text) = std::str::from_utf8(text) else {
        return Err(PatternError::BadPath);
    };
    let regexp = regexps.make(alloc, text)?;
    Ok(Form::Expression(regexp))
}

pub(crate) fn form_of(
    alloc: Global,
    kind: PatternKind,
    text: &[u8],
    regexps: &mut Regexps,
) -> Result<Form, PatternError>
    ensures made { IfOk result (λ form. (kind_of form ≡ kind) × IsMadeOf text.now form) }
    ensures answer { Compiles kind text.now regexps.old regexps.new result }
{
    match kind {
        PatternKind::F => file_form(alloc, text),
        PatternKind::D => folder_form(alloc, text),
        PatternKind::T => tree_form(alloc, text),
        PatternKind::R => expression_form(alloc, text, regexps),
    }
}
