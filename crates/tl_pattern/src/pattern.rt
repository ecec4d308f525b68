//! Patterns as values.
ghost use Rattle.std.specs.Prelude.{◌≡◌, ◌≢◌, IfOk};
ghost use Rattle.tl_model.specs.Causes.{one_more};
ghost use Rattle.tl_pattern.specs.declared.kind.PatternKind.TheVariants.{R};
ghost use Rattle.tl_pattern.specs.Answers.{Compiles};
ghost use Rattle.tl_pattern.specs.Hits.{hits};
ghost use Rattle.tl_pattern.specs.Reaches.{Reaches};

use crate::error::PatternError;
use crate::form::{Form, form_of};
use crate::hits::{hits_file, hits_tree};
use crate::kind::PatternKind;
use std::alloc::{AllocError, Global};
use std::marker::Model;
use tl_host::{Ledger, Steps};
use tl_path::Path;
use tl_regexp::{ReMatcher, Regexps};

/// A pattern. Contracts see its kind and its text.
#[derive(Drop)]
pub struct Pattern {
    pub(crate) text: Vec<u8>,
    pub(crate) form: Form,
}

impl Model for Pattern {
    ghost use Rattle.tl_pattern.specs.Form.{PatternSeen};

    ghost Value = { PatternSeen };

    ghost use Rattle.tl_pattern.specs.Inside.{IsMadeOf, kind_of};

    ghost view = { λ a. record { kind = kind_of a.form; text = a.text.items } };

    ghost invariant = { λ a. IsMadeOf a.text.items a.form };
}

/// A pattern in a list: what it hits is taken, or taken out again.
#[derive(Drop)]
pub struct PlacedPattern {
    pub positive: bool,
    pub pattern: Pattern,
}

/// Where a pattern can hit.
pub enum Reach<'p> {
    /// Directly in the folder of this path, whose last component is a glob.
    File(&'p Path),
    /// Below this folder.
    Folder(&'p Path),
    /// Below the folder of these words, below a folder with this name.
    Tree(&'p [Path], &'p Path),
    /// Anywhere.
    All,
}

/// The pattern of a text. `BadPath` comes exactly where the text hasn't the form of the kind. For a regular expression `Syntax` comes only
/// where the grammar of `regex` reads no pattern from `^`, the text and `$`, or only one that nests too deep, and `Size` only where the
/// count of refusals for size rose; the verdicts follow the answers.
pub fn compile(
    alloc: Global,
    kind: PatternKind,
    text: &[u8],
    regexps: &mut Regexps,
) -> Result<Pattern, PatternError>
    ensures kind { IfOk result (λ pattern. pattern.kind ≡ kind) }
    ensures text { IfOk result (λ pattern. pattern.text ≡ text.now) }
    ensures answer { Compiles kind text.now regexps.old regexps.new result }
{
    let kept = Vec::from_slice(alloc, text)?;
    let form = form_of(alloc, kind, text, regexps)?;
    Ok(Pattern { text: kept, form })
}

/// Whether a pattern of the kind `F`, `D` or `T` hits a path. One tick. Takes no memory.
pub fn matches<L: Ledger>(pattern: &Pattern, path: &Path, steps: &mut Steps<L>) -> bool
    requires { pattern.now.kind ≢ R }
    ensures hit { result ≡ hits pattern.now path.now }
    ensures tick { L.count steps.new ≡ one_more (L.count steps.old) }
{
    steps.tick();
    pattern.is_hit(path)
}

/// What tries paths against a pattern of the kind `R`.
pub fn matcher(alloc: Global, pattern: &Pattern) -> Result<ReMatcher<'_>, AllocError>
    requires { pattern.now.kind ≡ R }
    ensures { IfOk result (λ matcher. matcher ≡ pattern.now.text) }
{
    match &pattern.form {
        Form::Expression(regexp) => regexp.matcher(alloc),
        _ => unreachable!(),
    }
}

/// Whether a pattern of the kind `R` hits a path, with its matcher. One tick. Want of memory is never answered: a matcher has its
/// memory from the start.
pub fn matches_re<L: Ledger>(
    pattern: &Pattern,
    matcher: &mut ReMatcher<'_>,
    path: &Path,
    steps: &mut Steps<L>,
) -> Result<bool, AllocError>
    requires kind { pattern.now.kind ≡ R }
    requires of_it { matcher.old ≡ pattern.now.text }
    ensures hit { IfOk result (λ is_hit. is_hit ≡ hits pattern.now path.now) }
    ensures matcher { matcher.new ≡ matcher.old }
    ensures tick { L.count steps.new ≡ one_more (L.count steps.old) }
{
    steps.tick();
    let _ = pattern;
    Ok(matcher.is_match(path.text()))
}

impl Pattern {
    fn is_hit(&self, path: &Path) -> bool
        requires { self.now.kind ≢ R }
        ensures { result ≡ hits self.now path.now }
    {
        match &self.form {
            Form::File { path: file, glob } => hits_file(file, glob, path),
            Form::Folder(folder) => path.is_below(folder),
            Form::Tree { words, name } => hits_tree(words, name, path),
            Form::Expression(_) => unreachable!(),
        }
    }

    /// Where the pattern can hit. Takes no memory.
    pub fn reach(&self) -> Reach<'_>
        ensures { Reaches self.now result }
    {
        match &self.form {
            Form::File { path, .. } => Reach::File(path),
            Form::Folder(folder) => Reach::Folder(folder),
            Form::Tree { words, name } => Reach::Tree(words, name),
            Form::Expression(_) => Reach::All,
        }
    }
}
