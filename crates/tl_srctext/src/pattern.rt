//! The patterns of a source.
ghost use Rattle.std.specs.Prelude.{◌≡◌, ◌≤◌, ◌==◌, map, option_map, length, IfOk, OnSome};
ghost use Rattle.std.specs.List.{list_any, slice_split};
ghost use Rattle.tl_model.specs.Words as the_words;
ghost use Rattle.tl_srctext.specs.Steps.{FindsPart};
ghost use Rattle.tl_srctext.specs.declared.pattern.Limit.TheVariants.{Only, Except};
ghost use Rattle.tl_srctext.specs.Patterns.{begins_with, less_first, kind_of, platforms_of, limit_to, pattern_limit, has_words, has_form, pattern_text, pattern_from, pattern_of};

use crate::content::{cut_word, is_blank};
use crate::error::LineFault;
use crate::key::Section;
use crate::series::Series;
use std::alloc::{AllocError, Global};
use tl_kind::SourceKind;
use tl_path::{Platform, is_platform};
use tl_pattern::PatternKind;
use tl_text::{Text, TextError};

const BAD_PATTERN: LineFault = LineFault::Bad(SourceKind::Pattern);

const LONGEST_PATTERN: usize = 4_096;

/// The platforms on which a pattern of binaries holds. A platform may be there twice.
#[derive(Drop)]
pub enum Limit {
    /// On each.
    All,
    /// On these, of which there is one at least.
    Only(Series<Platform>),
    /// On each but for these, of which there is one at least.
    Except(Series<Platform>),
}

/// A pattern of a section, as it stands in a source.
#[derive(Drop)]
pub struct SourcePattern {
    /// The number of its line.
    pub line: u32,
    /// Whether it begins with `+`, and so leaves the automatic patterns in force.
    pub adds: bool,
    /// Whether it has a `!`, and so takes files out.
    pub takes_out: bool,
    /// How it hits files.
    pub kind: PatternKind,
    /// On which platforms it holds; on each, outside of the binaries.
    pub limit: Limit,
    /// What stands behind the kind, with its variables not yet replaced: 1 to 4,096 bytes without blanks at the ends.
    pub text: Text,
}

// What stands behind a sign, where a text begins with that.
fn less_sign(text: &[u8], sign: u8) -> &[u8]
    ensures { result.now ≡ less_first (begins_with sign text.now) text.now }
{
    match text {
        [first, rest @ ..] if *first == sign => rest,
        _ => text,
    }
}

fn begins_with(text: &[u8], byte: u8) -> bool
    ensures { result ≡ begins_with byte text.now }
{
    match text {
        [first, ..] => *first == byte,
        [] => false,
    }
}

fn kind_of(text: &[u8]) -> Option<PatternKind>
    ensures kind { result ≡ kind_of text.now }
    ensures full { OnSome result (1 ≤ length text.now) }
{
    match text {
        [b'f', ..] => Some(PatternKind::F),
        [b'd', ..] => Some(PatternKind::D),
        [b't', ..] => Some(PatternKind::T),
        [b'r', ..] => Some(PatternKind::R),
        _ => None,
    }
}

fn parts_at_commas<'t>(alloc: Global, text: &'t [u8]) -> Result<Vec<&'t [u8]>, AllocError>
    ensures { IfOk result (λ parts. map (λ part. part.now) parts.items ≡ slice_split (λ b. b == 44) text.now) }
{
    text.split(|byte| *byte == b',').collect(alloc)
}

// The platforms that commas part, where each has the form of one.
#[tactic(auto, using(crate::proofs::PlatformLemmas::platforms_start, crate::proofs::PlatformLemmas::platforms_push, crate::proofs::PlatformLemmas::platforms_done, crate::proofs::PlatformLemmas::platforms_fault))]
fn platforms_of(alloc: Global, text: &[u8]) -> Result<Option<Series<Platform>>, AllocError>
    ensures { IfOk result (λ platforms. platforms_of (slice_split (λ b. b == 44) text.now) ≡ platforms) }
{
    let parts = parts_at_commas(alloc, text)?;
    let mut platforms = Vec::new(alloc);
    for part in &parts {
        if !is_platform(part) {
            return Ok(None);
        }
        platforms.push(Platform::of(alloc, part)?)?;
    }
    Ok(Some(Series::new(platforms)))
}

fn only(platforms: Option<Series<Platform>>) -> Option<Limit>
    ensures { result ≡ option_map Only platforms }
{
    match platforms {
        Some(platforms) => Some(Limit::Only(platforms)),
        None => None,
    }
}

fn except(platforms: Option<Series<Platform>>) -> Option<Limit>
    ensures { result ≡ option_map Except platforms }
{
    match platforms {
        Some(platforms) => Some(Limit::Except(platforms)),
        None => None,
    }
}

// The limit to some platforms, or behind a `!` to all others.
fn limit_to(alloc: Global, text: &[u8]) -> Result<Option<Limit>, AllocError>
    ensures { IfOk result (λ limit. limit_to text.now ≡ limit) }
{
    if begins_with(text, b'!') {
        Ok(except(platforms_of(alloc, &text[1..])?))
    } else {
        Ok(only(platforms_of(alloc, text)?))
    }
}

fn limit_of(alloc: Global, section: Section, text: &[u8]) -> Result<Option<Limit>, AllocError>
    ensures { IfOk result (λ limit. pattern_limit section text.now ≡ limit) }
{
    if text.is_empty() {
        return Ok(Some(Limit::All));
    }
    match section {
        Section::Bin if text[0] == b'/' => limit_to(alloc, &text[1..]),
        _ => Ok(None),
    }
}

fn has_blank(text: &[u8]) -> bool
    ensures { result ≡ list_any the_words.is_blank text.now }
{
    text.iter().any(|byte| is_blank(*byte))
}

fn has_words(kind: PatternKind, text: &[u8]) -> bool
    ensures { result ≡ has_words kind text.now }
{
    match kind {
        PatternKind::F | PatternKind::D => !has_blank(text),
        PatternKind::T => has_blank(text),
        PatternKind::R => true,
    }
}

fn has_form(kind: PatternKind, text: &[u8]) -> bool
    ensures { result ≡ has_form kind text.now }
{
    !text.is_empty() && text.len() <= LONGEST_PATTERN && has_words(kind, text)
}

// The text of a pattern, where it has its form.
fn text_of(alloc: Global, kind: PatternKind, text: &[u8]) -> Result<Option<Text>, AllocError>
    ensures { IfOk result (λ found. pattern_text kind text.now ≡ found) }
{
    if !has_form(kind, text) {
        return Ok(None);
    }
    match Text::parse(alloc, text) {
        Ok(text) => Ok(Some(text)),
        Err(TextError::NotText) => Ok(None),
        Err(TextError::NoMemory) => Err(AllocError),
    }
}

// The pattern by its signs and what stands behind them.
fn pattern_from(
    alloc: Global,
    section: Section,
    line: u32,
    adds: bool,
    takes_out: bool,
    rest: &[u8],
) -> Result<SourcePattern, LineFault>
    ensures { FindsPart result (pattern_from section line adds takes_out rest.now) }
{
    let Some(kind) = kind_of(rest) else {
        return Err(BAD_PATTERN);
    };
    let (word, text) = cut_word(&rest[1..]);
    let Some(limit) = limit_of(alloc, section, word)? else {
        return Err(BAD_PATTERN);
    };
    let Some(text) = text_of(alloc, kind, text)? else {
        return Err(BAD_PATTERN);
    };
    Ok(SourcePattern {
        line,
        adds,
        takes_out,
        kind,
        limit,
        text,
    })
}

// The pattern that the value of a section's line is.
pub(crate) fn pattern_of(
    alloc: Global,
    section: Section,
    line: u32,
    value: &[u8],
) -> Result<SourcePattern, LineFault>
    ensures { FindsPart result (pattern_of section line value.now) }
{
    let adds = begins_with(value, b'+');
    let signless = less_sign(value, b'+');
    let takes_out = begins_with(signless, b'!');
    let rest = less_sign(signless, b'!');
    pattern_from(alloc, section, line, adds, takes_out, rest)
}
