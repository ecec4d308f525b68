//! The effective patterns of a section.
ghost use Rattle.std.specs.Prelude.{◌≡◌, ◌++◌, ◌∷◌, [], length, map, if◌then◌else◌, OnOk};
ghost use Rattle.std.specs.List.{flat_map, list_all};
ghost use Rattle.std.specs.Option.{option_copied};
ghost use Rattle.tl_pattern.specs.declared.kind.PatternKind.TheVariants.{F, T};
ghost use Rattle.tl_srctext.specs.declared.pattern.SourcePattern.{SourcePattern};
ghost use Rattle.tl_auto.specs.Wanted.{IsSectionOf, platform_in, own_patterns, automatic, automatic_docs, automatic_of, wanted_in};
ghost use Rattle.tl_auto.specs.Wanted.{run_texts, doc_texts, manual_texts, source_texts};
ghost use Rattle.tl_auto.specs.Wanted.{with_suffix, windows_suffixes, suffixes_of, wanted_of};
ghost use Rattle.tl_auto.specs.Effective.{compiled, effective};
ghost use Rattle.tl_auto.specs.Pushing.{Judges, Pushes};

use crate::error::{AutoError, fault_of};
use crate::section::Section;
use crate::setting::Setting;
use crate::wanted::{
    DOC_TEXTS, MANUAL_TEXTS, NO_SUFFIX, RUN_TEXTS, SOURCE_TEXTS, WINDOWS_SUFFIXES, Wanted, all_add,
    automatic, own_patterns, with_suffix,
};
use std::alloc::{AllocError, Global};
use tl_path::{Category, Platforms};
use tl_pattern::{PatternKind, PlacedPattern, Regexps, compile};
use tl_srctext::{SourcePattern, SourceText};

// The pattern that is wanted.
fn compiled(
    alloc: Global,
    setting: &Setting<'_>,
    wanted: &Wanted<'_>,
    regexps: &mut Regexps,
) -> Result<PlacedPattern, AutoError>
    ensures { Judges (λ pattern. pattern) (λ verdicts. compiled verdicts setting.now wanted.now) regexps.old regexps.new result }
{
    let Some(mut text) = setting.replaced(alloc, wanted.text)? else {
        return Err(AutoError::UnsetVariable { line: wanted.line });
    };
    text.extend_from_slice(wanted.suffix)?;
    match compile(alloc, wanted.kind, &text, regexps) {
        Ok(pattern) => Ok(PlacedPattern {
            positive: wanted.positive,
            pattern,
        }),
        Err(error) => Err(fault_of(error, wanted.line)),
    }
}

fn add(patterns: &mut Vec<PlacedPattern>, pattern: PlacedPattern) -> Result<(), AllocError>
    ensures { OnOk result (patterns.new.items ≡ patterns.old.items ++ pattern ∷ []) }
{
    patterns.push(pattern)?;
    Ok(())
}

fn push(
    alloc: Global,
    setting: &Setting<'_>,
    wanted: &Wanted<'_>,
    patterns: &mut Vec<PlacedPattern>,
    regexps: &mut Regexps,
) -> Result<(), AutoError>
    ensures { Pushes setting.now (wanted.now ∷ []) patterns.old.items patterns.new.items regexps.old regexps.new result }
{
    let pattern = compiled(alloc, setting, wanted, regexps)?;
    add(patterns, pattern)?;
    Ok(())
}

// Adds automatic patterns of a kind.
fn push_texts(
    alloc: Global,
    setting: &Setting<'_>,
    kind: PatternKind,
    texts: &[&str],
    patterns: &mut Vec<PlacedPattern>,
    regexps: &mut Regexps,
) -> Result<(), AutoError>
    ensures { Pushes setting.now (map (λ text. automatic kind text.now) texts.now) patterns.old.items patterns.new.items
        regexps.old regexps.new result }
{
    for text in texts {
        push(alloc, setting, &automatic(kind, text), patterns, regexps)?;
    }
    Ok(())
}

fn push_runs(
    alloc: Global,
    setting: &Setting<'_>,
    patterns: &mut Vec<PlacedPattern>,
    regexps: &mut Regexps,
) -> Result<(), AutoError>
    ensures { Pushes setting.now (map (automatic T) run_texts) patterns.old.items patterns.new.items regexps.old regexps.new result }
{
    push_texts(
        alloc,
        setting,
        PatternKind::T,
        &RUN_TEXTS,
        patterns,
        regexps,
    )
}

fn push_folder_of_docs(
    alloc: Global,
    setting: &Setting<'_>,
    patterns: &mut Vec<PlacedPattern>,
    regexps: &mut Regexps,
) -> Result<(), AutoError>
    ensures { Pushes setting.now (map (automatic T) doc_texts) patterns.old.items patterns.new.items regexps.old regexps.new result }
{
    push_texts(
        alloc,
        setting,
        PatternKind::T,
        &DOC_TEXTS,
        patterns,
        regexps,
    )
}

fn push_manual(
    alloc: Global,
    setting: &Setting<'_>,
    patterns: &mut Vec<PlacedPattern>,
    regexps: &mut Regexps,
) -> Result<(), AutoError>
    ensures { Pushes setting.now (map (automatic F) manual_texts) patterns.old.items patterns.new.items regexps.old regexps.new result }
{
    push_texts(
        alloc,
        setting,
        PatternKind::F,
        &MANUAL_TEXTS,
        patterns,
        regexps,
    )
}

fn push_sources(
    alloc: Global,
    setting: &Setting<'_>,
    patterns: &mut Vec<PlacedPattern>,
    regexps: &mut Regexps,
) -> Result<(), AutoError>
    ensures { Pushes setting.now (map (automatic T) source_texts) patterns.old.items patterns.new.items regexps.old regexps.new result }
{
    push_texts(
        alloc,
        setting,
        PatternKind::T,
        &SOURCE_TEXTS,
        patterns,
        regexps,
    )
}

fn push_docs(
    alloc: Global,
    setting: &Setting<'_>,
    patterns: &mut Vec<PlacedPattern>,
    regexps: &mut Regexps,
) -> Result<(), AutoError>
    ensures { Pushes setting.now automatic_docs patterns.old.items patterns.new.items regexps.old regexps.new result }
{
    push_folder_of_docs(alloc, setting, patterns, regexps)?;
    push_manual(alloc, setting, patterns, regexps)
}

// Adds the automatic patterns of a section.
fn push_automatic(
    alloc: Global,
    setting: &Setting<'_>,
    section: Section,
    patterns: &mut Vec<PlacedPattern>,
    regexps: &mut Regexps,
) -> Result<(), AutoError>
    ensures { Pushes setting.now (automatic_of section setting.now.source.category) patterns.old.items patterns.new.items
        regexps.old regexps.new result }
{
    match (section, setting.source.category) {
        (Section::Run, Category::Package) => push_runs(alloc, setting, patterns, regexps),
        (Section::Doc, Category::Package) => push_docs(alloc, setting, patterns, regexps),
        (Section::Doc, Category::TLCore) => push_docs(alloc, setting, patterns, regexps),
        (Section::Src, Category::Package) => push_sources(alloc, setting, patterns, regexps),
        _ => Ok(()),
    }
}

// Adds a source's pattern with each of these behind its text.
fn push_each(
    alloc: Global,
    setting: &Setting<'_>,
    pattern: &SourcePattern,
    suffixes: &[&str],
    patterns: &mut Vec<PlacedPattern>,
    regexps: &mut Regexps,
) -> Result<(), AutoError>
    ensures { Pushes setting.now (map (λ suffix. with_suffix pattern.now suffix.now) suffixes.now) patterns.old.items patterns.new.items
        regexps.old regexps.new result }
{
    for suffix in suffixes {
        let wanted = with_suffix(pattern, suffix);
        push(alloc, setting, &wanted, patterns, regexps)?;
    }
    Ok(())
}

fn push_for_windows(
    alloc: Global,
    setting: &Setting<'_>,
    pattern: &SourcePattern,
    patterns: &mut Vec<PlacedPattern>,
    regexps: &mut Regexps,
) -> Result<(), AutoError>
    ensures { Pushes setting.now (map (with_suffix pattern.now) windows_suffixes) patterns.old.items patterns.new.items
        regexps.old regexps.new result }
{
    push_each(
        alloc,
        setting,
        pattern,
        &WINDOWS_SUFFIXES,
        patterns,
        regexps,
    )
}

fn push_plain(
    alloc: Global,
    setting: &Setting<'_>,
    pattern: &SourcePattern,
    patterns: &mut Vec<PlacedPattern>,
    regexps: &mut Regexps,
) -> Result<(), AutoError>
    ensures { Pushes setting.now (map (with_suffix pattern.now) ([] ∷ [])) patterns.old.items patterns.new.items
        regexps.old regexps.new result }
{
    push_each(alloc, setting, pattern, &NO_SUFFIX, patterns, regexps)
}

// Adds a source's pattern that is allowed on the platform.
fn push_allowed(
    alloc: Global,
    setting: &Setting<'_>,
    pattern: &SourcePattern,
    patterns: &mut Vec<PlacedPattern>,
    regexps: &mut Regexps,
) -> Result<(), AutoError>
    ensures { Pushes setting.now (map (with_suffix pattern.now) (suffixes_of pattern.now.kind setting.now.platform)) patterns.old.items patterns.new.items
        regexps.old regexps.new result }
{
    match pattern.kind {
        PatternKind::F if setting.is_windows() => {
            push_for_windows(alloc, setting, pattern, patterns, regexps)
        }
        _ => push_plain(alloc, setting, pattern, patterns, regexps),
    }
}

// Adds what a source's pattern wants on the platform.
fn push_pattern(
    alloc: Global,
    setting: &Setting<'_>,
    pattern: &SourcePattern,
    patterns: &mut Vec<PlacedPattern>,
    regexps: &mut Regexps,
) -> Result<(), AutoError>
    ensures { Pushes setting.now (wanted_of setting.now.platform pattern.now) patterns.old.items patterns.new.items
        regexps.old regexps.new result }
{
    if setting.is_within(&pattern.limit) {
        push_allowed(alloc, setting, pattern, patterns, regexps)
    } else {
        Ok(())
    }
}

fn push_own(
    alloc: Global,
    setting: &Setting<'_>,
    own: &[SourcePattern],
    patterns: &mut Vec<PlacedPattern>,
    regexps: &mut Regexps,
) -> Result<(), AutoError>
    ensures { Pushes setting.now (flat_map (wanted_of setting.now.platform) own.now) patterns.old.items patterns.new.items
        regexps.old regexps.new result }
{
    for pattern in own {
        push_pattern(alloc, setting, pattern, patterns, regexps)?;
    }
    Ok(())
}

// Adds the automatic patterns of a section where its own leave them in force.
fn push_first(
    alloc: Global,
    setting: &Setting<'_>,
    section: Section,
    own: &[SourcePattern],
    patterns: &mut Vec<PlacedPattern>,
    regexps: &mut Regexps,
) -> Result<(), AutoError>
    ensures { Pushes setting.now (if list_all (λ (p : SourcePattern). p.adds) own.now then automatic_of section setting.now.source.category else [])
        patterns.old.items patterns.new.items regexps.old regexps.new result }
{
    if all_add(own) {
        push_automatic(alloc, setting, section, patterns, regexps)
    } else {
        Ok(())
    }
}

fn push_all(
    alloc: Global,
    setting: &Setting<'_>,
    section: Section,
    own: &[SourcePattern],
    patterns: &mut Vec<PlacedPattern>,
    regexps: &mut Regexps,
) -> Result<(), AutoError>
    requires { own.now ≡ own_patterns setting.now.source section }
    ensures { Pushes setting.now (wanted_in setting.now.source section setting.now.platform) patterns.old.items patterns.new.items
        regexps.old regexps.new result }
{
    push_first(alloc, setting, section, own, patterns, regexps)?;
    push_own(alloc, setting, own, patterns, regexps)
}

fn platform_in(section: Section, platforms: &Platforms) -> Option<&[u8]>
    ensures { option_copied result ≡ platform_in section platforms.now }
{
    match section {
        Section::Bin(number) => platforms.get(number),
        _ => None,
    }
}

/// The effective patterns of a section of a source: the automatic ones, where it has none of its own or all of its own begin with `+`,
/// and then its own with their variables replaced. `UnsetVariable` and `BadPath` come exactly where the first pattern that has a fault
/// has this one, `Syntax` and `Size` by the rules of `compile`. The verdicts on regular expressions are those that stand after the call.
pub fn effective(
    alloc: Global,
    source: &SourceText,
    section: Section,
    platforms: &Platforms,
    regexps: &mut Regexps,
) -> Result<Vec<PlacedPattern>, AutoError>
    requires { IsSectionOf section (length platforms.now) }
    ensures { Judges (λ patterns. patterns.items) (λ verdicts. effective verdicts source.now section platforms.now) regexps.old regexps.new result }
{
    let setting = Setting {
        source: source.fields(),
        platform: platform_in(section, platforms),
    };
    let own = own_patterns(setting.source, section);
    let mut patterns = Vec::new(alloc);
    push_all(alloc, &setting, section, own, &mut patterns, regexps)?;
    Ok(patterns)
}
