//! The writing of a source.
ghost use Rattle.std.specs.Prelude.{◌≡◌, ◌++◌, ◌∷◌, [], ◌==◌, ◌||◌, codes, IfOk, OnOk};
ghost use Rattle.std.specs.List.{join_with_byte};
ghost use Rattle.tl_srctext.specs.Joined.{last_byte};
ghost use Rattle.tl_srctext.specs.Formed.{IsSource};
ghost use Rattle.tl_srctext.specs.Again.{ReadsAgain};
ghost use Rattle.tl_srctext.specs.Writing.{source_line, optional_line, value_lines, var_text, var_lines, sign, letter, limit_text, pattern_value, pattern_lines, source_head, source_middle, source_tail, source_text};

use crate::fields::SourceFields;
use crate::pattern::{Limit, SourcePattern};
use crate::source::SourceText;
use crate::variable::Vars;
use std::alloc::{AllocError, Global};
use tl_path::Platform;
use tl_pattern::PatternKind;
use tl_text::Text;

// Whether a value ends with a byte that a line's end would take with it.
fn ends_badly(value: &[u8]) -> bool
    ensures { result ≡ (last_byte value.now == 92 || last_byte value.now == 13) }
{
    match value.last() {
        Some(byte) => *byte == b'\\' || *byte == b'\r',
        None => false,
    }
}

#[tactic(auto, unfolding(crate::specs::Writing::source_line))]
fn put_line(out: &mut Vec<u8>, key: &[u8], value: &[u8]) -> Result<(), AllocError>
    ensures { OnOk result (out.new.items ≡ out.old.items ++ source_line key.now value.now) }
{
    out.extend_from_slice(key)?;
    out.push(b' ')?;
    out.extend_from_slice(value)?;
    if ends_badly(value) {
        out.push(b' ')?;
    }
    out.push(b'\n')?;
    Ok(())
}

fn put_text(out: &mut Vec<u8>, key: &[u8], text: &Option<Text>) -> Result<(), AllocError>
    ensures { OnOk result (out.new.items ≡ out.old.items ++ optional_line key.now text.now) }
{
    match text {
        Some(text) => put_line(out, key, text.bytes()),
        None => Ok(()),
    }
}

fn put_texts(out: &mut Vec<u8>, key: &[u8], texts: &[Text]) -> Result<(), AllocError>
    ensures { OnOk result (out.new.items ≡ out.old.items ++ value_lines key.now texts.now) }
{
    for text in texts {
        put_line(out, key, text.bytes())?;
    }
    Ok(())
}

// A variable's name and its value, parted by a blank.
fn var_text(alloc: Global, name: &[u8], value: &[u8]) -> Result<Vec<u8>, AllocError>
    ensures { IfOk result (λ text. text.items ≡ var_text (name.now, value.now)) }
{
    let mut text = Vec::from_slice(alloc, name)?;
    text.push(b' ')?;
    text.extend_from_slice(value)?;
    Ok(text)
}

fn put_vars(alloc: Global, out: &mut Vec<u8>, vars: &Vars) -> Result<(), AllocError>
    ensures { OnOk result (out.new.items ≡ out.old.items ++ var_lines vars.now) }
{
    for (name, value) in vars.settings() {
        let text = var_text(alloc, name.bytes(), value.bytes())?;
        put_line(out, b"tlpsetvar", &text)?;
    }
    Ok(())
}

fn letter(kind: PatternKind) -> u8
    ensures { result ≡ letter kind }
{
    match kind {
        PatternKind::F => b'f',
        PatternKind::D => b'd',
        PatternKind::T => b't',
        PatternKind::R => b'r',
    }
}

fn put_sign(out: &mut Vec<u8>, has: bool, byte: u8) -> Result<(), AllocError>
    ensures { OnOk result (out.new.items ≡ out.old.items ++ sign has byte) }
{
    if has {
        out.push(byte)?;
    }
    Ok(())
}

// Adds some platforms, parted by commas.
fn put_platforms(out: &mut Vec<u8>, platforms: &[Platform]) -> Result<(), AllocError>
    ensures { OnOk result (out.new.items ≡ out.old.items ++ join_with_byte 44 platforms.now) }
{
    for (i, platform) in platforms.iter().enumerate() {
        if i > 0 {
            out.push(b',')?;
        }
        out.extend_from_slice(platform.bytes())?;
    }
    Ok(())
}

fn put_limit(out: &mut Vec<u8>, limit: &Limit) -> Result<(), AllocError>
    ensures { OnOk result (out.new.items ≡ out.old.items ++ limit_text limit.now) }
{
    match limit {
        Limit::All => Ok(()),
        Limit::Only(platforms) => {
            out.push(b'/')?;
            put_platforms(out, platforms.as_slice())
        }
        Limit::Except(platforms) => {
            out.extend_from_slice(b"/!")?;
            put_platforms(out, platforms.as_slice())
        }
    }
}

// A pattern as it stands behind its key.
fn pattern_value(alloc: Global, pattern: &SourcePattern) -> Result<Vec<u8>, AllocError>
    ensures { IfOk result (λ value. value.items ≡ pattern_value pattern.now) }
{
    let mut value = Vec::new(alloc);
    put_sign(&mut value, pattern.adds, b'+')?;
    put_sign(&mut value, pattern.takes_out, b'!')?;
    value.push(letter(pattern.kind))?;
    put_limit(&mut value, &pattern.limit)?;
    value.push(b' ')?;
    value.extend_from_slice(pattern.text.bytes())?;
    Ok(value)
}

fn put_patterns(
    alloc: Global,
    out: &mut Vec<u8>,
    key: &[u8],
    patterns: &[SourcePattern],
) -> Result<(), AllocError>
    ensures { OnOk result (out.new.items ≡ out.old.items ++ pattern_lines key.now patterns.now) }
{
    for pattern in patterns {
        let value = pattern_value(alloc, pattern)?;
        put_line(out, key, &value)?;
    }
    Ok(())
}

#[tactic(auto, unfolding(crate::specs::Writing::source_head))]
fn put_head(out: &mut Vec<u8>, fields: &SourceFields) -> Result<(), AllocError>
    ensures { OnOk result (out.new.items ≡ out.old.items ++ source_head fields.now) }
{
    put_line(out, b"name", fields.name.bytes())?;
    put_line(out, b"category", fields.category.text().as_bytes())?;
    put_text(out, b"catalogue", &fields.catalogue)?;
    put_text(out, b"shortdesc", &fields.shortdesc)
}

#[tactic(auto, unfolding(crate::specs::Writing::source_middle))]
fn put_middle(out: &mut Vec<u8>, fields: &SourceFields) -> Result<(), AllocError>
    ensures { OnOk result (out.new.items ≡ out.old.items ++ source_middle fields.now) }
{
    put_texts(out, b"longdesc", fields.longdesc.as_slice())?;
    put_texts(out, b"depend", fields.depends.as_slice())?;
    put_texts(out, b"execute", fields.executes.as_slice())?;
    put_texts(out, b"postaction", fields.postactions.as_slice())
}

#[tactic(auto, unfolding(crate::specs::Writing::source_tail))]
fn put_tail(alloc: Global, out: &mut Vec<u8>, fields: &SourceFields) -> Result<(), AllocError>
    ensures { OnOk result (out.new.items ≡ out.old.items ++ source_tail fields.now) }
{
    put_vars(alloc, out, &fields.vars)?;
    put_patterns(alloc, out, b"runpattern", fields.run.as_slice())?;
    put_patterns(alloc, out, b"srcpattern", fields.src.as_slice())?;
    put_patterns(alloc, out, b"docpattern", fields.doc.as_slice())?;
    put_patterns(alloc, out, b"binpattern", fields.bin.as_slice())
}

fn put_source(alloc: Global, out: &mut Vec<u8>, fields: &SourceFields) -> Result<(), AllocError>
    ensures { OnOk result (out.new.items ≡ out.old.items ++ source_text fields.now) }
{
    put_head(out, fields)?;
    put_middle(out, fields)?;
    put_tail(alloc, out, fields)
}

/// The text of a source: name and category, and then what else it has, a line for each value. It reads as the source again, but for the
/// numbers of its patterns' lines, where it is within the limit of a source.
pub fn write(alloc: Global, source: &SourceText) -> Result<Vec<u8>, AllocError>
    ensures text { IfOk result (λ text. text.items ≡ source_text source.now) }
    ensures again { IfOk result (λ text. IsSource source.now → ReadsAgain source.now text.items) }
{
    let mut out = Vec::new(alloc);
    put_source(alloc, &mut out, source.fields())?;
    Ok(out)
}
