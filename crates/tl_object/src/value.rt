//! The values of an entry's lines.
ghost use Rattle.std.specs.Prelude.{◌≡◌, ◌^◌, List, IfOk, option_copied};
ghost use Rattle.tl_path.specs.Names.{is_platform};
ghost use Rattle.tl_object.specs.declared.fault.LineKind.TheVariants as kinds;
ghost use Rattle.tl_object.specs.Values.{Gives, formed, text_value, name_value, path_value, number_value, category_value, flag_value, digest_value, stripped, blocks_value, platform_with, bin_value};

use crate::fault::{LineFault, LineKind};
use crate::source::cut_at;
use hex::FromHex;
use std::alloc::Global;
use tl_path::{Category, Name, NameError, PathRef, Platform, is_platform};
use tl_text::{Text, TextError, decimal_u32, decimal_u64};

const BAD_VALUE: LineFault = LineFault::Bad(LineKind::Value);

pub(crate) fn text_of(alloc: Global, value: &[u8]) -> Result<Text, LineFault>
    ensures { Gives result (text_value value.now) }
{
    match Text::parse(alloc, value) {
        Ok(text) => Ok(text),
        Err(TextError::NotText) => Err(BAD_VALUE),
        Err(TextError::NoMemory) => Err(LineFault::NoMemory),
    }
}

pub(crate) fn name_of(alloc: Global, value: &[u8]) -> Result<Name, LineFault>
    ensures { Gives result (name_value value.now) }
{
    match Name::parse(alloc, value) {
        Ok(name) => Ok(name),
        Err(NameError::BadName { .. }) => Err(BAD_VALUE),
        Err(NameError::NoMemory) => Err(LineFault::NoMemory),
    }
}

pub(crate) fn path_of(text: &[u8]) -> Result<PathRef<'_>, LineFault>
    ensures { Gives result (path_value text.now) }
{
    match PathRef::check(text) {
        Ok(path) => Ok(path),
        Err(_) => Err(LineFault::Bad(LineKind::File)),
    }
}

pub(crate) fn small_number_of(value: &[u8]) -> Result<u32, LineFault>
    ensures { Gives result (number_value (2 ^ 32) value.now) }
{
    decimal_u32(value).map_err(|_| BAD_VALUE)
}

pub(crate) fn number_of(value: &[u8]) -> Result<u64, LineFault>
    ensures { Gives result (number_value (2 ^ 64) value.now) }
{
    decimal_u64(value).map_err(|_| BAD_VALUE)
}

pub(crate) fn category_of(value: &[u8]) -> Result<Category, LineFault>
    ensures { Gives result (category_value value.now) }
{
    if value == b"Package".as_slice() {
        Ok(Category::Package)
    } else if value == b"TLCore".as_slice() {
        Ok(Category::TLCore)
    } else if value == b"ConTeXt".as_slice() {
        Ok(Category::ConTeXt)
    } else if value == b"Collection".as_slice() {
        Ok(Category::Collection)
    } else if value == b"Scheme".as_slice() {
        Ok(Category::Scheme)
    } else {
        Err(BAD_VALUE)
    }
}

pub(crate) fn flag_of(value: &[u8]) -> Result<bool, LineFault>
    ensures { Gives result (flag_value value.now) }
{
    if value == b"1".as_slice() {
        Ok(true)
    } else if value == b"0".as_slice() {
        Ok(false)
    } else {
        Err(BAD_VALUE)
    }
}

pub(crate) fn digest_of(value: &[u8]) -> Result<[u8; 64], LineFault>
    ensures { Gives result (digest_value value.now) }
{
    match <[u8; 64] as FromHex>::from_hex(value) {
        Ok(digest) => Ok(digest),
        Err(_) => Err(BAD_VALUE),
    }
}

/// What stands after a word at the front of a text.
pub(crate) fn after_word<'a>(text: &'a [u8], word: &[u8]) -> Option<&'a [u8]>
    ensures { option_copied result ≡ stripped word.now text.now }
{
    text.strip_prefix(word)
}

pub(crate) fn blocks_of(value: &[u8]) -> Result<u64, LineFault>
    ensures { Gives result (blocks_value value.now) }
{
    match after_word(value, b"size=") {
        Some(digits) => number_of(digits),
        None => Err(BAD_VALUE),
    }
}

fn platform_of(alloc: Global, bytes: &[u8]) -> Result<Platform, LineFault>
    ensures { Gives result (formed (is_platform bytes.now) bytes.now kinds.Value) }
{
    if !is_platform(bytes) {
        return Err(BAD_VALUE);
    }
    Ok(Platform::of(alloc, bytes)?)
}

fn platform_with(alloc: Global, platform: &[u8], sized: &[u8]) -> Result<(Platform, u64), LineFault>
    ensures { Gives result (platform_with platform.now sized.now) }
{
    let name = platform_of(alloc, platform)?;
    let blocks = blocks_of(sized)?;
    Ok((name, blocks))
}

pub(crate) fn bin_of(alloc: Global, value: &[u8]) -> Result<(Platform, u64), LineFault>
    ensures { Gives result (bin_value value.now) }
{
    let Some((first, second)) = cut_at(value, b' ') else {
        return Err(BAD_VALUE);
    };
    if let Some(platform) = after_word(first, b"arch=") {
        return platform_with(alloc, platform, second);
    }
    match after_word(second, b"arch=") {
        Some(platform) => platform_with(alloc, platform, first),
        None => Err(BAD_VALUE),
    }
}
