//! What a line of an entry says.
ghost use Rattle.std.specs.Prelude.{◌≡◌, List, IfOk, true};
ghost use Rattle.tl_entry.specs.Forms.{is_fact_key};
ghost use Rattle.tl_object.specs.Values.{Gives};
ghost use Rattle.tl_object.specs.Grammar.{head_of, fact_of, keyed, head_value, head_of_line};

use crate::fault::{LineFault, LineKind};
use crate::file::starts_file;
use crate::key::{Key, Part, key_of};
use crate::source::cut_at;
use crate::value::{
    after_word, bin_of, blocks_of, category_of, digest_of, flag_of, name_of, number_of,
    small_number_of, text_of,
};
use std::alloc::{AllocError, Global};
use tl_entry::{Fact, is_fact_key};
use tl_path::{Category, Name, Platform};
use tl_text::{Text, TextError};

/// What a line that is no file's says.
#[derive(Drop)]
pub enum Head {
    Name(Name),
    Category(Category),
    Revision(u32),
    Catalogue(Text),
    Shortdesc(Text),
    Relocated(bool),
    Longdesc(Text),
    Depend(Text),
    Execute(Text),
    Postaction(Text),
    Size(Part, u64),
    Digest(Part, [u8; 64]),
    Files(Part, u64),
    Binfiles(Platform, u64),
    Fact(Fact),
}

fn head_of(alloc: Global, key: Key, value: &[u8]) -> Result<Head, LineFault>
    ensures { Gives result (head_of key value.now) }
{
    Ok(match key {
        Key::Name => Head::Name(name_of(alloc, value)?),
        Key::Category => Head::Category(category_of(value)?),
        Key::Revision => Head::Revision(small_number_of(value)?),
        Key::Catalogue => Head::Catalogue(text_of(alloc, value)?),
        Key::Shortdesc => Head::Shortdesc(text_of(alloc, value)?),
        Key::Relocated => Head::Relocated(flag_of(value)?),
        Key::Longdesc => Head::Longdesc(text_of(alloc, value)?),
        Key::Depend => Head::Depend(text_of(alloc, value)?),
        Key::Execute => Head::Execute(text_of(alloc, value)?),
        Key::Postaction => Head::Postaction(text_of(alloc, value)?),
        Key::Size(part) => Head::Size(part, number_of(value)?),
        Key::Digest(part) => Head::Digest(part, digest_of(value)?),
        Key::Files(part) => Head::Files(part, blocks_of(value)?),
        Key::Binfiles => {
            let (platform, blocks) = bin_of(alloc, value)?;
            Head::Binfiles(platform, blocks)
        }
    })
}

fn fact_key_of(alloc: Global, key: &[u8]) -> Result<Text, AllocError>
    requires { is_fact_key key.now ≡ true }
    ensures { IfOk result (λ text. text ≡ key.now) }
{
    match Text::parse(alloc, key) {
        Ok(text) => Ok(text),
        Err(TextError::NotText) => unreachable!(),
        Err(TextError::NoMemory) => Err(AllocError),
    }
}

fn fact_of(alloc: Global, word: &[u8], value: &[u8]) -> Result<Head, LineFault>
    ensures { Gives result (fact_of word.now value.now) }
{
    match after_word(word, b"catalogue-") {
        Some(key) if is_fact_key(key) => {
            let key = fact_key_of(alloc, key)?;
            let value = text_of(alloc, value)?;
            Ok(Head::Fact(Fact { key, value }))
        }
        _ => Err(LineFault::Bad(LineKind::Key)),
    }
}

fn keyed(alloc: Global, word: &[u8], value: &[u8]) -> Result<Head, LineFault>
    ensures { Gives result (keyed word.now value.now) }
{
    if value.len() > 65_536 {
        return Err(LineFault::Bad(LineKind::TooLong));
    }
    match key_of(word) {
        Some(key) => head_of(alloc, key, value),
        None => fact_of(alloc, word, value),
    }
}

fn head_value(alloc: Global, line: &[u8]) -> Result<Head, LineFault>
    ensures { Gives result (head_value line.now) }
{
    match cut_at(line, b' ') {
        None => keyed(alloc, line, &[]),
        Some((word, value)) => keyed(alloc, word, value),
    }
}

/// What a line says that is no file's, or its first fault. A file's line is at fault here.
pub(crate) fn head_of_line(alloc: Global, line: &[u8]) -> Result<Head, LineFault>
    ensures { Gives result (head_of_line line.now) }
{
    match str::from_utf8(line) {
        Ok(_) if starts_file(line) => Err(LineFault::Bad(LineKind::File)),
        Ok(_) => head_value(alloc, line),
        Err(_) => Err(LineFault::Bad(LineKind::Utf8)),
    }
}
