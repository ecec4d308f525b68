//! Executes of hyphenation patterns.
ghost use Rattle.std.specs.Prelude.{◌≡◌, map};
ghost use Rattle.std.specs.List.{list_all};
ghost use Rattle.tl_execute.specs.Executes as the_executes;
ghost use Rattle.tl_execute.specs.Executes.{Gives};

use crate::execute::{Execute, ExecuteError, ExecuteKind};
use crate::list::{is_listed, read_least, read_list};
use crate::part::{read_full, read_option, some_full};
use crate::value::{Unquoted, has_key, is_repeated, value_of};
use std::alloc::Global;

fn is_hyphen_word(word: &[u8]) -> bool
    ensures { result ≡ the_executes.is_hyphen_word word.now }
{
    has_key(word, "name=")
        || has_key(word, "lefthyphenmin=")
        || has_key(word, "righthyphenmin=")
        || has_key(word, "synonyms=")
        || has_key(word, "file=")
        || has_key(word, "file_patterns=")
        || has_key(word, "file_exceptions=")
        || has_key(word, "luaspecial=")
        || has_key(word, "databases=")
        || has_key(word, "comment=")
}

fn are_hyphen_words(words: &[&[u8]]) -> bool
    ensures { result ≡ list_all the_executes.is_hyphen_word (map (λ w. w.now) words.now) }
{
    for word in words {
        if !is_hyphen_word(word) {
            return false;
        }
    }
    true
}

fn is_hyphen_repeated(words: &[&[u8]]) -> bool
    ensures { result ≡ the_executes.is_hyphen_repeated (map (λ w. w.now) words.now) }
{
    is_repeated(words, "name=")
        || is_repeated(words, "lefthyphenmin=")
        || is_repeated(words, "righthyphenmin=")
        || is_repeated(words, "synonyms=")
        || is_repeated(words, "file=")
        || is_repeated(words, "file_patterns=")
        || is_repeated(words, "file_exceptions=")
        || is_repeated(words, "luaspecial=")
        || is_repeated(words, "databases=")
        || is_repeated(words, "comment=")
}

fn hyphen_from(
    alloc: Global,
    name: &Unquoted,
    file: &Unquoted,
    least: (u32, u32),
    words: &[&[u8]],
) -> Result<Execute, ExecuteError>
    ensures { Gives (the_executes.hyphen_from name.now file.now least.0 least.1 (map (λ w. w.now) words.now)) result }
{
    let name = read_full(alloc, name)?;
    let file = read_full(alloc, file)?;
    let synonyms = read_list(alloc, &value_of(alloc, words, "synonyms=")?)?;
    let patterns = read_option(alloc, some_full(value_of(alloc, words, "file_patterns=")?))?;
    let exceptions = read_option(
        alloc,
        some_full(value_of(alloc, words, "file_exceptions=")?),
    )?;
    let special = read_option(alloc, some_full(value_of(alloc, words, "luaspecial=")?))?;
    let databases = value_of(alloc, words, "databases=")?;
    let lua = patterns.is_some() || exceptions.is_some() || special.is_some();
    Ok(Execute::Hyphen {
        name,
        file,
        left: least.0,
        right: least.1,
        synonyms,
        dat: is_listed(&databases, "dat", true),
        def: is_listed(&databases, "def", true),
        lua: is_listed(&databases, "lua", lua),
        patterns,
        exceptions,
        special,
    })
}

fn least_of(alloc: Global, words: &[&[u8]]) -> Result<(u32, u32), ExecuteError>
    ensures { Gives (the_executes.least_of (map (λ w. w.now) words.now)) result }
{
    let left = read_least(&value_of(alloc, words, "lefthyphenmin=")?, 2)?;
    let right = read_least(&value_of(alloc, words, "righthyphenmin=")?, 3)?;
    Ok((left, right))
}

/// The hyphenation that the words behind the first one say.
pub fn read_hyphen(alloc: Global, words: &[&[u8]]) -> Result<Execute, ExecuteError>
    ensures { Gives (the_executes.read_hyphen (map (λ w. w.now) words.now)) result }
{
    if !are_hyphen_words(words) {
        return Err(ExecuteError::BadExecute {
            kind: ExecuteKind::Key,
        });
    }
    if is_hyphen_repeated(words) {
        return Err(ExecuteError::BadExecute {
            kind: ExecuteKind::Repeated,
        });
    }
    let name = value_of(alloc, words, "name=")?;
    let file = value_of(alloc, words, "file=")?;
    match (name, file) {
        (Some(name), Some(file)) => hyphen_from(
            alloc,
            &name,
            &file,
            least_of(alloc, words)?,
            words,
        ),
        _ => Err(ExecuteError::BadExecute {
            kind: ExecuteKind::Missing,
        }),
    }
}
