//! The lines of hyphenations for LuaTeX.
ghost use Rattle.std.specs.Prelude.{◌≡◌, ◌++◌, OnOk};
ghost use Rattle.std.specs.List.{flat_map};
ghost use Rattle.tl_config.specs.Files as the_files;

use crate::say::{say, say_number};
use std::alloc::{AllocError, Global};
use tl_execute::Execute;
use tl_text::Text;

fn push_bytes(out: &mut Vec<u8>, value: &[u8]) -> Result<(), AllocError>
    ensures { OnOk result (out.new.items ≡ out.old.items ++ flat_map the_files.quoted_byte value.now) }
{
    for b in value {
        if *b == b'\'' || *b == b'\\' {
            out.push(b'\\')?;
        }
        out.push(*b)?;
    }
    Ok(())
}

fn push_quoted(out: &mut Vec<u8>, value: &Text) -> Result<(), AllocError>
    ensures { OnOk result (out.new.items ≡ out.old.items ++ the_files.quoted value.now) }
{
    say(out, "'")?;
    push_bytes(out, value.bytes())?;
    say(out, "'")
}

fn push_more(out: &mut Vec<u8>, synonyms: &[Text]) -> Result<(), AllocError>
    ensures { OnOk result (out.new.items ≡ out.old.items ++ flat_map the_files.more_synonym synonyms.now) }
{
    for synonym in synonyms {
        say(out, ", ")?;
        push_quoted(out, synonym)?;
    }
    Ok(())
}

fn push_synonyms(out: &mut Vec<u8>, synonyms: &[Text]) -> Result<(), AllocError>
    ensures { OnOk result (out.new.items ≡ out.old.items ++ the_files.synonym_list synonyms.now) }
{
    match synonyms {
        [] => say(out, "{ }"),
        [first, others @ ..] => {
            say(out, "{ ")?;
            push_quoted(out, first)?;
            push_more(out, others)?;
            say(out, " }")
        }
    }
}

fn push_option(out: &mut Vec<u8>, key: &str, value: &Option<Text>) -> Result<(), AllocError>
    ensures { OnOk result (out.new.items ≡ out.old.items ++ the_files.option_line key.now value.now) }
{
    if let Some(value) = value {
        say(out, "\t\t")?;
        say(out, key)?;
        say(out, " = ")?;
        push_quoted(out, value)?;
        say(out, ",\n")?;
    }
    Ok(())
}

fn push_head(out: &mut Vec<u8>, name: &Text, file: &Text) -> Result<(), AllocError>
    ensures { OnOk result (out.new.items ≡ out.old.items ++ the_files.lua_head name.now file.now) }
{
    say(out, "\t[")?;
    push_quoted(out, name)?;
    say(out, "] = {\n\t\tloader = ")?;
    push_quoted(out, file)?;
    say(out, ",\n")?;
    Ok(())
}

fn push_least(alloc: Global, out: &mut Vec<u8>, left: u32, right: u32) -> Result<(), AllocError>
    ensures { OnOk result (out.new.items ≡ out.old.items ++ the_files.lua_least left right) }
{
    say(out, "\t\tlefthyphenmin = ")?;
    say_number(alloc, out, left)?;
    say(out, ",\n\t\trighthyphenmin = ")?;
    say_number(alloc, out, right)?;
    say(out, ",\n")?;
    Ok(())
}

fn push_synonyms_line(out: &mut Vec<u8>, synonyms: &[Text]) -> Result<(), AllocError>
    ensures { OnOk result (out.new.items ≡ out.old.items ++ the_files.lua_synonyms synonyms.now) }
{
    say(out, "\t\tsynonyms = ")?;
    push_synonyms(out, synonyms)?;
    say(out, ",\n")?;
    Ok(())
}

fn push_options(
    out: &mut Vec<u8>,
    patterns: &Option<Text>,
    exceptions: &Option<Text>,
    special: &Option<Text>,
) -> Result<(), AllocError>
    ensures { OnOk result (out.new.items ≡ out.old.items ++ the_files.lua_options patterns.now exceptions.now special.now) }
{
    push_option(out, "patterns", patterns)?;
    push_option(out, "hyphenation", exceptions)?;
    push_option(out, "special", special)?;
    Ok(())
}

fn push_first(
    alloc: Global,
    out: &mut Vec<u8>,
    name: &Text,
    file: &Text,
    least: (u32, u32),
) -> Result<(), AllocError>
    ensures { OnOk result (out.new.items ≡ out.old.items ++ the_files.lua_first name.now file.now least.0 least.1) }
{
    push_head(out, name, file)?;
    push_least(alloc, out, least.0, least.1)?;
    Ok(())
}

fn push_last(
    out: &mut Vec<u8>,
    synonyms: &[Text],
    patterns: &Option<Text>,
    exceptions: &Option<Text>,
    special: &Option<Text>,
) -> Result<(), AllocError>
    ensures { OnOk result (out.new.items ≡ out.old.items ++ the_files.lua_last synonyms.now patterns.now exceptions.now special.now) }
{
    push_synonyms_line(out, synonyms)?;
    push_options(out, patterns, exceptions, special)?;
    say(out, "\t},\n")?;
    Ok(())
}

/// Adds the lines that an execute gives to language.dat.lua.
pub fn push_lua(alloc: Global, out: &mut Vec<u8>, execute: &Execute) -> Result<(), AllocError>
    ensures { OnOk result (out.new.items ≡ out.old.items ++ the_files.lua_lines execute.now) }
{
    if let Execute::Hyphen {
        name,
        file,
        left,
        right,
        synonyms,
        lua: true,
        patterns,
        exceptions,
        special,
        ..
    } = execute
    {
        push_first(alloc, out, name, file, (*left, *right))?;
        push_last(out, synonyms.as_slice(), patterns, exceptions, special)?;
    }
    Ok(())
}
