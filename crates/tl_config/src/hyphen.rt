//! The lines of hyphenations for TeX.
ghost use Rattle.std.specs.Prelude.{◌≡◌, ◌++◌, OnOk};
ghost use Rattle.std.specs.List.{flat_map};
ghost use Rattle.tl_model.specs.Decimal.{decimal_text};
ghost use Rattle.tl_config.specs.Files as the_files;

use crate::say::{say, say_number};
use std::alloc::{AllocError, Global};
use tl_execute::Execute;
use tl_text::Text;

fn push_synonyms(out: &mut Vec<u8>, synonyms: &[Text]) -> Result<(), AllocError>
    ensures { OnOk result (out.new.items ≡ out.old.items ++ flat_map the_files.synonym_line synonyms.now) }
{
    for synonym in synonyms {
        say(out, "=")?;
        say(out, synonym.text())?;
        say(out, "\n")?;
    }
    Ok(())
}

/// Adds the lines that an execute gives to language.dat.
pub fn push_dat(out: &mut Vec<u8>, execute: &Execute) -> Result<(), AllocError>
    ensures { OnOk result (out.new.items ≡ out.old.items ++ the_files.dat_lines execute.now) }
{
    if let Execute::Hyphen {
        name,
        file,
        synonyms,
        dat: true,
        ..
    } = execute
    {
        say(out, name.text())?;
        say(out, " ")?;
        say(out, file.text())?;
        say(out, "\n")?;
        push_synonyms(out, synonyms.as_slice())?;
    }
    Ok(())
}

fn push_braced(out: &mut Vec<u8>, text: &Text) -> Result<(), AllocError>
    ensures { OnOk result (out.new.items ≡ out.old.items ++ the_files.braced text.now) }
{
    say(out, "{")?;
    say(out, text.text())?;
    say(out, "}")?;
    Ok(())
}

fn push_braced_number(alloc: Global, out: &mut Vec<u8>, number: u32) -> Result<(), AllocError>
    ensures { OnOk result (out.new.items ≡ out.old.items ++ the_files.braced (decimal_text number)) }
{
    say(out, "{")?;
    say_number(alloc, out, number)?;
    say(out, "}")?;
    Ok(())
}

fn push_def_line(
    alloc: Global,
    out: &mut Vec<u8>,
    file: &Text,
    least: (u32, u32),
    name: &Text,
) -> Result<(), AllocError>
    ensures { OnOk result (out.new.items ≡ out.old.items ++ the_files.def_line file.now least.0 least.1 name.now) }
{
    say(out, "\\addlanguage")?;
    push_braced(out, name)?;
    push_braced(out, file)?;
    say(out, "{}")?;
    push_braced_number(alloc, out, least.0)?;
    push_braced_number(alloc, out, least.1)?;
    say(out, "\n")?;
    Ok(())
}

fn push_def_synonyms(
    alloc: Global,
    out: &mut Vec<u8>,
    file: &Text,
    least: (u32, u32),
    synonyms: &[Text],
) -> Result<(), AllocError>
    ensures { OnOk result (out.new.items ≡ out.old.items ++ flat_map (the_files.def_line file.now least.0 least.1) synonyms.now) }
{
    for synonym in synonyms {
        push_def_line(alloc, out, file, least, synonym)?;
    }
    Ok(())
}

/// Adds the lines that an execute gives to language.def.
pub fn push_def(alloc: Global, out: &mut Vec<u8>, execute: &Execute) -> Result<(), AllocError>
    ensures { OnOk result (out.new.items ≡ out.old.items ++ the_files.def_lines execute.now) }
{
    if let Execute::Hyphen {
        name,
        file,
        left,
        right,
        synonyms,
        def: true,
        ..
    } = execute
    {
        let least = (*left, *right);
        push_def_line(alloc, out, file, least, name)?;
        push_def_synonyms(alloc, out, file, least, synonyms.as_slice())?;
    }
    Ok(())
}
