//! The lines of formats.
ghost use Rattle.std.specs.Prelude.{◌≡◌, ◌++◌, unwrap_or, OnOk};
ghost use Rattle.std.specs.Option.{option_copied};
ghost use Rattle.tl_config.specs.Files as the_files;

use crate::say::say;
use std::alloc::AllocError;
use tl_execute::Execute;
use tl_text::Text;

fn text_or<'t>(text: &'t Option<Text>, default: &'t str) -> &'t str
    ensures { result.now ≡ unwrap_or text.now default.now }
{
    match text {
        Some(text) => text.text(),
        None => default,
    }
}

fn push_options(out: &mut Vec<u8>, options: &Option<Text>) -> Result<(), AllocError>
    ensures { OnOk result (out.new.items ≡ out.old.items ++ the_files.options_end options.now) }
{
    if let Some(options) = options {
        say(out, " ")?;
        say(out, options.text())?;
    }
    say(out, "\n")
}

/// Adds the line that an execute gives to fmtutil.cnf.
pub fn push_fmtutil(out: &mut Vec<u8>, execute: &Execute) -> Result<(), AllocError>
    ensures { OnOk result (out.new.items ≡ out.old.items ++ the_files.fmtutil_lines execute.now) }
{
    if let Execute::Format {
        name,
        engine,
        options,
        patterns,
        disabled,
        ..
    } = execute
    {
        say(out, if *disabled { "#! " } else { "" })?;
        say(out, name.text())?;
        say(out, " ")?;
        say(out, engine.text())?;
        say(out, " ")?;
        say(out, text_or(patterns, "-"))?;
        push_options(out, options)?;
    }
    Ok(())
}
