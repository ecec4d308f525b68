//! The lines of maps.
ghost use Rattle.std.specs.Prelude.{◌≡◌, ◌++◌, OnOk};
ghost use Rattle.tl_config.specs.Files as the_files;

use crate::say::say;
use std::alloc::AllocError;
use tl_execute::{Execute, MapKind};

fn map_word(kind: MapKind) -> &'static str
    ensures { result.now ≡ the_files.map_word kind }
{
    match kind {
        MapKind::Plain => "Map ",
        MapKind::Mixed => "MixedMap ",
        MapKind::Kanji => "KanjiMap ",
    }
}

/// Adds the line that an execute gives to updmap.cfg.
pub fn push_updmap(out: &mut Vec<u8>, execute: &Execute) -> Result<(), AllocError>
    ensures { OnOk result (out.new.items ≡ out.old.items ++ the_files.updmap_lines execute.now) }
{
    if let Execute::Map { kind, file } = execute {
        say(out, map_word(*kind))?;
        say(out, file.text())?;
        say(out, "\n")?;
    }
    Ok(())
}
