//! The lines that say formats.
ghost use Rattle.std.specs.Prelude.{◌≡◌, ◌++◌, IfOk, OnOk};
ghost use Rattle.tl_model.specs.Acks.{IsPlain};
ghost use Rattle.tl_trigger.specs.Stale.{format_line, format_lines};

use std::alloc::{AllocError, Global};
use tl_text::Text;

// Adds the line of a format.
fn push_format(lines: &mut Vec<u8>, name: &Text) -> Result<(), AllocError>
    ensures line { OnOk result (lines.new.items ≡ lines.old.items ++ format_line name.now) }
    ensures plain { OnOk result (IsPlain lines.old.items → IsPlain lines.new.items) }
{
    lines.extend_from_slice(b"format ")?;
    lines.extend_from_slice(name.bytes())?;
    lines.push(b'\n')?;
    Ok(())
}

/// A line `format NAME` for each of some formats. None is an acknowledgement.
pub fn format_lines(alloc: Global, formats: &[Text]) -> Result<Vec<u8>, AllocError>
    ensures lines { IfOk result (λ lines. lines.items ≡ format_lines formats.now) }
    ensures plain { IfOk result (λ lines. IsPlain lines.items) }
{
    let mut lines = Vec::new(alloc);
    for name in formats {
        push_format(&mut lines, name)?;
    }
    Ok(lines)
}
