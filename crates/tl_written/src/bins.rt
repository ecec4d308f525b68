// The sections of binaries.
ghost use Rattle.std.specs.Prelude.{◌∷◌, [], codes, IfSome};
ghost use Rattle.std.specs.List.{flat_map};
ghost use Rattle.tl_entry.specs.declared.object.BinFiles.{BinFiles};
ghost use Rattle.tl_object.specs.Formed.{IsFormedBin};
ghost use Rattle.tl_object.specs.Writing.{bin_lines};
ghost use Rattle.tl_written.specs.Rises.{AreRising};
ghost use Rattle.tl_written.specs.Found.{Finds, FindsOne};
ghost use Rattle.tl_written.specs.Pieces.{BinStands, BinsStand};

use crate::lines::{behind, comes_before, cut_at};
use crate::paths::{paths_behind, section_behind};
use tl_path::is_platform;

// The platform of a section of binaries, and what stands behind that section.
fn bin_behind(text: &[u8]) -> Option<(&[u8], &[u8])>
    ensures stands { IfSome result (λ parts. BinStands parts.0.now text.now parts.1.now) }
    ensures finds { FindsOne (λ (bin : BinFiles). bin.platform) bin_lines IsFormedBin ((32 ∷ []) ∷ []) text.now result }
{
    let section = behind(text, b"binfiles arch=")?;
    let (platform, _) = cut_at(section, b' ')?;
    if !is_platform(platform) {
        return None;
    }
    let (_, paths) = section_behind(section, platform)?;
    let rest = paths_behind(paths)?;
    Some((platform, rest))
}

/// What stands behind sections of binaries whose platforms rise.
pub(crate) fn bins_behind(text: &[u8]) -> Option<&[u8]>
    ensures stands { IfSome result (λ rest. BinsStand text.now rest.now) }
    ensures finds { Finds (flat_map bin_lines) (AreRising (λ (bin : BinFiles). bin.platform) IsFormedBin) ((32 ∷ []) ∷ codes "binfiles arch=" ∷ []) text.now result }
{
    let mut rest = text;
    let mut last: &[u8] = &[];
    while let Some((platform, behind)) = bin_behind(rest) {
        if !comes_before(last, platform) {
            return None;
        }
        last = platform;
        rest = behind;
    }
    Some(rest)
}
