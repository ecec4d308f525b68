// The names of the journal's files.
ghost use Rattle.std.specs.Prelude.{◌≡◌};
ghost use Rattle.tl_journal_text.specs.Slots.{gate, body_of};

use tl_journal_text::Slot;
use tl_path::PathRef;

/// The gate.
pub fn gate() -> PathRef<'static>
    ensures { result ≡ gate }
{
    PathRef::known("tlpkg/journal/gate")
}

/// The body of a slot.
pub fn body(slot: Slot) -> PathRef<'static>
    ensures { result ≡ body_of slot }
{
    match slot {
        Slot::One => PathRef::known("tlpkg/journal/body"),
        Slot::Two => PathRef::known("tlpkg/journal/body2"),
    }
}
