ghost use Rattle.std.specs.Prelude.{◌≡◌, true};
ghost use Rattle.tl_journal_text.specs.Records.{is_outside, is_target};

use tl_path::PathRef;

/// Whether a name is neither the journal's folder nor below it.
pub fn is_outside(name: &[u8]) -> bool
    ensures { result ≡ is_outside name.now }
{
    !name.starts_with(b"tlpkg/journal/") && name != b"tlpkg/journal".as_slice()
}

/// Whether a record may change a name: whether it is a path outside the journal's folder.
#[tactic(auto, unfolding(crate::specs::Records::is_target))]
pub fn is_target(name: &[u8]) -> bool
    ensures { result ≡ is_target name.now }
{
    match PathRef::check(name) {
        Ok(_) => is_outside(name),
        Err(_) => false,
    }
}

/// The path that a record changes, whose name is known to be one that it may change.
pub fn target(name: &[u8]) -> PathRef<'_>
    requires { is_target name.now ≡ true }
    ensures { result ≡ name.now }
{
    match PathRef::check(name) {
        Ok(path) => path,
        Err(_) => unreachable!(),
    }
}
