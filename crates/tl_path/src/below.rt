// What two paths have in common, by their bytes.
ghost use Rattle.std.specs.Prelude.{◌≡◌};
ghost use Rattle.std.specs.List.{list_any};
ghost use Rattle.tl_path.specs.Components.{is_below, is_touching};
ghost use Rattle.tl_path.specs.Reserved.{is_reserved};

// The paths that the program keeps for itself.
const RESERVED: [&str; 12] = [
    "tlpkg/journal",
    "tlpkg/backups",
    "tlpkg/tlpsrc",
    "repository",
    "tlpkg/texlive.tlpdb",
    "tlpkg/marks",
    "tlpkg/pinning.txt",
    "texmf-dist/web2c/updmap.cfg",
    "texmf-dist/web2c/fmtutil.cnf",
    "texmf-var/tex/generic/config/language.dat",
    "texmf-var/tex/generic/config/language.def",
    "texmf-var/tex/generic/config/language.dat.lua",
];

#[tactic(auto, using(crate::proofs::Front::is_below_short, crate::proofs::Front::is_below_other, crate::proofs::Front::is_below_same))]
pub(crate) fn is_below(path: &[u8], dir: &[u8]) -> bool
    ensures { result ≡ is_below path.now dir.now }
{
    if path.len() <= dir.len() || path[dir.len()] != b'/' {
        return false;
    }
    &path[..dir.len()] == dir
}

pub(crate) fn is_touching(path: &[u8], other: &[u8]) -> bool
    ensures { result ≡ is_touching path.now other.now }
{
    path == other || is_below(path, other) || is_below(other, path)
}

pub(crate) fn is_reserved(path: &[u8]) -> bool
    ensures { result ≡ is_reserved path.now }
{
    touches_any(path, &RESERVED)
}

fn touches_any(path: &[u8], others: &[&str]) -> bool
    ensures { result ≡ list_any (λ other. is_touching path.now other.now) others.now }
{
    others
        .iter()
        .any(|other| is_touching(path, other.as_bytes()))
}
