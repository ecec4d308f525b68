//! Verdicts by text.
ghost use Rattle.std.specs.Prelude.{◌≡◌, option_map, OnOk, OnErr};
ghost use Rattle.std.specs.FinMap as map;
ghost use Rattle.tl_regexp.specs.Verdicts.{seen_verdict};

use std::alloc::{AllocError, Global};
use std::collections::BTreeMap;
use std::marker::Model;

/// What came of a text.
#[derive(Clone, Copy, Debug, PartialEq, Eq)]
pub(crate) enum Verdict {
    /// It was compiled.
    Read,
    /// The grammar reads no pattern from it, or it nests too deep.
    Syntax,
    /// It would become too large.
    Size,
}

// The verdict on each text that has one.
#[derive(Drop)]
pub(crate) struct VerdictMap {
    by_text: BTreeMap<Vec<u8>, Verdict>,
}

impl Model for VerdictMap {
    ghost use Rattle.std.specs.Coded.{coded_list, coded_ℕ};
    ghost use Rattle.std.specs.FinMap as map;
    ghost use Rattle.tl_model.specs.Devices.{Verdicts, verdict_code};

    ghost Value = { Verdicts };

    ghost coded = { map.code (coded_list coded_ℕ) verdict_code };

    ghost use Rattle.tl_regexp.specs.Verdicts.{verdicts_of};

    ghost view = { λ a. verdicts_of a.by_text.entries };
}

impl VerdictMap {
    pub(crate) fn new(alloc: Global) -> VerdictMap
        ensures { result ≡ map.empty }
    {
        VerdictMap {
            by_text: BTreeMap::new(alloc),
        }
    }

    // The verdict on a text; `None` where it has none.
    pub(crate) fn get(&self, text: &[u8]) -> Option<Verdict>
        ensures { option_map seen_verdict result ≡ map.get self.now text.now }
    {
        match self.by_text.get(text) {
            Some(verdict) => Some(*verdict),
            None => None,
        }
    }

    // Gives a text its verdict. Where memory runs out nothing changes.
    pub(crate) fn insert(
        &mut self,
        alloc: Global,
        text: &[u8],
        verdict: Verdict,
    ) -> Result<(), AllocError>
        ensures ok { OnOk result (self.new ≡ map.insert self.old text.now (seen_verdict verdict)) }
        ensures err { OnErr result (self.new ≡ self.old) }
    {
        let text = Vec::from_slice(alloc, text)?;
        self.by_text.insert(text, verdict)?;
        Ok(())
    }
}
