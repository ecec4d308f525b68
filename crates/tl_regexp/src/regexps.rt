//! The maker of regular expressions.
ghost use Rattle.std.specs.Prelude.{◌≡◌, ◌≤◌, IfOk, IfSome, option_map, OnOk, OnErr};
ghost use Rattle.std.specs.FinMap as map;
ghost use Rattle.tl_regexp.specs.Verdicts.{seen_verdict, verdict_of, told_with};
ghost use Rattle.tl_regexp.specs.Answers.{Answers, IsCause};
ghost use Rattle.tl_regexp.specs.Finds.{MayStand};

use crate::regexp::{Regexp, RegexpError};
use crate::verdicts::{Verdict, VerdictMap};
use regex::{Error, Regex};
use std::alloc::{AllocError, Global};
use std::marker::Model;

/// The maker of regular expressions: contracts see its verdicts so far, and how many texts it refused for their size.
#[derive(Drop)]
pub struct Regexps {
    // `None` before the first verdict, so that making a maker takes no memory.
    kept: Option<VerdictMap>,
    refusals: u64,
}

impl Model for Regexps {
    ghost use Rattle.tl_model.specs.Devices.{RegexpsSeen, regexps_code};

    ghost Value = { RegexpsSeen };

    ghost coded = { regexps_code };

    ghost use Rattle.tl_regexp.specs.Verdicts.{verdicts_or_none};
    ghost use Rattle.tl_regexp.specs.Answers.{MayAllStand};

    ghost view = { λ r. record { verdicts = verdicts_or_none r.kept; refusals = r.refusals } };

    ghost invariant = { λ r. MayAllStand (verdicts_or_none r.kept) };
}

impl Regexps {
    /// A maker that has made no pattern. No memory.
    pub fn new() -> Regexps
        ensures verdicts { result.verdicts ≡ map.empty }
        ensures refusals { result.refusals ≡ 0 }
    {
        Regexps {
            kept: None,
            refusals: 0,
        }
    }

    // What the crate answers of a text. It counts where the text is refused for its size, and nowhere else.
    fn compile(&mut self, alloc: Global, text: &str) -> Result<Regexp, RegexpError>
        ensures made { IfOk result (λ regexp. regexp ≡ text.now) }
        ensures cause { IfSome (verdict_of result) (IsCause text.now self.old.refusals self.new.refusals) }
        ensures verdicts { self.new.verdicts ≡ self.old.verdicts }
        ensures later { self.old.refusals ≤ self.new.refusals }
    {
        let anchored = format!(in alloc; "^{text}$")?;
        match Regex::new(alloc, &anchored) {
            Ok(regex) => {
                let text = String::from_str(alloc, text)?;
                Ok(Regexp { text, regex })
            }
            Err(Error::Syntax(_)) => Err(RegexpError::Syntax),
            Err(Error::CompiledTooBig) => {
                self.refusals = self.refusals.saturating_add(1);
                Err(RegexpError::Size)
            }
            Err(_) => Err(RegexpError::NoMemory),
        }
    }

    fn verdict_on(&self, text: &[u8]) -> Option<Verdict>
        ensures { option_map seen_verdict result ≡ map.get self.now.verdicts text.now }
    {
        match &self.kept {
            Some(kept) => kept.get(text),
            None => None,
        }
    }

    // Gives a text that has no verdict its first one. Where memory runs out nothing changes.
    fn add(&mut self, alloc: Global, text: &[u8], verdict: Verdict) -> Result<(), AllocError>
        requires { MayStand text.now (seen_verdict verdict) }
        ensures ok { OnOk result (self.new.verdicts ≡ map.insert self.old.verdicts text.now (seen_verdict verdict)) }
        ensures err { OnErr result (self.new.verdicts ≡ self.old.verdicts) }
        ensures refusals { self.new.refusals ≡ self.old.refusals }
    {
        match &mut self.kept {
            Some(kept) => kept.insert(alloc, text, verdict),
            None => {
                let mut kept = VerdictMap::new(alloc);
                kept.insert(alloc, text, verdict)?;
                self.kept = Some(kept);
                Ok(())
            }
        }
    }

    // Keeps the verdict on a text; want of memory where there is another.
    fn keep(&mut self, alloc: Global, text: &[u8], verdict: Verdict) -> Result<(), AllocError>
        requires { MayStand text.now (seen_verdict verdict) }
        ensures kept { OnOk result (IfSome (map.get self.old.verdicts text.now) (λ before. before ≡ seen_verdict verdict)) }
        ensures ok { OnOk result (self.new.verdicts ≡ map.insert self.old.verdicts text.now (seen_verdict verdict)) }
        ensures err { OnErr result (self.new.verdicts ≡ self.old.verdicts) }
        ensures refusals { self.new.refusals ≡ self.old.refusals }
    {
        match self.verdict_on(text) {
            None => self.add(alloc, text, verdict),
            Some(before) if before == verdict => Ok(()),
            Some(_) => Err(AllocError),
        }
    }

    /// The regular expression of a text, and a verdict on the text. `Syntax` comes only where the grammar of `regex` reads no pattern
    /// from `^`, the text and `$`, or only one that nests too deep, `Size` only where the count of refusals for size rose. Where the
    /// answer would be another than the verdict that the text has, it is `NoMemory`.
    pub fn make(&mut self, alloc: Global, text: &str) -> Result<Regexp, RegexpError>
        ensures made { IfOk result (λ regexp. regexp ≡ text.now) }
        ensures answer { Answers text.now self.old self.new (verdict_of result) }
    {
        let made = self.compile(alloc, text);
        let verdict = match &made {
            Ok(_) => Verdict::Read,
            Err(RegexpError::Syntax) => Verdict::Syntax,
            Err(RegexpError::Size) => Verdict::Size,
            Err(RegexpError::NoMemory) => return Err(RegexpError::NoMemory),
        };
        self.keep(alloc, text.as_bytes(), verdict)?;
        made
    }
}
