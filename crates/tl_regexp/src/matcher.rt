//! What tries paths against a regular expression.
ghost use Rattle.std.specs.Prelude.{◌≡◌, IfOk};
ghost use Rattle.tl_regexp.specs.Finds.{finds};

use crate::regexp::Regexp;
use regex::Matcher;
use std::alloc::{AllocError, Global};
use std::marker::Model;

/// Tries paths against a regular expression. Contracts see the expression's text.
#[derive(Drop)]
pub struct ReMatcher<'p> {
    regexp: &'p Regexp,
    matcher: Matcher<'p>,
}

impl<'p> Model for ReMatcher<'p> {
    ghost use Rattle.std.specs.Prelude.{List, ℕ};
    ghost use Rattle.regex.specs.Strings.{matcher_pattern};
    ghost use Rattle.tl_regexp.specs.Finds.{FindsAs};

    ghost Value = { List ℕ };

    ghost view = { λ a. a.regexp.now };

    ghost invariant = { λ a. FindsAs a.regexp.now (matcher_pattern a.matcher) };
}

impl<'p> ReMatcher<'p> {
    pub(crate) fn of(alloc: Global, regexp: &'p Regexp) -> Result<ReMatcher<'p>, AllocError>
        ensures { IfOk result (λ matcher. matcher ≡ regexp.now) }
    {
        let matcher = regexp.regex.matcher(alloc)?;
        Ok(ReMatcher { regexp, matcher })
    }

    /// Whether the expression finds the whole path. Takes no memory, and time in proportion to the product of both lengths at most.
    pub fn is_match(&mut self, path: &str) -> bool
        ensures found { result ≡ finds self.old path.now }
        ensures same { self.new ≡ self.old }
    {
        self.matcher.is_match(path)
    }
}
