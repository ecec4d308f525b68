//! A stretch of a text.

/// The bytes of a text from `start` on, up to `end`, which is no longer one of them.
#[derive(Clone, Copy, Debug, PartialEq, Eq)]
pub struct Span {
    pub start: u32,
    pub end: u32,
}

impl Span {
    ghost use Rattle.std.specs.Prelude.{◌≡◌, length};
    ghost use Rattle.tl_text.specs.Spans.{stretch, IsWithin};

    /// The bytes of a text that this span stands for.
    pub fn of(self, text: &[u8]) -> &[u8]
        requires { IsWithin (length text.now) self }
        ensures { result.now ≡ stretch text.now self }
    {
        &text[self.start as usize..self.end as usize]
    }
}
