// The words that are no options: the action and its operands.
ghost use Rattle.std.specs.Prelude.{◌≡◌};
ghost use Rattle.std.specs.Iterator.{YieldsFirstBy, item_count};
ghost use Rattle.tl_words.specs.Commands.{first_word, later_words};

use crate::parts::{PartRef, PartsIter, Placed};

/// An iterator over the words that are no options.
#[derive(Clone, Copy)]
pub(crate) struct PlainsIter<'a> {
    parts: PartsIter<'a>,
}

impl<'a> PlainsIter<'a> {
    ghost use Rattle.tl_words.specs.Inside.{parts_left, plains_left, words_left};
    ghost use Rattle.tl_words.specs.Faults.{plains};

    // Those among some parts.
    pub(crate) fn of(parts: PartsIter<'a>) -> PlainsIter<'a>
        ensures { plains_left result ≡ plains (parts_left parts.entry) }
    {
        PlainsIter { parts }
    }

    // The next word, or an empty one where none is left.
    pub(crate) fn take_word(&mut self) -> &'a [u8]
        ensures word { result.now ≡ first_word (words_left self.old) }
        ensures left { words_left self.new ≡ later_words (words_left self.old) }
    {
        match self.next() {
            Some(placed) => placed.word,
            None => b"",
        }
    }
}

impl<'a> Iterator for PlainsIter<'a> {
    ghost use Rattle.tl_words.specs.Inside.{placed_of, plains_left};

    type Item = Placed<'a>;

    ghost next_gives = { YieldsFirstBy placed_of plains_left };

    ghost remaining = { item_count plains_left };

    fn next(&mut self) -> Option<Placed<'a>> {
        while let Some(part) = self.parts.next() {
            if let PartRef::Plain { at, word } = part {
                return Some(Placed { at, word });
            }
        }
        None
    }
}
