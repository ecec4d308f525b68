// Which words are options, which are their values, and which are the action and its operands.
ghost use Rattle.std.specs.Prelude.{◌≡◌, ◌+◌, ◌<◌, ◌≤◌, ◌==◌, length, map, drop, option_map, true, false, Some, None};
ghost use Rattle.std.specs.Option.{option_copied};
ghost use Rattle.std.specs.List.{position_or_len, before_first, after_first};
ghost use Rattle.std.specs.Iterator.{YieldsFirstBy, item_count};
ghost use Rattle.tl_words.specs.Parts.{is_option_word, option_body, option_name, option_value, is_valued};

use tl_action::OptionName;

/// A word with its place among all words.
#[derive(Clone, Copy)]
pub(crate) struct Placed<'a> {
    pub(crate) at: usize,
    pub(crate) word: &'a [u8],
}

/// What words stand for.
#[derive(Clone, Copy)]
pub(crate) enum PartRef<'a> {
    /// An option, None where no action knows it, with its value. A missing value is empty and stands at the words' end.
    Given {
        at: usize,
        option: Option<OptionName>,
        value: Option<Placed<'a>>,
    },
    /// A word that is no option: the action or an operand.
    Plain {
        at: usize,
        word: &'a [u8],
    },
}

/// An iterator over the parts of words.
#[derive(Clone, Copy)]
pub(crate) struct PartsIter<'a> {
    words: &'a [Vec<u8>],
    in_session: bool,
    ended: bool,
    at: usize,
    ghost within: { at ≤ length words.now },
}

pub(crate) fn is_option_word(word: &[u8]) -> bool
    ensures { result ≡ is_option_word word.now }
{
    match word {
        [b'-', second, ..] => !second.is_ascii_digit(),
        [b'-'] => true,
        _ => false,
    }
}

// An option's word without its one or two dashes.
fn option_body(word: &[u8]) -> &[u8]
    requires { is_option_word word.now ≡ true }
    ensures { result.now ≡ option_body word.now }
{
    match word {
        [_, b'-', ..] => &word[2..],
        _ => &word[1..],
    }
}

pub(crate) fn first_equals(text: &[u8]) -> usize
    ensures place { result ≡ position_or_len (λ b. b == 61) text.now }
    ensures within { result ≤ length text.now }
{
    text.iter().take_while(|byte| **byte != b'=').count()
}

// An option's name, and what stands after the first '='.
fn split_option(word: &[u8]) -> (&[u8], Option<&[u8]>)
    requires { is_option_word word.now ≡ true }
    ensures name { result.0.now ≡ option_name word.now }
    ensures value { option_copied result.1 ≡ option_value word.now }
{
    let body = option_body(word);
    let end = first_equals(body);
    if end < body.len() {
        (&body[..end], Some(&body[end + 1..]))
    } else {
        (body, None)
    }
}

fn is_valued(option: Option<OptionName>) -> bool
    ensures { result ≡ is_valued option }
{
    match option {
        Some(option) => option.takes_value(),
        None => false,
    }
}

impl<'a> PartsIter<'a> {
    ghost use Rattle.std.specs.Prelude.{[], ◌∷◌, MatchOption};
    ghost use Rattle.tl_action.specs.Texts.{texts};
    ghost use Rattle.tl_words.specs.Inside.{parts_left};
    ghost use Rattle.tl_words.specs.Parts.{parts, given};
    ghost use Rattle.tl_action.specs.declared.table.OptionName.{OptionName};
    ghost use Rattle.std.specs.Prelude.{ℕ, Option};

    // The parts of the program's words behind the root.
    pub(crate) fn of_program(words: &'a [Vec<u8>]) -> PartsIter<'a>
        requires { 0 < length words.now }
        ensures { parts_left result ≡ parts false None false 1 (drop 1 (texts words.now)) }
    {
        PartsIter {
            words,
            in_session: false,
            ended: false,
            at: 1,
        }
    }

    // The parts of the words of a session's line.
    pub(crate) fn of_session(words: &'a [Vec<u8>]) -> PartsIter<'a>
        ensures { parts_left result ≡ parts true None false 0 (texts words.now) }
    {
        PartsIter {
            words,
            in_session: true,
            ended: false,
            at: 0,
        }
    }

    // The next word, whatever it stands for.
    fn take_word(&mut self) -> Option<Placed<'a>>
        ensures word { MatchOption result
            ((drop self.old.at (texts self.old.words.now) ≡ []) × (self.new.at ≡ self.old.at))
            (λ placed. (placed.at ≡ self.old.at) × (self.new.at ≡ self.old.at + 1)
            × (drop self.old.at (texts self.old.words.now) ≡ placed.word.now ∷ drop self.new.at (texts self.old.words.now))) }
        ensures words { self.new.words ≡ self.old.words }
        ensures session { self.new.in_session ≡ self.old.in_session }
        ensures ended { self.new.ended ≡ self.old.ended }
    {
        let words = self.words;
        if self.at == words.len() {
            return None;
        }
        let at = self.at;
        self.at = at + 1;
        Some(Placed {
            at,
            word: words[at].as_slice(),
        })
    }

    // The value of an option without '=': the next word, or an empty one at the words' end.
    fn take_value(&mut self) -> Placed<'a>
        ensures { (owed : ℕ × Option OptionName) → parts self.old.in_session (Some owed) self.old.ended self.old.at
            (drop self.old.at (texts self.old.words.now))
            ≡ given owed.0 owed.1 (Some (result.at, result.word.now)) ∷ parts_left self.new }
    {
        match self.take_word() {
            Some(placed) => placed,
            None => Placed {
                at: self.at,
                word: b"",
            },
        }
    }
}

impl<'a> Iterator for PartsIter<'a> {
    ghost use Rattle.tl_words.specs.Inside.{part_of, parts_left};

    type Item = PartRef<'a>;

    ghost next_gives = { YieldsFirstBy part_of parts_left };

    ghost remaining = { item_count parts_left };

    fn next(&mut self) -> Option<PartRef<'a>> {
        let Placed { at, word } = self.take_word()?;
        if self.ended {
            return Some(PartRef::Plain { at, word });
        }
        if word == b"--".as_slice() {
            self.ended = true;
            let Placed { at, word } = self.take_word()?;
            return Some(PartRef::Plain { at, word });
        }
        if !is_option_word(word) {
            return Some(PartRef::Plain { at, word });
        }
        let (name, own) = split_option(word);
        let option = OptionName::named(self.in_session, name);
        let value = match own {
            Some(word) => Some(Placed { at, word }),
            None if is_valued(option) => Some(self.take_value()),
            None => None,
        };
        Some(PartRef::Given { at, option, value })
    }
}
