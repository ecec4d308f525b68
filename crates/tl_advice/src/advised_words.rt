//! What a person is told of words that are no command.
use crate::one_word::OneWord;
use std::fmt;
use tl_action::ActionName;
use tl_words::WordKind;

// All actions, also those that the program doesn't carry out.
const ACTIONS: [ActionName; 20] = [
    ActionName::DumpTlpdb,
    ActionName::Info,
    ActionName::Search,
    ActionName::Candidates,
    ActionName::Check,
    ActionName::Install,
    ActionName::Update,
    ActionName::Remove,
    ActionName::Backup,
    ActionName::Restore,
    ActionName::Setting,
    ActionName::Pinning,
    ActionName::Expand,
    ActionName::Edit,
    ActionName::Build,
    ActionName::Mirror,
    ActionName::Lsr,
    ActionName::Which,
    ActionName::Shell,
    ActionName::GenerateMaster,
];

/// The first fault of words, as a sentence: what is wrong at which word, and what to do. It prints as one line without its end.
#[derive(Clone, Copy)]
pub struct AdvisedWords<'a> {
    words: &'a [Vec<u8>],
    at: usize,
    kind: WordKind,
}

impl<'a> AdvisedWords<'a> {
    /// The fault at this word, counted from 0, or at the number of words. No memory.
    pub fn new(words: &'a [Vec<u8>], at: usize, kind: WordKind) -> AdvisedWords<'a> {
        AdvisedWords { words, at, kind }
    }

    // Whether an action stands where the tree should.
    fn lacks_tree(&self) -> bool {
        match (self.kind, self.words.first()) {
            (WordKind::Action, Some(first)) => is_action(first.as_slice()),
            _ => false,
        }
    }

    // The word of the fault, where there is one.
    fn word(&self) -> Option<&'a [u8]> {
        self.words.get(self.at).map(|word| word.as_slice())
    }

    // The word of the action, or that there is none.
    fn action(&self) -> OneWord<'a> {
        match self
            .words
            .iter()
            .skip(1)
            .find(|word| is_action(word.as_slice()))
        {
            Some(word) => OneWord(word.as_slice()),
            None => OneWord(b"ACTION"),
        }
    }

    fn tell_tree<W: fmt::Write>(&self, f: &mut fmt::Formatter<W>) -> fmt::Result {
        if let Some(first) = self.words.first() {
            write!(f, "{} is no folder", OneWord(first.as_slice()))?;
        }
        f.write_str(" with a TeX Live tree; the tree comes first: texlive TREE")?;
        for word in self.words {
            write!(f, " {}", OneWord(word.as_slice()))?;
        }
        Ok(())
    }

    fn tell_action<W: fmt::Write>(&self, f: &mut fmt::Formatter<W>) -> fmt::Result {
        match self.word() {
            Some(word) if is_action(word) => {
                write!(
                    f,
                    "{} is an action that this program does not have yet",
                    OneWord(word)
                )?;
            }
            Some(word) => write!(f, "{} is no action", OneWord(word))?,
            None => f.write_str("no action is given: texlive TREE ACTION")?,
        }
        f.write_str("; texlive --help lists the actions")
    }

    fn tell_option<W: fmt::Write>(&self, f: &mut fmt::Formatter<W>) -> fmt::Result {
        let action = self.action();
        match self.word() {
            Some(word) => write!(
                f,
                "{} is no option that goes with {action} here",
                OneWord(word)
            )?,
            None => write!(f, "{action} needs an option that is not given")?,
        }
        write!(f, "; texlive --help {action} shows its options")
    }

    fn tell_value<W: fmt::Write>(&self, f: &mut fmt::Formatter<W>) -> fmt::Result {
        match self.word() {
            Some(word) => write!(
                f,
                "{}: the value is empty, a tag that was given before, or one where the option takes none",
                OneWord(word),
            ),
            None => f.write_str(
                "an option lacks its value, as in -repository=DIR, -workers=N or -usertree=DIR",
            ),
        }
    }

    fn tell_number<W: fmt::Write>(&self, f: &mut fmt::Formatter<W>) -> fmt::Result {
        match self.word() {
            _ if self.at >= 4096 => f.write_str("there are more than 4096 words"),
            Some(word) if word.len() > 65_536 => {
                write!(f, "word {} has more than 65536 bytes", self.at)
            }
            Some(word) => write!(
                f,
                "{} is no number within the limits; -workers takes 1 to 64, generate-master 1 to 1000, a revision digits",
                OneWord(word),
            ),
            None => f.write_str("a number is missing"),
        }
    }

    fn tell_operand<W: fmt::Write>(&self, f: &mut fmt::Formatter<W>) -> fmt::Result {
        let action = self.action();
        match self.word() {
            Some(word) => write!(f, "{} is nothing that {action} takes there", OneWord(word))?,
            None => write!(f, "{action} takes more words")?,
        }
        write!(f, "; texlive --help {action} shows which")
    }

    fn tell_name<W: fmt::Write>(&self, f: &mut fmt::Formatter<W>) -> fmt::Result {
        match self.word() {
            Some(word) => write!(f, "{} is not how a package is named", OneWord(word)),
            None => f.write_str("a name is missing"),
        }
    }
}

fn is_action(word: &[u8]) -> bool {
    ActionName::named(&ACTIONS, word).is_some()
}

impl fmt::Display for AdvisedWords<'_> {
    fn fmt<W: fmt::Write>(&self, f: &mut fmt::Formatter<W>) -> fmt::Result {
        if self.lacks_tree() {
            return self.tell_tree(f);
        }
        match self.kind {
            WordKind::Root => f.write_str(
                "no tree is named: texlive TREE ACTION [OPTION..] [OPERAND..]; texlive --help lists the actions",
            ),
            WordKind::Option => self.tell_option(f),
            WordKind::Value => self.tell_value(f),
            WordKind::Number => self.tell_number(f),
            WordKind::Action => self.tell_action(f),
            WordKind::Name => self.tell_name(f),
            WordKind::Operand => self.tell_operand(f),
            WordKind::Repository => write!(
                f,
                "{} is given no repository, or more than it takes: -repository=[TAG=]DIR",
                self.action(),
            ),
        }
    }
}
