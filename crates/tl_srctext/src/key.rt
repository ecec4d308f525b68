//! The keys of a source's lines.
ghost use Rattle.std.specs.Prelude.{◌≡◌};
ghost use Rattle.tl_srctext.specs.Keys.{source_key_of, pattern_key_of, may_be_empty, is_missing};

/// A section of a package's files.
#[derive(Clone, Copy)]
pub enum Section {
    Run,
    Src,
    Doc,
    Bin,
}

/// What the key of a line says about its value.
#[derive(Clone, Copy)]
pub enum Key {
    Name,
    Category,
    Catalogue,
    Shortdesc,
    Longdesc,
    Depend,
    Execute,
    Postaction,
    Variable,
    Pattern(Section),
}

impl Key {
    /// Whether the value may be empty.
    pub fn may_be_empty(self) -> bool
        ensures { result ≡ may_be_empty self }
    {
        match self {
            Key::Shortdesc | Key::Longdesc => true,
            _ => false,
        }
    }
}

/// Whether a value is empty and its key wants one.
pub fn is_missing(key: Key, value: &[u8]) -> bool
    ensures { result ≡ is_missing key value.now }
{
    value.is_empty() && !key.may_be_empty()
}

/// What a word stands for as the key of a line.
#[tactic(auto, unfolding(crate::specs::Keys::source_key_of))]
pub fn key_of(word: &[u8]) -> Option<Key>
    ensures { result ≡ source_key_of word.now }
{
    if word == b"name".as_slice() {
        return Some(Key::Name);
    }
    if word == b"category".as_slice() {
        return Some(Key::Category);
    }
    if word == b"catalogue".as_slice() {
        return Some(Key::Catalogue);
    }
    if word == b"shortdesc".as_slice() {
        return Some(Key::Shortdesc);
    }
    if word == b"longdesc".as_slice() {
        return Some(Key::Longdesc);
    }
    if word == b"depend".as_slice() {
        return Some(Key::Depend);
    }
    if word == b"execute".as_slice() {
        return Some(Key::Execute);
    }
    if word == b"postaction".as_slice() {
        return Some(Key::Postaction);
    }
    if word == b"tlpsetvar".as_slice() {
        return Some(Key::Variable);
    }
    pattern_key_of(word)
}

/// What a word stands for as the key of a pattern's line.
fn pattern_key_of(word: &[u8]) -> Option<Key>
    ensures { result ≡ pattern_key_of word.now }
{
    if word == b"runpattern".as_slice() {
        return Some(Key::Pattern(Section::Run));
    }
    if word == b"srcpattern".as_slice() {
        return Some(Key::Pattern(Section::Src));
    }
    if word == b"docpattern".as_slice() {
        return Some(Key::Pattern(Section::Doc));
    }
    if word == b"binpattern".as_slice() {
        return Some(Key::Pattern(Section::Bin));
    }
    None
}
