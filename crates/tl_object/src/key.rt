//! The keys of an entry's lines.
ghost use Rattle.std.specs.Prelude.{◌≡◌};
ghost use Rattle.tl_object.specs.Keys.{key_of};

/// A part of a package that has a container and files of its own.
#[derive(Clone, Copy)]
pub enum Part {
    Run,
    Doc,
    Src,
}

/// What the key of a line says about its value.
#[derive(Clone, Copy)]
pub enum Key {
    Name,
    Category,
    Revision,
    Catalogue,
    Shortdesc,
    Relocated,
    Longdesc,
    Depend,
    Execute,
    Postaction,
    Size(Part),
    Digest(Part),
    Files(Part),
    Binfiles,
}

/// What a word stands for as the key of a line.
pub fn key_of(word: &[u8]) -> Option<Key>
    ensures { result ≡ key_of word.now }
{
    if word == b"name".as_slice() {
        return Some(Key::Name);
    }
    if word == b"category".as_slice() {
        return Some(Key::Category);
    }
    if word == b"revision".as_slice() {
        return Some(Key::Revision);
    }
    if word == b"catalogue".as_slice() {
        return Some(Key::Catalogue);
    }
    if word == b"shortdesc".as_slice() {
        return Some(Key::Shortdesc);
    }
    if word == b"relocated".as_slice() {
        return Some(Key::Relocated);
    }
    if word == b"longdesc".as_slice() {
        return Some(Key::Longdesc);
    }
    if word == b"depend".as_slice() {
        return Some(Key::Depend);
    }
    if word == b"execute".as_slice() {
        return Some(Key::Execute);
    }
    if word == b"postaction".as_slice() {
        return Some(Key::Postaction);
    }
    if word == b"containersize".as_slice() {
        return Some(Key::Size(Part::Run));
    }
    if word == b"doccontainersize".as_slice() {
        return Some(Key::Size(Part::Doc));
    }
    if word == b"srccontainersize".as_slice() {
        return Some(Key::Size(Part::Src));
    }
    if word == b"containerchecksum".as_slice() {
        return Some(Key::Digest(Part::Run));
    }
    if word == b"doccontainerchecksum".as_slice() {
        return Some(Key::Digest(Part::Doc));
    }
    if word == b"srccontainerchecksum".as_slice() {
        return Some(Key::Digest(Part::Src));
    }
    if word == b"runfiles".as_slice() {
        return Some(Key::Files(Part::Run));
    }
    if word == b"docfiles".as_slice() {
        return Some(Key::Files(Part::Doc));
    }
    if word == b"srcfiles".as_slice() {
        return Some(Key::Files(Part::Src));
    }
    if word == b"binfiles".as_slice() {
        return Some(Key::Binfiles);
    }
    None
}
