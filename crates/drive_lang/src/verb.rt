//! The first words of lines.

ghost use Rattle.std.specs.Prelude.{◌≡◌};
ghost use Rattle.drive_lang.specs.Verbs as verbs;

/// What a line does.
#[derive(Clone, Copy, Debug, PartialEq, Eq)]
pub(crate) enum Verb {
    Poke,
    Peek,
    Expect,
    Set,
    See,
    Wait,
    Reset,
}

/// The verb that a word is.
pub(crate) fn verb_of(word: &[u8]) -> Option<Verb>
    ensures { result ≡ verbs.verb_of word.now }
{
    if word == b"poke".as_slice() {
        Some(Verb::Poke)
    } else if word == b"peek".as_slice() {
        Some(Verb::Peek)
    } else if word == b"expect".as_slice() {
        Some(Verb::Expect)
    } else if word == b"set".as_slice() {
        Some(Verb::Set)
    } else if word == b"see".as_slice() {
        Some(Verb::See)
    } else if word == b"wait".as_slice() {
        Some(Verb::Wait)
    } else if word == b"reset".as_slice() {
        Some(Verb::Reset)
    } else {
        None
    }
}
