//! The words between a command's name and its files.

ghost use Rattle.std.specs.Prelude.{◌≡◌};
ghost use Rattle.command_line.specs.Words.{texts};
ghost use Rattle.command_line.specs.Found as found;
ghost use Rattle.command_line.specs.Command.{view_top, view_waited};

use crate::forms::is_word;

// The name of the top, and the words behind it.
#[derive(Clone, Copy)]
pub(crate) struct Topped<'w> {
    pub(crate) top: Option<&'w str>,
    pub(crate) rest: &'w [String],
}

// The number of wait states, and the words behind it.
#[derive(Clone, Copy)]
pub(crate) struct Waited<'w> {
    pub(crate) waits: Option<u8>,
    pub(crate) rest: &'w [String],
}

fn named(words: &[String]) -> Option<Topped<'_>>
    ensures { view_top result ≡ found.named (texts words.now) }
{
    match words {
        [name, rest @ ..] if is_word(name.as_str()) => Some(Topped {
            top: Some(name.as_str()),
            rest,
        }),
        _ => None,
    }
}

pub(crate) fn top_of(words: &[String]) -> Option<Topped<'_>>
    ensures { view_top result ≡ found.topped (texts words.now) }
{
    match words {
        [flag, rest @ ..] if flag.as_str() == "--top" => named(rest),
        _ => Some(Topped {
            top: None,
            rest: words,
        }),
    }
}

fn counted(words: &[String]) -> Option<Waited<'_>>
    ensures { view_waited result ≡ found.counted (texts words.now) }
{
    match words {
        [number, rest @ ..] if number.as_str() == "0" => Some(Waited {
            waits: Some(0),
            rest,
        }),
        [number, rest @ ..] if number.as_str() == "1" => Some(Waited {
            waits: Some(1),
            rest,
        }),
        _ => None,
    }
}

pub(crate) fn waits_of(words: &[String]) -> Option<Waited<'_>>
    ensures { view_waited result ≡ found.waited (texts words.now) }
{
    match words {
        [flag, rest @ ..] if flag.as_str() == "--waits" => counted(rest),
        _ => Some(Waited {
            waits: None,
            rest: words,
        }),
    }
}
