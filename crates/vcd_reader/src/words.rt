//! The words of a text, one by one.

ghost use Rattle.std.specs.Prelude.{◌≡◌, ◌-◌, ◌^◌, ◌<◌, ◌≤◌, not, false, [], drop, length, IfSome, IfNone};
ghost use Rattle.std.specs.List.{take_while};
ghost use Rattle.rb_grammar.specs.Separators.{begins_separator, is_blank, Skips};
ghost use Rattle.vcd_reader.specs.Fronts.{StartsBy, IsBehind, word_of};

use rb_base::Place;
use rb_grammar::{is_blank, separators_len};

/// A word, and where it stands.
#[derive(Clone, Copy)]
pub(crate) struct Word<'s> {
    pub text: &'s [u8],
    pub place: Place,
}

/// Where the first word of a text stands: how many blanks are before it, and how many bytes it has.
#[derive(Clone, Copy)]
struct Front {
    gap: usize,
    len: usize,
}

// A byte other than a blank. All bytes above the space are, and most bytes of a dump.
fn is_solid(b: u8) -> bool
    ensures { result ≡ not (is_blank b) }
{
    b' ' < b || !is_blank(b)
}

// The length of the first word of a text, however long it is.
#[inline(never)]
fn long_word_len(text: &[u8]) -> usize
    ensures { result ≡ length (take_while (λ b. not (is_blank b)) text.now) }
{
    text.iter().take_while(|b| is_solid(**b)).count()
}

// The length of the first word of a text: that of most changes is 2 to 4.
#[inline(always)]
fn word_len(text: &[u8]) -> usize
    ensures { result ≡ length (take_while (λ b. not (is_blank b)) text.now) }
{
    match text {
        [a, b, end, ..] if is_solid(*a) && is_solid(*b) && is_blank(*end) => 2,
        [a, b, c, end, ..] if is_solid(*a) && is_solid(*b) && is_solid(*c) && is_blank(*end) => 3,
        [a, b, c, d, end, ..]
            if is_solid(*a) && is_solid(*b) && is_solid(*c) && is_solid(*d) && is_blank(*end) => {
            4
        }
        _ => long_word_len(text),
    }
}

// How many blanks stand at the front. Mostly it is one.
fn gap_len(text: &[u8]) -> usize
    ensures within { result ≤ length text.now }
    ensures skips { Skips false text.now (drop result text.now) }
    ensures ends { begins_separator false (drop result text.now) ≡ false }
{
    match text {
        [blank, solid, ..] if is_blank(*blank) && is_solid(*solid) => 1,
        _ => {
            let Ok(gap) = separators_len(text, false) else {
                unreachable!();
            };
            gap
        }
    }
}

/// The first word of a text, None where it has blanks alone.
#[inline(always)]
fn first_word(text: &[u8]) -> Option<Front>
    ensures some { IfSome result (λ f. StartsBy text.now f.gap f.len) }
    ensures none { IfNone result (Skips false text.now []) }
{
    let gap = gap_len(text);
    let left = &text[gap..];
    if left.is_empty() {
        return None;
    }
    Some(Front {
        gap,
        len: word_len(left),
    })
}

/// The first word of a text behind so many bytes, None where there are blanks alone. It takes no memory.
#[inline(always)]
pub(crate) fn word_behind(text: &[u8], at: usize) -> Option<Word<'_>>
    requires inside { at ≤ length text.now }
    requires short { length text.now < 2 ^ 32 - 1 }
    ensures some { IfSome result (λ w. IsBehind text.now at (word_of w)) }
    ensures none { IfNone result (Skips false (drop at text.now) []) }
{
    let left = &text[at..];
    let front = first_word(left)?;
    let word = &left[front.gap..front.gap + front.len];
    Some(Word {
        text: word,
        place: Place((at + front.gap) as u32),
    })
}
