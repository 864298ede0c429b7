//! Texts of a source as HTML.

ghost use Rattle.std.specs.Prelude.{◌≡◌, flat_map};
ghost use Rattle.html_text.specs.Escaped as spec;
ghost use Rattle.html_text.specs.Writing.{Writes, at};

use crate::pen::{Pen, put};
use rb_edge::Sink;

/// How many bytes are still to come of a character, between which numbers the next one is, and whether a byte was wrong.
#[derive(Clone, Copy, Debug)]
pub struct Awaited {
    bad: bool,
    left: u8,
    low: u8,
    high: u8,
}

fn awaits(left: u8, low: u8, high: u8) -> Awaited
    ensures { result ≡ spec.awaits left low high }
{
    Awaited {
        bad: false,
        left,
        low,
        high,
    }
}

fn wrong() -> Awaited
    ensures { result ≡ spec.wrong }
{
    Awaited {
        bad: true,
        left: 0,
        low: 0,
        high: 0,
    }
}

fn is_between(low: u8, high: u8, byte: u8) -> bool
    ensures { result ≡ spec.is_between low high byte }
{
    low <= byte && byte <= high
}

fn of_three(byte: u8) -> Awaited
    ensures { result ≡ spec.of_three byte }
{
    if byte == 224 {
        awaits(2, 160, 191)
    } else if byte == 237 {
        awaits(2, 128, 159)
    } else {
        awaits(2, 128, 191)
    }
}

fn of_four(byte: u8) -> Awaited
    ensures { result ≡ spec.of_four byte }
{
    if byte == 240 {
        awaits(3, 144, 191)
    } else if byte == 244 {
        awaits(3, 128, 143)
    } else {
        awaits(3, 128, 191)
    }
}

fn behind_first(byte: u8) -> Awaited
    ensures { result ≡ spec.behind_first byte }
{
    if byte < 128 {
        awaits(0, 0, 0)
    } else if is_between(194, 223, byte) {
        awaits(1, 128, 191)
    } else if is_between(224, 239, byte) {
        of_three(byte)
    } else if is_between(240, 244, byte) {
        of_four(byte)
    } else {
        wrong()
    }
}

fn behind_byte(state: Awaited, byte: u8) -> Awaited
    ensures { result ≡ spec.behind_byte state byte }
{
    if state.bad {
        return wrong();
    }
    if state.left == 0 {
        return behind_first(byte);
    }
    if is_between(state.low, state.high, byte) {
        awaits(state.left - 1, 128, 191)
    } else {
        wrong()
    }
}

fn is_utf8(bytes: &[u8]) -> bool
    ensures { result ≡ spec.is_utf8 bytes.now }
{
    let mut state = awaits(0, 0, 0);
    for byte in bytes {
        state = behind_byte(state, *byte);
    }
    !state.bad && state.left == 0
}

fn stands(byte: u8) -> bool
    ensures { result ≡ spec.stands byte }
{
    (byte >= 32 && byte < 127) || byte == 9 || byte == 10 || byte == 12 || byte == 13
}

fn put_reference<K: Sink>(pen: &mut Pen, out: &mut K, good: bool, byte: u8)
    ensures { Writes (at (K.told out.old) (K.faults out.old) pen.old) (at (K.told out.new) (K.faults out.new) pen.new) (spec.reference good byte) }
{
    if byte == b'&' {
        put(pen, out, b"&amp;");
    } else if byte == b'<' {
        put(pen, out, b"&lt;");
    } else if byte == b'>' {
        put(pen, out, b"&gt;");
    } else if byte == b'"' {
        put(pen, out, b"&quot;");
    } else if byte == b'\'' {
        put(pen, out, b"&#39;");
    } else if stands(byte) || (good && byte >= 128) {
        put(pen, out, &[byte]);
    } else {
        put(pen, out, b"&#xFFFD;");
    }
}

// Writes what a byte adds, and tells whether it takes the next one.
fn put_byte<K: Sink>(pen: &mut Pen, out: &mut K, good: bool, taken: bool, byte: u8) -> bool
    ensures text { Writes (at (K.told out.old) (K.faults out.old) pen.old) (at (K.told out.new) (K.faults out.new) pen.new) (spec.added good taken byte) }
    ensures taken { result ≡ spec.takes taken byte }
{
    if byte == b'\\' && !taken {
        return true;
    }
    put_reference(pen, out, good, byte);
    false
}

/// Writes a text of the source.
pub fn put_escaped<K: Sink>(pen: &mut Pen, out: &mut K, bytes: &[u8])
    ensures { Writes (at (K.told out.old) (K.faults out.old) pen.old) (at (K.told out.new) (K.faults out.new) pen.new) (spec.escaped bytes.now) }
{
    let good = is_utf8(bytes);
    let mut taken = false;
    let mut rest = bytes;
    while let [byte, more @ ..] = rest {
        taken = put_byte(pen, out, good, taken, *byte);
        rest = more;
    }
}
