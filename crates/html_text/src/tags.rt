//! Elements, numbers and texts.

ghost use Rattle.std.specs.Prelude.{◌++◌, decimal, false, option_copied};
ghost use Rattle.std.specs.Fmt.{digits};
ghost use Rattle.html_text.specs.Escaped.{escaped};
ghost use Rattle.html_text.specs.Tags as spec;
ghost use Rattle.html_text.specs.Writing.{Writes, at};

use crate::escaped::put_escaped;
use crate::pen::{Pen, put, put_three};
use itoa::Buffer;
use rb_base::hex_digits;
use rb_edge::Sink;

/// Writes a number in decimal digits.
pub fn put_decimal<K: Sink>(pen: &mut Pen, out: &mut K, number: u64)
    ensures { Writes (at (K.told out.old) (K.faults out.old) pen.old) (at (K.told out.new) (K.faults out.new) pen.new) (decimal number) }
{
    let mut buffer = Buffer::new();
    put(pen, out, buffer.format(number).as_bytes());
}

/// Writes a number of 32 bits in decimal digits.
pub fn put_number<K: Sink>(pen: &mut Pen, out: &mut K, number: u32)
    ensures { Writes (at (K.told out.old) (K.faults out.old) pen.old) (at (K.told out.new) (K.faults out.new) pen.new) (decimal number) }
{
    put_decimal(pen, out, u64::from(number));
}

/// Writes a small number in decimal digits.
pub fn put_small<K: Sink>(pen: &mut Pen, out: &mut K, number: u8)
    ensures { Writes (at (K.told out.old) (K.faults out.old) pen.old) (at (K.told out.new) (K.faults out.new) pen.new) (decimal number) }
{
    put_decimal(pen, out, u64::from(number));
}

/// Writes a place in a list in decimal digits.
pub fn put_place<K: Sink>(pen: &mut Pen, out: &mut K, number: usize)
    ensures { Writes (at (K.told out.old) (K.faults out.old) pen.old) (at (K.told out.new) (K.faults out.new) pen.new) (decimal number) }
{
    put_decimal(pen, out, number as u64);
}

fn put_digits<K: Sink>(pen: &mut Pen, out: &mut K, number: u64)
    ensures { Writes (at (K.told out.old) (K.faults out.old) pen.old) (at (K.told out.new) (K.faults out.new) pen.new) (digits 16 false number) }
{
    let mut bytes = [0; 32];
    let first = hex_digits(u128::from(number), &mut bytes);
    put(pen, out, &bytes[first..]);
}

/// Writes a number in hexadecimal digits.
pub fn put_hex<K: Sink>(pen: &mut Pen, out: &mut K, number: u64)
    ensures { Writes (at (K.told out.old) (K.faults out.old) pen.old) (at (K.told out.new) (K.faults out.new) pen.new) (spec.hex number) }
{
    put(pen, out, b"0x");
    put_digits(pen, out, number);
}

/// Writes a number in so many hexadecimal digits at least.
pub fn put_padded<K: Sink>(pen: &mut Pen, out: &mut K, places: usize, number: u64)
    ensures { Writes (at (K.told out.old) (K.faults out.old) pen.old) (at (K.told out.new) (K.faults out.new) pen.new) (spec.padded places number) }
{
    let mut bytes = [0; 32];
    let first = hex_digits(u128::from(number), &mut bytes);
    let digits = &bytes[first..];
    let zeros = places.saturating_sub(digits.len()).min(8);
    put_three(pen, out, b"0x", &b"00000000"[..zeros], digits);
}

/// Begins a reference to a mark, if there is one.
#[tactic(auto, using(crate::proofs::Wrote::nothing))]
pub fn put_link_begin<K: Sink>(pen: &mut Pen, out: &mut K, mark: &[u8])
    ensures { Writes (at (K.told out.old) (K.faults out.old) pen.old) (at (K.told out.new) (K.faults out.new) pen.new) (spec.link_begin mark.now) }
{
    if !mark.is_empty() {
        put_three(pen, out, b"<a href=\"#", mark, b"\">");
    }
}

/// Ends it.
#[tactic(auto, using(crate::proofs::Wrote::nothing))]
pub fn put_link_end<K: Sink>(pen: &mut Pen, out: &mut K, mark: &[u8])
    ensures { Writes (at (K.told out.old) (K.faults out.old) pen.old) (at (K.told out.new) (K.faults out.new) pen.new) (spec.link_end mark.now) }
{
    if !mark.is_empty() {
        put(pen, out, b"</a>");
    }
}

// Writes a text of the source between others.
fn put_within<K: Sink>(pen: &mut Pen, out: &mut K, before: &[u8], text: &[u8], behind: &[u8])
    ensures { Writes (at (K.told out.old) (K.faults out.old) pen.old) (at (K.told out.new) (K.faults out.new) pen.new) (before.now ++ escaped text.now ++ behind.now) }
{
    put(pen, out, before);
    put_escaped(pen, out, text);
    put(pen, out, behind);
}

/// Writes a paragraph, if there is a text for it.
#[tactic(auto, using(crate::proofs::Wrote::nothing))]
pub fn put_paragraph<K: Sink>(pen: &mut Pen, out: &mut K, text: Option<&[u8]>)
    ensures { Writes (at (K.told out.old) (K.faults out.old) pen.old) (at (K.told out.new) (K.faults out.new) pen.new) (spec.paragraph (option_copied text.entry)) }
{
    let Some(text) = text else {
        return;
    };
    put_within(pen, out, b"<p class=\"text\">", text, b"</p>\n");
}

/// Writes a text below a heading, if there is one.
#[tactic(auto, using(crate::proofs::Wrote::nothing))]
pub fn put_title<K: Sink>(pen: &mut Pen, out: &mut K, text: Option<&[u8]>)
    ensures { Writes (at (K.told out.old) (K.faults out.old) pen.old) (at (K.told out.new) (K.faults out.new) pen.new) (spec.title (option_copied text.entry)) }
{
    let Some(text) = text else {
        return;
    };
    put_within(pen, out, b"<p class=\"title text\">", text, b"</p>\n");
}

/// Writes a text in a line, if there is one.
#[tactic(auto, using(crate::proofs::Wrote::nothing))]
pub fn put_inline<K: Sink>(pen: &mut Pen, out: &mut K, text: Option<&[u8]>)
    ensures { Writes (at (K.told out.old) (K.faults out.old) pen.old) (at (K.told out.new) (K.faults out.new) pen.new) (spec.inline (option_copied text.entry)) }
{
    if let Some(text) = text {
        put_escaped(pen, out, text);
    }
}
