//! Bytes and numbers, put behind those that wait on a page.

ghost use Rattle.std.specs.Prelude.{false};
ghost use Rattle.std.specs.Fmt.{digits};
ghost use Rattle.rb_edge.specs.Flows.{Flows};

use itoa::{Buffer, Integer};
use rb_base::hex_digits;
use rb_edge::{Failed, Page, Sink};

/// Writes the bytes.
pub(crate) fn put<K: Sink>(page: &mut Page, out: &mut K, bytes: &[u8]) -> Result<(), Failed>
    ensures { Flows (K.told out.old) (K.told out.new) (K.faults out.old) (K.faults out.new)
        page.old page.new result bytes.now }
{
    page.put(out, bytes)
}

/// Writes a number in decimal digits.
pub(crate) fn put_decimal<K: Sink, I: Integer>(
    page: &mut Page,
    out: &mut K,
    number: I,
) -> Result<(), Failed>
    ensures { Flows (K.told out.old) (K.told out.new) (K.faults out.old) (K.faults out.new)
        page.old page.new result (I.text number) }
{
    let mut buffer = Buffer::new();
    put(page, out, buffer.format(number).as_bytes())
}

/// Writes a number in hexadecimal digits.
pub(crate) fn put_hex<K: Sink>(page: &mut Page, out: &mut K, number: u128) -> Result<(), Failed>
    ensures { Flows (K.told out.old) (K.told out.new) (K.faults out.old) (K.faults out.new)
        page.old page.new result (digits 16 false number) }
{
    let mut bytes = [0; 32];
    let first = hex_digits(number, &mut bytes);
    put(page, out, &bytes[first..])
}
