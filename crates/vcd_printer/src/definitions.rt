//! All before the first time.

ghost use Rattle.std.specs.List.{flat_map};
ghost use Rattle.std.specs.Prelude.{◌≡◌, ◌^◌, ◌<◌, ◌≤◌, ◌++◌, ◌∷◌, [], length, OnOk, OnErr, map};
ghost use Rattle.std.specs.List.{enumerate_from};
ghost use Rattle.rb_edge.specs.Count.{Rose};
ghost use Rattle.rb_edge.specs.Sink.{Takes, TakesPart};
ghost use Rattle.rb_edge.specs.Flows.{Flows};
ghost use Rattle.vcd_syntax.specs.Dump.{end, head_text, line_text, lines_text, range_words, var_line};

use crate::digits::code_digits;
use crate::write::put_all;
use itoa::Buffer;
use rb_base::Pin;
use rb_edge::{Failed, Page, Sink};

/// Writes what stands behind the name in the declaration of a pin of this width in bits.
fn put_range<K: Sink>(page: &mut Page, out: &mut K, width: u8) -> Result<(), Failed>
    ensures { Flows (K.told out.old) (K.told out.new) (K.faults out.old) (K.faults out.new)
        page.old page.new result
        (flat_map (λ word. 32 ∷ word) (range_words width ++ end ∷ []) ++ 10 ∷ []) }
{
    if width <= 1 {
        return page.put(out, b" $end\n");
    }
    let mut high = Buffer::new();
    let high = high.format(width - 1).as_bytes();
    put_all(page, out, &[b" [", high, b":0] $end\n"])
}

/// Writes the declaration of the pin of a number, of this width in bits and this name.
fn put_var<K: Sink>(
    page: &mut Page,
    out: &mut K,
    number: u64,
    width: u8,
    name: &[u8],
) -> Result<(), Failed>
    ensures { Flows (K.told out.old) (K.told out.new) (K.faults out.old) (K.faults out.new)
        page.old page.new result
        (line_text (var_line (number, record { name = name.now; width = width }))) }
{
    let mut digits = Buffer::new();
    let digits = digits.format(width).as_bytes();
    let mut code = [0; 10];
    let len = code_digits(number, &mut code);
    put_all(
        page,
        out,
        &[b"$var wire ", digits, b" ", &code[..len], b" ", name],
    )?;
    put_range(page, out, width)
}

/// Writes the declaration of the pin of a number.
fn put_pin<K: Sink>(page: &mut Page, out: &mut K, number: u64, pin: &Pin) -> Result<(), Failed>
    ensures { Flows (K.told out.old) (K.told out.new) (K.faults out.old) (K.faults out.new)
        page.old page.new result (line_text (var_line (number, pin.now))) }
{
    put_var(page, out, number, pin.width, &pin.name.bytes)
}

/// Writes the declarations of pins.
fn put_pins<K: Sink>(page: &mut Page, out: &mut K, pins: &[Pin]) -> Result<(), Failed>
    ensures { Flows (K.told out.old) (K.told out.new) (K.faults out.old) (K.faults out.new)
        page.old page.new result (lines_text (map var_line (enumerate_from 0 pins.now))) }
{
    for (at, pin) in pins.iter().enumerate() {
        put_pin(page, out, at as u64, pin)?;
    }
    Ok(())
}

/// Puts what [`head`] writes behind the bytes that wait on a page. [`Failed`] comes as from [`Page::put`].
pub fn put_head<K: Sink>(
    page: &mut Page,
    out: &mut K,
    name: &[u8],
    pins: &[Pin],
) -> Result<(), Failed>
    ensures { Flows (K.told out.old) (K.told out.new) (K.faults out.old) (K.faults out.new)
        page.old page.new result (head_text name.now pins.now) }
{
    put_all(
        page,
        out,
        &[b"$timescale 1ns $end\n$scope module ", name, b" $end\n"],
    )?;
    put_pins(page, out, pins)?;
    page.put(out, b"$upscope $end\n$enddefinitions $end\n")
}

/// Writes all of a dump before its first time (IEEE 1364-2005, clause 18.2.3): a timescale of 1 ns, and a scope, which is
/// the module of this name, with a variable for each pin. The code of a pin is its number in base 94.
///
/// It takes no memory. [`Failed`] comes only where the sink's count of faults rose. Then a proper prefix of the text was
/// taken, and nothing else.
pub fn head<K: Sink>(out: &mut K, name: &[u8], pins: &[Pin]) -> Result<(), Failed>
    requires { length pins.now < 2 ^ 32 }
    ensures whole { OnOk result (Takes (K.told out.old) (K.told out.new) (head_text name.now pins.now)) }
    ensures part { OnErr result (TakesPart (K.told out.old) (K.told out.new) (head_text name.now pins.now)) }
    ensures later { K.faults out.old ≤ K.faults out.new }
    ensures failed { OnErr result (Rose (K.faults out.old) (K.faults out.new)) }
{
    let mut page = Page::new();
    put_head(&mut page, out, name, pins)?;
    page.flush(out)
}
