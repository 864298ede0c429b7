//! The values at a time.

ghost use Rattle.std.specs.Option.{option_copied};
ghost use Rattle.std.specs.Prelude.{◌≡◌, ◌*◌, ◌^◌, ◌<◌, ◌≢◌, ◌≤◌, ◌==◌, ◌++◌, ◌∷◌, ◌↔◌, [], if◌then◌else◌, codes, length, Some, IfSome, IsNone, OnOk, OnErr};
ghost use Rattle.rb_edge.specs.Count.{Rose};
ghost use Rattle.rb_edge.specs.Sink.{Takes, TakesPart};
ghost use Rattle.rb_edge.specs.Flows.{Flows};
ghost use Rattle.v_design.specs.Fits.{FitsPins};
ghost use Rattle.vcd_syntax.specs.Dump.{all_lines, change_line, changed_lines, end, line_text, lines_text, time_line, vector_text};

use crate::digits::{binary_digits, code_digits};
use crate::write::put_all;
use itoa::Buffer;
use rb_base::Pin;
use rb_edge::{Failed, Page, Sink};

/// Writes the value of one bit of the pin of a number.
fn put_bit<K: Sink>(page: &mut Page, out: &mut K, number: u64, value: u128) -> Result<(), Failed>
    requires { value < 2 }
    ensures { Flows (K.told out.old) (K.told out.new) (K.faults out.old) (K.faults out.new)
        page.old page.new result (line_text (change_line number 1 value)) }
{
    let bit = [b'0' + value as u8];
    let mut code = [0; 10];
    let len = code_digits(number, &mut code);
    put_all(page, out, &[&bit, &code[..len], b"\n"])
}

/// Writes the value of more bits of the pin of a number.
fn put_bits<K: Sink>(
    page: &mut Page,
    out: &mut K,
    number: u64,
    width: u8,
    value: u128,
) -> Result<(), Failed>
    requires { width ≢ 1 }
    ensures { Flows (K.told out.old) (K.told out.new) (K.faults out.old) (K.faults out.new)
        page.old page.new result (line_text (change_line number width value)) }
{
    let mut digits = [0; 128];
    let first = binary_digits(value, &mut digits);
    let mut code = [0; 10];
    let len = code_digits(number, &mut code);
    put_all(
        page,
        out,
        &[b"b", &digits[first..], b" ", &code[..len], b"\n"],
    )
}

/// Writes the value of the pin of a number and a width in bits.
fn put_change<K: Sink>(
    page: &mut Page,
    out: &mut K,
    number: u64,
    width: u8,
    value: u128,
) -> Result<(), Failed>
    requires { value < 2 ^ width }
    ensures { Flows (K.told out.old) (K.told out.new) (K.faults out.old) (K.faults out.new)
        page.old page.new result (line_text (change_line number width value)) }
{
    if width == 1 {
        put_bit(page, out, number, value)
    } else {
        put_bits(page, out, number, width, value)
    }
}

/// Writes the values of all pins.
fn put_all_values<K: Sink>(
    page: &mut Page,
    out: &mut K,
    pins: &[Pin],
    now: &[u128],
) -> Result<(), Failed>
    requires { FitsPins pins.now now.now }
    ensures { Flows (K.told out.old) (K.told out.new) (K.faults out.old) (K.faults out.new)
        page.old page.new result (lines_text (all_lines 0 pins.now now.now)) }
{
    for (at, pin) in pins.iter().enumerate() {
        put_change(page, out, at as u64, pin.width, now[at])?;
    }
    Ok(())
}

/// Writes the value of the pin of a number where it changed.
fn put_if_changed<K: Sink>(
    page: &mut Page,
    out: &mut K,
    number: u64,
    width: u8,
    before: u128,
    now: u128,
) -> Result<(), Failed>
    requires { now < 2 ^ width }
    ensures { Flows (K.told out.old) (K.told out.new) (K.faults out.old) (K.faults out.new)
        page.old page.new result
        (lines_text (if before == now then [] else change_line number width now ∷ [])) }
{
    if before == now {
        return Ok(());
    }
    put_change(page, out, number, width, now)
}

/// Writes the values of the pins that changed.
fn put_changed<K: Sink>(
    page: &mut Page,
    out: &mut K,
    pins: &[Pin],
    before: &[u128],
    now: &[u128],
) -> Result<(), Failed>
    requires fits { FitsPins pins.now now.now }
    requires before { FitsPins pins.now before.now }
    ensures { Flows (K.told out.old) (K.told out.new) (K.faults out.old) (K.faults out.new)
        page.old page.new result (lines_text (changed_lines 0 pins.now before.now now.now)) }
{
    for (at, pin) in pins.iter().enumerate() {
        put_if_changed(page, out, at as u64, pin.width, before[at], now[at])?;
    }
    Ok(())
}

/// Writes a time: ten for each edge.
fn put_time<K: Sink>(page: &mut Page, out: &mut K, at: u64) -> Result<(), Failed>
    requires { at < 2 ^ 60 }
    ensures { Flows (K.told out.old) (K.told out.new) (K.faults out.old) (K.faults out.new)
        page.old page.new result (line_text (time_line at)) }
{
    let mut time = Buffer::new();
    let time = time.format(10 * at).as_bytes();
    put_all(page, out, &[b"#", time, b"\n"])
}

/// Writes the values at the first time.
fn put_first<K: Sink>(
    page: &mut Page,
    out: &mut K,
    pins: &[Pin],
    now: &[u128],
) -> Result<(), Failed>
    requires { FitsPins pins.now now.now }
    ensures { Flows (K.told out.old) (K.told out.new) (K.faults out.old) (K.faults out.new)
        page.old page.new result (lines_text ((codes "$dumpvars" ∷ []) ∷ (all_lines 0 pins.now now.now ++ (end ∷ []) ∷ []))) }
{
    page.put(out, b"$dumpvars\n")?;
    put_all_values(page, out, pins, now)?;
    page.put(out, b"$end\n")
}

/// Puts what [`vector`] writes behind the bytes that wait on a page. [`Failed`] comes as from [`Page::put`].
pub fn put_vector<K: Sink>(
    page: &mut Page,
    out: &mut K,
    at: u64,
    pins: &[Pin],
    before: Option<&[u128]>,
    now: &[u128],
) -> Result<(), Failed>
    requires fits { FitsPins pins.now now.now }
    requires before { IfSome before (λ b. FitsPins pins.now b.now) }
    requires early { at < 2 ^ 60 }
    ensures { Flows (K.told out.old) (K.told out.new) (K.faults out.old) (K.faults out.new)
        page.old page.new result (vector_text at pins.now (option_copied before.entry) now.now) }
{
    put_time(page, out, at)?;
    match before {
        None => put_first(page, out, pins, now),
        Some(before) => put_changed(page, out, pins, before, now),
    }
}

/// Writes the values at the time of an edge, counted from 0 (IEEE 1364-2005, clause 18.2): the time is ten for each edge.
/// At the first edge, which has no values before, it writes those of all pins in `$dumpvars`, and at a later one those that
/// changed. A pin of one bit is its digit and its code, and a wider one `b`, its binary digits and its code.
///
/// It takes no memory. [`Failed`] comes only where the sink's count of faults rose. Then a proper prefix of the text was
/// taken, and nothing else.
pub fn vector<K: Sink>(
    out: &mut K,
    at: u64,
    pins: &[Pin],
    before: Option<&[u128]>,
    now: &[u128],
) -> Result<(), Failed>
    requires few { length pins.now < 2 ^ 32 }
    requires fits { FitsPins pins.now now.now }
    requires before { IfSome before (λ b. FitsPins pins.now b.now) }
    requires first { IsNone before ↔ (at ≡ 0) }
    requires early { at < 2 ^ 60 }
    ensures whole { OnOk result (Takes (K.told out.old) (K.told out.new)
        (vector_text at pins.now (option_copied before.entry) now.now)) }
    ensures part { OnErr result (TakesPart (K.told out.old) (K.told out.new)
        (vector_text at pins.now (option_copied before.entry) now.now)) }
    ensures later { K.faults out.old ≤ K.faults out.new }
    ensures failed { OnErr result (Rose (K.faults out.old) (K.faults out.new)) }
{
    let mut page = Page::new();
    put_vector(&mut page, out, at, pins, before, now)?;
    page.flush(out)
}
