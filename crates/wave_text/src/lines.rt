//! Lines of cells, put on a page.

ghost use Rattle.std.specs.Prelude.{◌≡◌, ◌<◌, ◌++◌, [], codes, length, map, slice_index_or};
ghost use Rattle.rb_edge.specs.Flows.{Flows};
ghost use Rattle.report_text.specs.Printed.{cell, joined, line};
ghost use Rattle.wave_text.specs.Pieces.{comma};

use rb_base::{Pin, hex_digits};
use rb_edge::{Failed, Page, Sink};
use vcd_reader::Waves;

// What stands before a cell of a number, counted from 0.
fn comma(at: usize) -> &'static [u8]
    ensures { result.now ≡ comma at }
{
    if at == 0 { b"" } else { b"," }
}

// Puts a name, behind a comma where it isn't the first.
fn put_name<K: Sink>(page: &mut Page, out: &mut K, at: usize, name: &[u8]) -> Result<(), Failed>
    ensures { Flows (K.told out.old) (K.told out.new) (K.faults out.old) (K.faults out.new)
        page.old page.new result (comma at ++ name.now) }
{
    page.put(out, comma(at))?;
    page.put(out, name)
}

// What stands before the digits of a number.
fn prefix(at: usize) -> &'static [u8]
    ensures { result.now ≡ comma at ++ codes "0x" }
{
    if at == 0 { b"0x" } else { b",0x" }
}

// Puts digits behind what stands before them. A single one, as most are, is put in one piece.
fn put_digits<K: Sink>(page: &mut Page, out: &mut K, at: usize, digits: &[u8]) -> Result<(), Failed>
    ensures { Flows (K.told out.old) (K.told out.new) (K.faults out.old) (K.faults out.new)
        page.old page.new result (comma at ++ (codes "0x" ++ digits.now)) }
{
    match digits {
        [digit] if at > 0 => page.put(out, &[b',', b'0', b'x', *digit]),
        _ => {
            page.put(out, prefix(at))?;
            page.put(out, digits)
        }
    }
}

// Puts a number in hexadecimal digits, behind a comma where it isn't the first.
fn put_value<K: Sink>(page: &mut Page, out: &mut K, at: usize, number: u128) -> Result<(), Failed>
    ensures { Flows (K.told out.old) (K.told out.new) (K.faults out.old) (K.faults out.new)
        page.old page.new result (comma at ++ cell number) }
{
    let mut bytes = [0; 32];
    let first = hex_digits(number, &mut bytes);
    put_digits(page, out, at, &bytes[first..])
}

fn name_of(pin: &Pin) -> &[u8]
    ensures { result.now ≡ pin.now.name }
{
    &pin.name.bytes
}

// Puts names with commas between.
fn put_all_names<K: Sink>(page: &mut Page, out: &mut K, pins: &[Pin]) -> Result<(), Failed>
    ensures { Flows (K.told out.old) (K.told out.new) (K.faults out.old) (K.faults out.new)
        page.old page.new result (joined (map (λ p. p.name) pins.now)) }
{
    for (at, pin) in pins.iter().enumerate() {
        put_name(page, out, at, name_of(pin))?;
    }
    Ok(())
}

// Puts the numbers of a row with commas between.
fn put_all_values<K: Sink>(
    page: &mut Page,
    out: &mut K,
    waves: &Waves,
    row: u64,
) -> Result<(), Failed>
    requires row { row < length waves.now.rows }
    requires wide { length (slice_index_or waves.now.rows row []) ≡ length waves.now.pins }
    ensures { Flows (K.told out.old) (K.told out.new) (K.faults out.old) (K.faults out.new)
        page.old page.new result (joined (map cell (slice_index_or waves.now.rows row []))) }
{
    for at in 0..waves.pins().len() {
        put_value(page, out, at, waves.value(row, at))?;
    }
    Ok(())
}

/// Puts the names of the variables as a line.
pub(crate) fn put_names<K: Sink>(page: &mut Page, out: &mut K, pins: &[Pin]) -> Result<(), Failed>
    ensures { Flows (K.told out.old) (K.told out.new) (K.faults out.old) (K.faults out.new)
        page.old page.new result (line (map (λ p. p.name) pins.now)) }
{
    put_all_names(page, out, pins)?;
    page.put(out, b"\n")
}

/// Puts the numbers of a row as a line.
pub(crate) fn put_row<K: Sink>(
    page: &mut Page,
    out: &mut K,
    waves: &Waves,
    row: u64,
) -> Result<(), Failed>
    requires row { row < length waves.now.rows }
    requires wide { length (slice_index_or waves.now.rows row []) ≡ length waves.now.pins }
    ensures { Flows (K.told out.old) (K.told out.new) (K.faults out.old) (K.faults out.new)
        page.old page.new result (line (map cell (slice_index_or waves.now.rows row []))) }
{
    put_all_values(page, out, waves, row)?;
    page.put(out, b"\n")
}
