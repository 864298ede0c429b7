//! Macros as lines of text.

ghost use Rattle.std.specs.Prelude.{◌≡◌, ◌<◌, ◌≤◌, ◌++◌, IfOk, OnOk, codes, decimal, length};
ghost use Rattle.std.specs.Fmt.{digits};
ghost use Rattle.c_header.specs.Header as spec;
ghost use Rattle.c_header.specs.Header.{addends, constant, line, lines, offset_text, padded, parameter, parameters};
ghost use Rattle.c_header.specs.Macros.{Count, Number, Offset, along, given, index_mark, macro};

use itoa::Buffer;
use rb_base::{NoMemory, hex_digits};
use std::alloc::Global;

/// Adds a number in decimal digits. The only error is want of memory.
pub(crate) fn push_decimal(text: &mut Vec<u8>, number: usize) -> Result<(), NoMemory>
    ensures { OnOk result (text.new.items ≡ text.old.items ++ decimal number) }
{
    let mut buffer = Buffer::new();
    text.extend_from_slice(buffer.format(number).as_bytes())?;
    Ok(())
}

// Adds lower case hexadecimal digits, as many at least.
fn push_padded(text: &mut Vec<u8>, width: usize, number: u64) -> Result<(), NoMemory>
    requires { width ≤ 16 }
    ensures { OnOk result (text.new.items ≡ text.old.items ++ padded width number) }
{
    let mut bytes = [0; 32];
    let first = hex_digits(u128::from(number), &mut bytes);
    let digits = &bytes[first..];
    let zeros = width.saturating_sub(digits.len());
    text.extend_from_slice(&b"0000000000000000"[..zeros])?;
    text.extend_from_slice(digits)?;
    Ok(())
}

// Adds a number between what begins a constant and its end.
fn push_marked(text: &mut Vec<u8>, mark: &[u8], width: usize, number: u64) -> Result<(), NoMemory>
    requires { width ≤ 16 }
    ensures { OnOk result (text.new.items ≡ text.old.items ++ ((mark.now ++ padded width number) ++ codes ")")) }
{
    text.extend_from_slice(mark)?;
    push_padded(text, width, number)?;
    text.push(b')')?;
    Ok(())
}

fn push_constant(text: &mut Vec<u8>, number: u64) -> Result<(), NoMemory>
    ensures { OnOk result (text.new.items ≡ text.old.items ++ constant number) }
{
    if number < 4_294_967_296 {
        return push_marked(text, b"UINT32_C(0x", 8, number);
    }
    push_marked(text, b"UINT64_C(0x", 16, number)
}

fn push_parameter(text: &mut Vec<u8>, place: usize) -> Result<(), NoMemory>
    ensures { OnOk result (text.new.items ≡ text.old.items ++ parameter place) }
{
    text.push(b'i')?;
    push_decimal(text, place)
}

fn push_comma(text: &mut Vec<u8>, place: usize) -> Result<(), NoMemory>
    ensures { OnOk result (text.new.items ≡ text.old.items ++ spec.comma place) }
{
    if place > 0 {
        text.extend_from_slice(b", ")?;
    }
    Ok(())
}

fn push_parameters(text: &mut Vec<u8>, strides: &[u32]) -> Result<(), NoMemory>
    ensures { OnOk result (text.new.items ≡ text.old.items ++ parameters strides.now) }
{
    for place in 0..strides.len() {
        push_comma(text, place)?;
        push_parameter(text, place)?;
    }
    Ok(())
}

fn push_addend(text: &mut Vec<u8>, place: usize, stride: u32) -> Result<(), NoMemory>
    ensures { OnOk result (text.new.items ≡ text.old.items ++ spec.addend (place, stride)) }
{
    text.extend_from_slice(b" + ")?;
    push_constant(text, u64::from(stride))?;
    text.extend_from_slice(b" * (")?;
    push_parameter(text, place)?;
    text.push(b')')?;
    Ok(())
}

fn push_addends(text: &mut Vec<u8>, strides: &[u32]) -> Result<(), NoMemory>
    ensures { OnOk result (text.new.items ≡ text.old.items ++ addends strides.now) }
{
    for (place, stride) in strides.iter().enumerate() {
        push_addend(text, place, *stride)?;
    }
    Ok(())
}

fn push_offset_value(text: &mut Vec<u8>, address: u32, strides: &[u32]) -> Result<(), NoMemory>
    ensures { OnOk result (text.new.items ≡ text.old.items ++ offset_text address strides.now) }
{
    if strides.is_empty() {
        text.push(b' ')?;
        return push_constant(text, u64::from(address));
    }
    text.push(b'(')?;
    push_parameters(text, strides)?;
    text.extend_from_slice(b") (")?;
    push_constant(text, u64::from(address))?;
    push_addends(text, strides)?;
    text.push(b')')?;
    Ok(())
}

// Adds what stands before a macro's value.
fn push_define(text: &mut Vec<u8>, base: &[u8], word: &[u8]) -> Result<(), NoMemory>
    ensures { OnOk result (text.new.items ≡ text.old.items ++ codes "#define " ++ (base.now ++ word.now)) }
{
    text.extend_from_slice(b"#define ")?;
    text.extend_from_slice(base)?;
    text.extend_from_slice(word)?;
    Ok(())
}

/// Adds the macro of a count. The only error is want of memory.
pub(crate) fn push_count(
    text: &mut Vec<u8>,
    base: &[u8],
    word: &[u8],
    count: u32,
) -> Result<(), NoMemory>
    ensures { OnOk result (text.new.items ≡ text.old.items ++ line (macro base.now word.now (Count count))) }
{
    push_define(text, base, word)?;
    text.push(b' ')?;
    push_decimal(text, count as usize)?;
    text.push(b'\n')?;
    Ok(())
}

/// Adds the macro of a number. The only error is want of memory.
pub(crate) fn push_number(
    text: &mut Vec<u8>,
    base: &[u8],
    word: &[u8],
    number: u64,
) -> Result<(), NoMemory>
    ensures { OnOk result (text.new.items ≡ text.old.items ++ line (macro base.now word.now (Number number))) }
{
    push_define(text, base, word)?;
    text.push(b' ')?;
    push_constant(text, number)?;
    text.push(b'\n')?;
    Ok(())
}

/// Adds the macro of a number, if there is one. The only error is want of memory.
pub(crate) fn push_given(
    text: &mut Vec<u8>,
    base: &[u8],
    word: &[u8],
    number: Option<u64>,
) -> Result<(), NoMemory>
    ensures { OnOk result (text.new.items ≡ text.old.items ++ lines (given base.now word.now number)) }
{
    match number {
        Some(number) => push_number(text, base, word, number),
        None => Ok(()),
    }
}

/// Adds the macro of an address. The only error is want of memory.
pub(crate) fn push_offset(
    text: &mut Vec<u8>,
    base: &[u8],
    address: u32,
    strides: &[u32],
) -> Result<(), NoMemory>
    ensures { OnOk result (text.new.items ≡ text.old.items ++ line (macro base.now (codes "_OFFSET") (Offset address strides.now))) }
{
    push_define(text, base, b"_OFFSET")?;
    push_offset_value(text, address, strides)?;
    text.push(b'\n')?;
    Ok(())
}

// A macro's last word, with the index where there are several.
fn index_word(alloc: Global, word: &[u8], several: bool, place: usize) -> Result<Vec<u8>, NoMemory>
    ensures { IfOk result (λ r. r.items ≡ word.now ++ index_mark several place) }
{
    let mut text = Vec::from_slice(alloc, word)?;
    if several {
        push_decimal(&mut text, place)?;
    }
    Ok(text)
}

/// Adds the macros of counts, one for each index. The only error is want of memory.
pub(crate) fn push_counts(
    alloc: Global,
    text: &mut Vec<u8>,
    base: &[u8],
    counts: &[u32],
) -> Result<(), NoMemory>
    ensures { OnOk result (text.new.items ≡ text.old.items ++ lines (along base.now (codes "_COUNT") Count counts.now)) }
{
    for (place, count) in counts.iter().enumerate() {
        let word = index_word(alloc, b"_COUNT", counts.len() > 1, place)?;
        push_count(text, base, &word, *count)?;
    }
    Ok(())
}

/// Adds the macros of strides, one for each index. The only error is want of memory.
pub(crate) fn push_strides(
    alloc: Global,
    text: &mut Vec<u8>,
    base: &[u8],
    strides: &[u32],
) -> Result<(), NoMemory>
    ensures { OnOk result (text.new.items ≡ text.old.items ++ lines (along base.now (codes "_STRIDE") Number strides.now)) }
{
    for (place, stride) in strides.iter().enumerate() {
        let word = index_word(alloc, b"_STRIDE", strides.len() > 1, place)?;
        push_number(text, base, &word, u64::from(*stride))?;
    }
    Ok(())
}
