//! Words as lines.

ghost use Rattle.std.specs.Prelude.{◌≡◌, ◌++◌, IfOk, OnOk, option_copied, slice_get};
ghost use Rattle.std.specs.Fmt.{decimal};
ghost use Rattle.report_text.specs.Lines as lines;
ghost use Rattle.report_text.specs.Lines.{eight, other_line, path_at, what_is, where_is, word_line};

use crate::path::push_path;
use itoa::Buffer;
use rb_base::{NoMemory, hex_digits};
use rb_model::{Block, Word};
use std::alloc::Global;

// Adds the eight hexadecimal digits of an address.
fn push_address(text: &mut Vec<u8>, address: u32) -> Result<(), NoMemory>
    ensures { OnOk result (text.new.items ≡ text.old.items ++ eight address) }
{
    let mut bytes = [0; 32];
    let first = hex_digits(u128::from(address), &mut bytes);
    let digits = &bytes[first..];
    let zeros = 8usize.saturating_sub(digits.len());
    text.extend_from_slice(&b"00000000"[..zeros])?;
    text.extend_from_slice(digits)?;
    Ok(())
}

fn push_decimal(text: &mut Vec<u8>, number: u8) -> Result<(), NoMemory>
    ensures { OnOk result (text.new.items ≡ text.old.items ++ decimal number) }
{
    let mut buffer = Buffer::new();
    text.extend_from_slice(buffer.format(number).as_bytes())?;
    Ok(())
}

/// Adds the path of the register of a number, with indices in brackets and names behind points. The only error is want of memory.
pub fn push_register(text: &mut Vec<u8>, block: &Block, reg: u32) -> Result<(), NoMemory>
    ensures { OnOk result (text.new.items ≡ text.old.items ++ path_at block.now reg) }
{
    match block.regs.items.get(reg as usize) {
        Some(register) => push_path(text, &register.path.bytes),
        None => Ok(()),
    }
}

// Adds where a word is.
fn push_where(text: &mut Vec<u8>, word: &Word) -> Result<(), NoMemory>
    ensures { OnOk result (text.new.items ≡ text.old.items ++ where_is word.now) }
{
    text.extend_from_slice(b"0x")?;
    push_address(text, word.address)?;
    text.push(b',')?;
    push_decimal(text, word.width)?;
    text.push(b',')?;
    Ok(())
}

// Adds what it is of.
fn push_what(text: &mut Vec<u8>, block: &Block, word: &Word) -> Result<(), NoMemory>
    ensures { OnOk result (text.new.items ≡ text.old.items ++ what_is block.now word.now) }
{
    push_register(text, block, word.reg)?;
    text.push(b',')?;
    push_decimal(text, word.number)?;
    text.push(b'\n')?;
    Ok(())
}

fn push_word(text: &mut Vec<u8>, block: &Block, word: &Word) -> Result<(), NoMemory>
    ensures { OnOk result (text.new.items ≡ text.old.items ++ word_line block.now word.now) }
{
    push_where(text, word)?;
    push_what(text, block, word)
}

// Adds the word that a write reaches, where it isn't that of the read at its address.
fn push_other(
    text: &mut Vec<u8>,
    block: &Block,
    read: &Word,
    write: Option<&Word>,
) -> Result<(), NoMemory>
    ensures { OnOk result (text.new.items ≡ text.old.items ++ other_line block.now read.now (option_copied write.entry)) }
{
    match write {
        Some(write) if write.reg != read.reg => push_word(text, block, write),
        _ => Ok(()),
    }
}

fn word_at(words: &[Word], at: usize) -> Option<&Word>
    ensures { option_copied result ≡ slice_get words.now at }
{
    words.get(at)
}

/// The address table of a block: a line for each word, in order of address, with the address, the width in bits, the register's path and
/// the word's number in it, and commas between. At an address that a read-only and a write-only register share, the read-only one stands
/// first. The only error is want of memory.
#[tactic(auto, using(crate::proofs::Rows::one_more, crate::proofs::Rows::all_lines))]
pub fn address_lines(alloc: Global, block: &Block) -> Result<Vec<u8>, NoMemory>
    ensures { IfOk result (λ r. r.items ≡ lines.address_lines block.now) }
{
    let mut text = Vec::new(alloc);
    for (at, read) in block.reads.items.iter().enumerate() {
        push_word(&mut text, block, read)?;
        push_other(&mut text, block, read, word_at(&block.writes.items, at))?;
    }
    Ok(text)
}
