//! The lines of a source.

ghost use Rattle.std.specs.Prelude.{◌≡◌, ◌≤◌, ◌++◌, decimal, length, IfOk, OnOk};
ghost use Rattle.command_line.specs.Source.{first_line, last_line, register_line, source_of};

use itoa::Buffer;
use rb_base::NoMemory;
use std::alloc::Global;

fn push_decimal(text: &mut Vec<u8>, number: u32) -> Result<(), NoMemory>
    ensures { OnOk result (text.new.items ≡ text.old.items ++ decimal number) }
{
    let mut digits = Buffer::new();
    text.extend_from_slice(digits.format(number).as_bytes())?;
    Ok(())
}

fn push_first(text: &mut Vec<u8>, count: u32) -> Result<(), NoMemory>
    ensures { OnOk result (text.new.items ≡ text.old.items ++ first_line count) }
{
    text.extend_from_slice(b"addrmap g")?;
    push_decimal(text, count)?;
    text.extend_from_slice(b" {\n")?;
    Ok(())
}

fn push_register(text: &mut Vec<u8>, number: u32) -> Result<(), NoMemory>
    ensures { OnOk result (text.new.items ≡ text.old.items ++ register_line number) }
{
    text.extend_from_slice(b"  reg { field { sw = rw; hw = r; } a[8] = ")?;
    push_decimal(text, number % 256)?;
    text.extend_from_slice(
        b"; field { sw = r; hw = w; } b[8]; field { sw = r; hw = r; counter; } c[8] = 0; } r",
    )?;
    push_decimal(text, number)?;
    text.extend_from_slice(b";\n")?;
    Ok(())
}

/// The source of an address map of `count` registers, each with a field that software writes, one that hardware writes and a counter, of 8
/// bits each. It is within the limit of sources, 8,388,608 bytes. The only error is want of memory.
pub fn source(alloc: Global, count: u32) -> Result<Vec<u8>, NoMemory>
    requires { count ≤ 8192 }
    ensures text { IfOk result (λ text. text.items ≡ source_of count) }
    ensures short { IfOk result (λ text. length text.items ≤ 8388608) }
{
    let mut text = Vec::new(alloc);
    push_first(&mut text, count)?;
    for number in 0..count {
        push_register(&mut text, number)?;
    }
    text.extend_from_slice(b"};\n")?;
    Ok(text)
}
