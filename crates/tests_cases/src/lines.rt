//! The parts of a block as lines of text: a field's and a view's parts that are off are left out.

use rb_base::Text;
use rb_model::{Feed, Field, Gate, Latch, Mask, OnRead, OnWrite, Reg, Signal, View, Word};
use std::alloc::{AllocError, Global};
use std::str;

/// A name as a text.
pub(crate) fn name_of(text: &Text) -> &str {
    str::from_utf8(&text.bytes).unwrap_or("?")
}

/// A signal, by its number.
pub(crate) fn signal_line(alloc: Global, at: usize, signal: &Signal) -> Result<String, AllocError> {
    let place = if signal.root {
        "at the root"
    } else {
        "under the top"
    };
    format!(in alloc;
        "  signal {at} {}: {} bits, {place}",
        name_of(&signal.path),
        signal.width
    )
}

fn access(reads: bool, writes: bool) -> &'static str {
    match (reads, writes) {
        (true, true) => "rw",
        (true, false) => "r",
        (false, true) => "w",
        (false, false) => "na",
    }
}

fn add_reset(alloc: Global, line: &mut String, field: &Field) -> Result<(), AllocError> {
    if let Some(value) = field.reset {
        line.push_str(format!(in alloc; ", reset {value}")?.as_str())?;
    }
    match field.reset_by.signal {
        Some(signal) => line.push_str(format!(in alloc; ", by signal {signal}")?.as_str())?,
        None => line.push_str(", by PRESETn")?,
    }
    line.push_str(if field.reset_by.low { " low" } else { " high" })?;
    line.push_str(if field.reset_by.sync {
        " sync"
    } else {
        " async"
    })
}

fn add_loading(alloc: Global, line: &mut String, field: &Field) -> Result<(), AllocError> {
    if field.hw_first {
        line.push_str(", hardware first")?;
    }
    if field.source != Feed::Off {
        line.push_str(format!(in alloc; ", source {:?}", field.source)?.as_str())?;
    }
    if field.gate != Gate::Always {
        line.push_str(format!(in alloc; ", gate {:?}", field.gate)?.as_str())?;
    }
    if let Some(count) = field.count {
        line.push_str(format!(in alloc; ", {count:?}")?.as_str())?;
    }
    if field.latch != Latch::Off {
        line.push_str(format!(in alloc; ", latch {:?}", field.latch)?.as_str())?;
    }
    Ok(())
}

fn add_masks(alloc: Global, line: &mut String, field: &Field) -> Result<(), AllocError> {
    if field.set != Feed::Off {
        line.push_str(format!(in alloc; ", set {:?}", field.set)?.as_str())?;
    }
    if field.clear != Feed::Off {
        line.push_str(format!(in alloc; ", clear {:?}", field.clear)?.as_str())?;
    }
    if field.keep != Mask::Off {
        line.push_str(format!(in alloc; ", keep {:?}", field.keep)?.as_str())?;
    }
    if field.enable != Mask::Off {
        line.push_str(format!(in alloc; ", enable {:?}", field.enable)?.as_str())?;
    }
    if field.halt != Mask::Off {
        line.push_str(format!(in alloc; ", halt {:?}", field.halt)?.as_str())?;
    }
    Ok(())
}

/// A field, by its number.
pub(crate) fn field_line(alloc: Global, at: usize, field: &Field) -> Result<String, AllocError> {
    let hardware = access(field.hw_reads, field.hw_writes);
    let path = name_of(&field.path);
    let mut line = format!(in alloc;
        "  field {at} {path}: register {}, {} bits, {:?}, hw {hardware}",
        field.reg, field.width, field.class
    )?;
    add_reset(alloc, &mut line, field)?;
    add_loading(alloc, &mut line, field)?;
    add_masks(alloc, &mut line, field)?;
    if field.pulse {
        line.push_str(", pulse")?;
    }
    if field.once {
        line.push_str(", once")?;
    }
    for shown in &field.shown.items {
        line.push_str(format!(in alloc; ", shown {shown:?}")?.as_str())?;
    }
    Ok(line)
}

/// A view, by its number.
pub(crate) fn view_line(alloc: Global, at: usize, view: &View) -> Result<String, AllocError> {
    let software = access(view.reads, view.writes);
    let path = name_of(&view.path);
    let mut line = format!(in alloc; "  view {at} {path}: field {}, sw {software}", view.field)?;
    if view.once {
        line.push_str(", once")?;
    }
    if view.alias {
        line.push_str(", alias")?;
    }
    if view.on_write != OnWrite::Off {
        line.push_str(format!(in alloc; ", on write {:?}", view.on_write)?.as_str())?;
    }
    if view.on_read != OnRead::Off {
        line.push_str(format!(in alloc; ", on read {:?}", view.on_read)?.as_str())?;
    }
    if view.gate != Gate::Always {
        line.push_str(format!(in alloc; ", gate {:?}", view.gate)?.as_str())?;
    }
    Ok(line)
}

/// A word that is read or written, with its slots.
pub(crate) fn word_line(alloc: Global, verb: &str, word: &Word) -> Result<String, AllocError> {
    let mut line = format!(in alloc;
        "  {verb} 0x{:x}: {} bits, word {} of register {}",
        word.address, word.width, word.number, word.reg
    )?;
    for slot in &word.slots.items {
        let text = format!(in alloc;
            ", view {} at {} from {} for {}",
            slot.view, slot.low, slot.from, slot.bits
        )?;
        line.push_str(text.as_str())?;
    }
    Ok(line)
}

/// A register, by its number.
pub(crate) fn register_line(alloc: Global, at: usize, reg: &Reg) -> Result<String, AllocError> {
    let mut line = format!(in alloc; "  register {at} {}", name_of(&reg.path))?;
    if reg.alias {
        line.push_str(", alias")?;
    }
    if reg.intr {
        line.push_str(", intr")?;
    }
    if reg.halt {
        line.push_str(", halt")?;
    }
    Ok(line)
}
