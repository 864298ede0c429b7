//! Settings as texts.

use rb_base::{NoMemory, Trigger};
use rdl_layers::Setting;
use std::alloc::Global;

// A trigger as a word.
fn trigger_word(trigger: Trigger) -> &'static str {
    match trigger {
        Trigger::Level => "level",
        Trigger::Posedge => "posedge",
        Trigger::Negedge => "negedge",
        Trigger::Bothedge => "bothedge",
        Trigger::Nonsticky => "nonsticky",
    }
}

// The side that a precedence names.
fn side(hardware: bool) -> &'static str {
    if hardware { "hw" } else { "sw" }
}

/// A setting as a text.
pub(crate) fn text_of(alloc: Global, setting: Setting<'_>) -> Result<String, NoMemory> {
    let text = match setting {
        Setting::Unset => format!(in alloc; "unset")?,
        Setting::Flag(flag) => format!(in alloc; "{flag}")?,
        Setting::Number(number) => format!(in alloc; "{number}")?,
        Setting::Str(text) => format!(in alloc; "a string of {} bytes", text.len())?,
        Setting::Word(word) => format!(in alloc; "{}", word.word())?,
        Setting::Intr(trigger) => format!(in alloc; "{}", trigger_word(trigger))?,
        Setting::Hard(hardware) => format!(in alloc; "{}", side(hardware))?,
        Setting::EnumOf { scope, .. } => {
            format!(in alloc; "an enumeration, seen from body {scope}")?
        }
        Setting::Ref { scope, .. } => format!(in alloc; "a reference, seen from body {scope}")?,
    };
    Ok(text)
}
