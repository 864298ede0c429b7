//! The words of a command line.

ghost use Rattle.std.specs.Prelude.{◌≡◌, MatchOption, option_copied};
ghost use Rattle.command_line.specs.Words.{Asks, AsksNothing, texts};
ghost use Rattle.command_line.specs.Words as commands;
ghost use Rattle.command_line.specs.Found as found;
ghost use Rattle.command_line.specs.Command.{view, view_all};

use crate::flags::{top_of, waits_of};
use crate::forms::{are_files, count_of, is_file};

/// What the words of a command line ask for.
#[derive(Clone, Copy, Debug, PartialEq, Eq)]
pub enum Command<'w> {
    /// The module of a source; `waits` is the number of wait states, 0 or 1, where it is written.
    Compile {
        waits: Option<u8>,
        top: Option<&'w str>,
        source: &'w str,
    },
    /// The verdicts of 1 to 64 sources.
    Check {
        top: Option<&'w str>,
        sources: &'w [String],
    },
    /// The address table of a source.
    Map {
        top: Option<&'w str>,
        source: &'w str,
    },
    /// The C header of a source.
    Header {
        top: Option<&'w str>,
        source: &'w str,
    },
    /// The manual page of a source.
    Manual {
        top: Option<&'w str>,
        source: &'w str,
    },
    /// The module of a source behind an AXI4-Lite slave port.
    Axi {
        top: Option<&'w str>,
        source: &'w str,
    },
    /// The run of a module.
    Sim {
        verilog: &'w str,
        stimulus: &'w str,
    },
    /// The run of a module as a value change dump.
    Vcd {
        verilog: &'w str,
        stimulus: &'w str,
    },
    /// The table of a value change dump.
    Pins {
        waves: &'w str,
    },
    /// The run of the register machine that a source describes; `waits` as for `Compile`.
    Run {
        waits: Option<u8>,
        top: Option<&'w str>,
        source: &'w str,
        stimulus: &'w str,
    },
    /// A script played on the register machine that a source describes.
    Drive {
        top: Option<&'w str>,
        source: &'w str,
        script: &'w str,
    },
    /// A source of as many registers, 1 to 8,192.
    Gen {
        count: u32,
    },
}

// The file of `compile`, with the wait states and the name of the top.
fn compile_of(words: &[String]) -> Option<Command<'_>>
    ensures { view_all result ≡ found.compiled (found.waited (texts words.now)) }
{
    let Some(waited) = waits_of(words) else {
        return None;
    };
    let Some(topped) = top_of(waited.rest) else {
        return None;
    };
    match topped.rest {
        [source] if is_file(source.as_str()) => Some(Command::Compile {
            waits: waited.waits,
            top: topped.top,
            source: source.as_str(),
        }),
        _ => None,
    }
}

// The file of `map`, with the name of the top.
fn map_of(words: &[String]) -> Option<Command<'_>>
    ensures { view_all result ≡ found.one_file commands.map_of (found.topped (texts words.now)) }
{
    let Some(topped) = top_of(words) else {
        return None;
    };
    match topped.rest {
        [source] if is_file(source.as_str()) => Some(Command::Map {
            top: topped.top,
            source: source.as_str(),
        }),
        _ => None,
    }
}

// The file of `header`, likewise.
fn header_of(words: &[String]) -> Option<Command<'_>>
    ensures { view_all result ≡ found.one_file commands.header_of (found.topped (texts words.now)) }
{
    let Some(topped) = top_of(words) else {
        return None;
    };
    match topped.rest {
        [source] if is_file(source.as_str()) => Some(Command::Header {
            top: topped.top,
            source: source.as_str(),
        }),
        _ => None,
    }
}

// The file of `manual`, likewise.
fn manual_of(words: &[String]) -> Option<Command<'_>>
    ensures { view_all result ≡ found.one_file commands.manual_of (found.topped (texts words.now)) }
{
    let Some(topped) = top_of(words) else {
        return None;
    };
    match topped.rest {
        [source] if is_file(source.as_str()) => Some(Command::Manual {
            top: topped.top,
            source: source.as_str(),
        }),
        _ => None,
    }
}

// The file of `axi`, likewise.
fn axi_of(words: &[String]) -> Option<Command<'_>>
    ensures { view_all result ≡ found.one_file commands.axi_of (found.topped (texts words.now)) }
{
    let Some(topped) = top_of(words) else {
        return None;
    };
    match topped.rest {
        [source] if is_file(source.as_str()) => Some(Command::Axi {
            top: topped.top,
            source: source.as_str(),
        }),
        _ => None,
    }
}

// The files of `check`, likewise.
fn check_of(words: &[String]) -> Option<Command<'_>>
    ensures { view_all result ≡ found.some_files (found.topped (texts words.now)) }
{
    let Some(topped) = top_of(words) else {
        return None;
    };
    if !are_files(topped.rest) {
        return None;
    }
    Some(Command::Check {
        top: topped.top,
        sources: topped.rest,
    })
}

// The files of `sim`.
fn sim_of(words: &[String]) -> Option<Command<'_>>
    ensures { view_all result ≡ found.two_files commands.sim (texts words.now) }
{
    match words {
        [verilog, stimulus] if is_file(verilog.as_str()) && is_file(stimulus.as_str()) => {
            Some(Command::Sim {
                verilog: verilog.as_str(),
                stimulus: stimulus.as_str(),
            })
        }
        _ => None,
    }
}

// The files of `vcd`.
fn vcd_of(words: &[String]) -> Option<Command<'_>>
    ensures { view_all result ≡ found.two_files commands.vcd (texts words.now) }
{
    match words {
        [verilog, stimulus] if is_file(verilog.as_str()) && is_file(stimulus.as_str()) => {
            Some(Command::Vcd {
                verilog: verilog.as_str(),
                stimulus: stimulus.as_str(),
            })
        }
        _ => None,
    }
}

// The file of `pins`.
fn pins_of(words: &[String]) -> Option<Command<'_>>
    ensures { view_all result ≡ found.one_dump (texts words.now) }
{
    match words {
        [waves] if is_file(waves.as_str()) => Some(Command::Pins {
            waves: waves.as_str(),
        }),
        _ => None,
    }
}

// The files of `run`, behind its wait states.
fn run_behind(waits: Option<u8>, words: &[String]) -> Option<Command<'_>>
    ensures { view_all result ≡ found.file_pair (commands.run_of waits) (found.topped (texts words.now)) }
{
    let Some(topped) = top_of(words) else {
        return None;
    };
    match topped.rest {
        [source, stimulus] if is_file(source.as_str()) && is_file(stimulus.as_str()) => {
            Some(Command::Run {
                waits,
                top: topped.top,
                source: source.as_str(),
                stimulus: stimulus.as_str(),
            })
        }
        _ => None,
    }
}

// The files of `run`, with the wait states and the name of the top.
fn run_of(words: &[String]) -> Option<Command<'_>>
    ensures { view_all result ≡ found.ran (found.waited (texts words.now)) }
{
    match waits_of(words) {
        Some(waited) => run_behind(waited.waits, waited.rest),
        None => None,
    }
}

// The files of `drive`, behind the name of its top.
fn drive_behind<'w>(top: Option<&'w str>, words: &'w [String]) -> Option<Command<'w>>
    ensures { view_all result ≡ found.driven_by (option_copied top.entry) (texts words.now) }
{
    match words {
        [source, script] if is_file(source.as_str()) && is_file(script.as_str()) => {
            Some(Command::Drive {
                top,
                source: source.as_str(),
                script: script.as_str(),
            })
        }
        _ => None,
    }
}

// The files of `drive`, with the name of the top.
fn drive_of(words: &[String]) -> Option<Command<'_>>
    ensures { view_all result ≡ found.driven (found.topped (texts words.now)) }
{
    match top_of(words) {
        Some(topped) => drive_behind(topped.top, topped.rest),
        None => None,
    }
}

// The number of `gen`.
fn gen_of(words: &[String]) -> Option<Command<'_>>
    ensures { view_all result ≡ found.one_count (texts words.now) }
{
    let [word] = words else {
        return None;
    };
    match count_of(word.as_str()) {
        Some(count) => Some(Command::Gen { count }),
        None => None,
    }
}

// The command that the words name.
fn named_by(words: &[String]) -> Option<Command<'_>>
    ensures { view_all result ≡ found.found_in (texts words.now) }
{
    let [name, rest @ ..] = words else {
        return None;
    };
    if name.as_str() == "compile" {
        return compile_of(rest);
    }
    if name.as_str() == "map" {
        return map_of(rest);
    }
    if name.as_str() == "header" {
        return header_of(rest);
    }
    if name.as_str() == "manual" {
        return manual_of(rest);
    }
    if name.as_str() == "axi" {
        return axi_of(rest);
    }
    if name.as_str() == "check" {
        return check_of(rest);
    }
    if name.as_str() == "sim" {
        return sim_of(rest);
    }
    if name.as_str() == "vcd" {
        return vcd_of(rest);
    }
    if name.as_str() == "pins" {
        return pins_of(rest);
    }
    if name.as_str() == "run" {
        return run_of(rest);
    }
    if name.as_str() == "drive" {
        return drive_of(rest);
    }
    if name.as_str() == "gen" {
        return gen_of(rest);
    }
    None
}

/// The command of the words behind the program's name, if there is one: `compile` and `run` take `--waits` with 0 or 1 and then `--top` with
/// a name, `check`, `map`, `header`, `manual`, `axi` and `drive` take `--top`, and `gen` takes a number from 1 to 8,192 in decimal without leading zeros. All other words are none.
pub fn command_of(words: &[String]) -> Option<Command<'_>>
    ensures { MatchOption result (AsksNothing (texts words.now)) (λ command. Asks (texts words.now) (view command)) }
{
    named_by(words)
}
