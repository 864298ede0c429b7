//! Reading a module from bytes.

ghost use Rattle.std.specs.Prelude.{◌≡◌, ◌⊎◌, ◌<◌, ◌≤◌, ◌-◌, ◌^◌, None, Err, IfOk, OnOk, IfErr, drop, length};
ghost use Rattle.rb_grammar.specs.Forms.{Non};
ghost use Rattle.rb_grammar.specs.Judging.{IsGood, IsWrongAt};
ghost use Rattle.v_design.specs.Tree.{Tree, IsTree};
ghost use Rattle.v_design.specs.WellFormed.{IsWellFormed};
ghost use Rattle.v_syntax.specs.Tokens.{placed};
ghost use Rattle.v_syntax.specs.Scanned.{Scans};
ghost use Rattle.v_syntax.specs.Grammar.{grammar, nesting, most_open, Module};
ghost use Rattle.v_syntax.specs.Syntax.{IsSyntax};
ghost use Rattle.v_syntax.specs.Failing.{Fails};
ghost use Rattle.v_syntax.specs.declared.error.VError.{VError as Error};
ghost use Rattle.v_reader.specs.Reading.{IsDesign, fault_place, place_number};

use crate::design::design_of;
use rb_base::Place;
use std::alloc::Global;
use v_check::check;
use v_design::Design;
use v_lexer::{Scanned, tokens};
use v_parser::{ParseError, parse};
use v_syntax::{Parsed, VError};

/// Reads a module of the subset from fewer than 2^32 - 1 bytes (IEEE 1364-2005, annex A).
///
/// The answer is the module exactly where the bytes are a well-formed one, and else their one error with its place; or want of
/// memory. Names are looked up in order, whoever picks them.
pub fn read(alloc: Global, bytes: &[u8]) -> Result<Design, VError>
    requires { length bytes.now < 2 ^ 32 - 1 }
    ensures ok { IfOk result (IsDesign bytes.now) }
    ensures err { IfErr result (λ e. (e ≡ VError.NoMemory) ⊎ Fails bytes.now e) }
    ensures accepts { (t : Tree) → IsTree bytes.now t → IsWellFormed t → IfErr result (λ e. e ≡ VError.NoMemory) }
    ensures refuses { (e : Error) → Fails bytes.now e → (result ≡ Err e) ⊎ (result ≡ Err VError.NoMemory) }

    // An error's place is within the bytes, and a module has fewer ports than there are bytes.
    ensures within { IfErr result (λ e. place_number e ≤ length bytes.now) }
    ensures few { IfOk result (λ d. length d.ports.items ≤ length bytes.now) }
{
    let result = judged(alloc, bytes);
    result
}

// The design of the bytes, or what is wrong with them.
fn judged(alloc: Global, bytes: &[u8]) -> Result<Design, VError>
    requires { length bytes.now < 2 ^ 32 - 1 }
    ensures ok { IfOk result (IsDesign bytes.now) }
    ensures err { IfErr result (λ e. (e ≡ VError.NoMemory) ⊎ Fails bytes.now e) }
{
    let Ok(scanned) = tokens(alloc, bytes) else {
        return Err(VError::NoMemory);
    };
    let parsed = parsed(alloc, bytes, &scanned)?;
    if let Err(error) = check(alloc, bytes, &scanned.tokens, &parsed) {
        return Err(error);
    }
    match design_of(alloc, parsed) {
        Ok(design) => Ok(design),
        Err(_) => Err(VError::NoMemory),
    }
}

// What the tokens of the bytes say.
fn parsed<'s>(alloc: Global, bytes: &'s [u8], scanned: &Scanned) -> Result<Parsed<'s>, VError>
    requires small { length bytes.now < 2 ^ 32 - 1 }
    requires scans { Scans bytes.now (placed bytes.now scanned.now.tokens.items) (fault_place scanned.now) }
    ensures syntax { IfOk result (λ x. (t : Tree) × IsSyntax (placed bytes.now scanned.now.tokens.items) x t) }
    ensures good { OnOk result (IsGood grammar nesting most_open (Non Module) (placed bytes.now scanned.now.tokens.items)) }
    ensures whole { OnOk result (scanned.now.fault ≡ None) }
    ensures err { IfErr result (λ e. (e ≡ VError.NoMemory) ⊎ Fails bytes.now e) }
{
    let parsed = match parse(alloc, bytes, &scanned.tokens) {
        Ok(parsed) => parsed,
        Err(ParseError::Syntax(at)) => return Err(stopped(bytes, scanned, at)),
        Err(ParseError::TooDeep(at)) => return Err(VError::TooDeep {
            place: scanned.tokens[at].place,
        }),
        Err(ParseError::NoMemory) => return Err(VError::NoMemory),
    };
    match scanned.fault {
        Some(fault) => Err(VError::Spelling { place: fault.place }),
        None => Ok(parsed),
    }
}

// What is wrong where so many tokens begin a module and no more do.
fn stopped(bytes: &[u8], scanned: &Scanned, at: usize) -> VError
    requires small { length bytes.now < 2 ^ 32 - 1 }
    requires scans { Scans bytes.now (placed bytes.now scanned.now.tokens.items) (fault_place scanned.now) }
    requires within { at ≤ length scanned.now.tokens.items }
    requires wrong { IsWrongAt grammar nesting most_open (Non Module) (placed bytes.now scanned.now.tokens.items) (drop at (placed bytes.now scanned.now.tokens.items)) }
    ensures { Fails bytes.now result }
{
    if at < scanned.tokens.len() {
        return VError::Syntax {
            place: scanned.tokens[at].place,
        };
    }
    match scanned.fault {
        Some(fault) => VError::Spelling { place: fault.place },
        None => VError::Syntax {
            place: Place(bytes.len() as u32),
        },
    }
}
