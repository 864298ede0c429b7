//! The variables of a dump, and the last value of each.

ghost use Rattle.std.specs.Prelude.{◌≡◌};
ghost use Rattle.vcd_reader.specs.Variables.{fits};

use crate::code_set::CodeSet;
use crate::last_values::LastValues;
use crate::word_set::WordSet;
use std::alloc::{AllocError, Global};
use stim_csv::is_within;

/// How a change went.
#[derive(Clone, Copy, Debug, PartialEq, Eq)]
pub(crate) enum Given {
    /// The variable has the value.
    Taken,
    /// No variable has the code.
    Unknown,
    /// The value does not fit the variable.
    Unfit,
}

/// The codes, names and widths in bits of variables, and the last value of each.
#[derive(Drop)]
pub(crate) struct Variables<'s> {
    pub codes: CodeSet<'s>,
    pub names: WordSet<'s>,
    pub widths: Vec<u8>,
    pub now: LastValues,
}

/// A value below 2^128 fits a variable, which has so many bits at most.
fn fits(value: Option<u128>, width: u8, most: u8) -> bool
    ensures { result ≡ fits value width most }
{
    match value {
        Some(number) if width == 1 => most > 0 && number < 2,
        Some(number) => width <= most && is_within(number, width),
        None => false,
    }
}

impl<'s> Variables<'s> {
    ghost use Rattle.std.specs.Prelude.{◌≡◌, ◌++◌, ◌∷◌, [], Some, length, IfSome, IfOk, OnOk};
    ghost use Rattle.std.specs.List.{position};
    ghost use Rattle.std.specs.Str.{bytes_eq};
    ghost use Rattle.vcd_reader.specs.Variables.{given_by, Gives, AddsCode, AddsName, AddsWidth};

    /// No variable yet.
    pub fn new(alloc: Global) -> Self
        ensures codes { result.codes ≡ [] }
        ensures names { result.names ≡ [] }
        ensures widths { result.widths.items ≡ [] }
        ensures now { result.now ≡ [] }
    {
        Variables {
            codes: CodeSet::new(alloc),
            names: WordSet::new(alloc),
            widths: Vec::new(alloc),
            now: LastValues::new(alloc),
        }
    }

    /// Adds a width.
    pub fn add_width(&mut self, width: u8) -> Result<(), AllocError>
        ensures { OnOk result (AddsWidth self.old self.new width) }
    {
        self.widths.push(width)?;
        Ok(())
    }

    /// Adds a code, of a variable without a value, unless it is there before, which is answered.
    pub fn add_code(&mut self, code: &'s [u8]) -> Result<bool, AllocError>
        ensures { IfOk result (AddsCode self.old self.new code.now) }
    {
        let again = self.codes.add(code)?;
        if !again {
            self.now.push_none()?;
        }
        Ok(again)
    }

    /// Adds a name, unless it is there before, which is answered.
    pub fn add_name(&mut self, name: &'s [u8]) -> Result<bool, AllocError>
        ensures { IfOk result (AddsName self.old self.new name.now) }
    {
        let again = self.names.add(name)?;
        Ok(again)
    }

    /// Gives a value to the variable of a code, if that has at most so many bits. Its number may have been found before.
    #[inline(always)]
    pub fn give(
        &mut self,
        code: &[u8],
        found: Option<usize>,
        value: Option<u128>,
        most: u8,
    ) -> Given
        requires widths { length self.old.widths.items ≡ length self.old.codes }
        requires now { length self.old.now ≡ length self.old.codes }
        requires found { IfSome found (λ n. position (bytes_eq code.now) self.old.codes ≡ Some n) }
        ensures given { result ≡ given_by self.old code.now value most }
        ensures gives { Gives self.old self.new code.now value result }
    {
        let Some(at) = self.codes.number_of(code, found) else {
            return Given::Unknown;
        };
        if !fits(value, self.widths[at], most) {
            return Given::Unfit;
        }
        self.now.set(at, value);
        Given::Taken
    }
}
