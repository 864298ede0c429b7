//! The values of variables at each time.

ghost use Rattle.std.specs.Prelude.{◌≡◌, IfOk};
ghost use Rattle.vcd_reader.specs.Rows.{IsAdded};

use crate::last_values::LastValues;
use std::alloc::{AllocError, Global};
use stim_csv::Numbers;

/// The most times that a dump may have.
const MOST_TIMES: u64 = 1_000_000;

/// The most values that all times may have.
const MOST_VALUES: u64 = 16_777_216;

/// How a time goes on with those before.
#[derive(Clone, Copy, Debug, PartialEq, Eq)]
pub(crate) enum Came {
    /// It is the next one.
    Next(u64),
    /// It is not above the one before, or above all times.
    Late,
    /// There are too many times or values.
    Many,
}

/// The rows of all times but the last one, each with a value for each variable, and that last time.
///
/// The first variable without a value in the first row ends the list: no rows are kept behind it.
#[derive(Drop)]
pub(crate) struct Rows {
    pub last: Option<u64>,
    pub times: u64,
    pub values: Numbers,
    pub missing: Option<usize>,
}

/// Adds the values of a row, or answers the number of the first that is none.
fn push_row(values: &mut Numbers, now: &LastValues) -> Result<Option<usize>, AllocError>
    ensures { IfOk result (IsAdded values.old values.new now.now) }
{
    let width = now.len();
    for at in 0..width {
        match now.get(at) {
            Some(value) => values.push(value, width)?,
            None => return Ok(Some(at)),
        }
    }
    Ok(None)
}

impl Rows {
    ghost use Rattle.std.specs.Prelude.{◌≡◌, ◌<◌, [], None, OnOk, length};
    ghost use Rattle.vcd_syntax.specs.Known.{is_above};
    ghost use Rattle.vcd_reader.specs.Rows.{Closes, Comes, came_by};

    /// No time yet.
    pub fn new(alloc: Global) -> Self
        ensures last { result.last ≡ None }
        ensures times { result.times ≡ 0 }
        ensures values { result.values ≡ [] }
        ensures missing { result.missing ≡ None }
    {
        Rows {
            last: None,
            times: 0,
            values: Numbers::new(alloc),
            missing: None,
        }
    }

    fn is_above_last(&self, time: u64) -> bool
        ensures { result ≡ is_above self.now.last time }
    {
        match self.last {
            Some(last) => last < time,
            None => true,
        }
    }

    /// How a time goes on, of so many variables; None is a time above all.
    pub fn judge(&self, time: Option<u64>, variables: usize) -> Came
        ensures { result ≡ came_by self.now.last self.now.times time variables }
    {
        match time {
            Some(time) if self.is_above_last(time) => {
                if self.times < MOST_TIMES
                    && (self.times + 1).saturating_mul(variables as u64) <= MOST_VALUES
                {
                    Came::Next(time)
                } else {
                    Came::Many
                }
            }
            _ => Came::Late,
        }
    }

    /// Adds the row of the last time, if there is one and no variable was without a value.
    pub fn close(&mut self, now: &LastValues) -> Result<(), AllocError>
        ensures { OnOk result (Closes self.old self.new now.now) }
    {
        if self.last.is_some() && self.missing.is_none() {
            self.missing = push_row(&mut self.values, now)?;
        }
        Ok(())
    }

    /// Adds the row of the last time, which ends with the next one.
    pub fn come(&mut self, time: u64, now: &LastValues) -> Result<(), AllocError>
        requires { self.old.times < 1000000 }
        ensures { OnOk result (Comes self.old self.new now.now time) }
    {
        self.close(now)?;
        self.times += 1;
        self.last = Some(time);
        Ok(())
    }
}
