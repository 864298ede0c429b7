//! Where the instances of a body start. A number at or above 2^128 is none.

ghost use Rattle.std.specs.Prelude.{◌≡◌, ◌<◌, ◌≤◌, ◌^◌, ◌⊎◌, IfNone, IfSome, SomeIff};
ghost use Rattle.rdl_layout.specs.Parts as spec;

use crate::part::{Mode, Part};
use crate::rounding::{multiple_from, up};

impl Part {
    ghost use Rattle.std.specs.Prelude.{◌≡◌, ◌<◌, ◌≤◌, ◌^◌, ◌⊎◌, IfNone, IfSome, SomeIff};
    ghost use Rattle.rdl_layout.specs.Parts as spec;

    /// From one element to the next, where the text gives no stride.
    fn default_stride(self, mode: Mode) -> Option<u128>
        requires { 0 < self.access }
        ensures { SomeIff result (spec.default_stride mode self < 2 ^ 128) (spec.default_stride mode self) }
    {
        match mode {
            Mode::Compact => multiple_from(self.access, self.size),
            Mode::Regalign | Mode::Fullalign => up(self.size),
        }
    }

    /// From one element to the next.
    pub fn stride(self, mode: Mode) -> Option<u128>
        requires { 0 < self.access }
        ensures { SomeIff result (spec.stride mode self < 2 ^ 128) (spec.stride mode self) }
    {
        match self.stride {
            Some(stride) => Some(u128::from(stride)),
            None => self.default_stride(mode),
        }
    }

    /// From the first byte to the last.
    pub fn span(self, mode: Mode) -> Option<u128>
        requires { 0 < self.access }
        ensures { SomeIff result (spec.span mode self < 2 ^ 128) (spec.span mode self) }
    {
        if self.others == 0 {
            return Some(self.size);
        }
        let before = u128::from(self.others).checked_mul(self.stride(mode)?)?;
        before.checked_add(self.size)
    }

    /// What a start is a multiple of where the text gives none.
    fn alignment(self, mode: Mode) -> Option<u128>
        requires { 0 < self.access }
        ensures value { SomeIff result (spec.alignment mode self < 2 ^ 128) (spec.alignment mode self) }
        ensures positive { IfSome result (λ r. 0 < r) }
    {
        match mode {
            Mode::Compact => Some(self.access),
            Mode::Regalign => up(self.size),
            Mode::Fullalign => {
                if self.is_array {
                    up(self.span(mode)?)
                } else {
                    up(self.size)
                }
            }
        }
    }

    /// Where it starts in its parent, where the instance before it ends. None too where what the start is a multiple of is none.
    pub fn start(self, mode: Mode, before: u128) -> Option<u128>
        requires { 0 < self.access }
        ensures some { IfSome result (λ r. r ≡ spec.start mode before self) }
        ensures none { IfNone result ((2 ^ 128 ≤ spec.alignment mode self) ⊎ (2 ^ 128 ≤ spec.start mode before self)) }
    {
        if let Some(at) = self.at {
            return Some(u128::from(at));
        }
        match self.align {
            Some(align) => multiple_from(u128::from(align.max(1)), before),
            None => multiple_from(self.alignment(mode)?, before),
        }
    }
}
