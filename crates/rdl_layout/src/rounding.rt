//! What addresses and sizes are rounded up to. A number at or above 2^128 is none.

ghost use Rattle.std.specs.Prelude.{◌<◌, ◌^◌, IfSome, SomeIff};
ghost use Rattle.rdl_layout.specs.Rounding as spec;

/// The least multiple of a number at or after another.
pub(crate) fn multiple_from(unit: u128, number: u128) -> Option<u128>
    requires { 0 < unit }
    ensures { SomeIff result (spec.multiple_from unit number < 2 ^ 128) (spec.multiple_from unit number) }
{
    number.checked_add((unit - number % unit) % unit)
}

/// The least power of two that is at least a number.
pub(crate) fn up(number: u128) -> Option<u128>
    ensures value { SomeIff result (spec.up number < 2 ^ 128) (spec.up number) }
    ensures positive { IfSome result (λ r. 0 < r) }
{
    number.checked_next_power_of_two()
}
