//! What settings and texts say of the width of a field and of what software does with it.

ghost use Rattle.std.specs.Prelude.{◌≡◌, ℕ, ◌+◌, ◌-◌, ◌<◌, ◌≤◌, ◌↔◌, IfSome, IsTrue, Some, slice_get, unwrap_or};
ghost use Rattle.rdl_props.specs.declared.prop.Prop.TheVariants as props_;
ghost use Rattle.rdl_values.specs.Elaborated.{nodes_of};
ghost use Rattle.rdl_values.specs.Instances.{Instance};
ghost use Rattle.rdl_layers.specs.Phase4.{first_or};
ghost use Rattle.rdl_layers.specs.Settings.{given, setting};
ghost use Rattle.rdl_values.specs.Values.{Around, number_of};
ghost use Rattle.rdl_failures.specs.Shown.{IsShown};
ghost use Rattle.rdl_layout.specs.Fields as fields;
ghost use Rattle.rdl_addr.specs.TextReadings.{numbers_in};
ghost use Rattle.rdl_addr.specs.Fields.{side_of as side_by};
ghost use Rattle.rdl_bits.specs.Widths as widths;

use rdl_base::Keyword;
use rdl_failures::number_seen;
use rdl_layers::{Props, Setting};
use rdl_layout::{Field, Side};
use rdl_props::Prop;
use rdl_tree::Expr;
use rdl_values::Chain;

/// What software does with a field, by its setting of `sw`.
pub(crate) fn side_of(props: &Props<'_>, node: u32) -> Side
    requires { node < props.now.count }
    ensures { (n : Instance) → slice_get (nodes_of props.now) node ≡ Some n → result ≡ side_by (setting n props_.Sw) }
{
    match props.value(node, Prop::Sw) {
        Setting::Word(Keyword::R) => Side::Reads,
        Setting::Word(Keyword::W | Keyword::W1) => Side::Writes,
        _ => Side::Other,
    }
}

/// The number of an expression, or else that of those behind it.
fn number_or<'a>(
    expr: &Expr<'a>,
    visible: &Chain<'_, '_, '_, 'a>,
    behind: Option<u64>,
) -> Option<u64>
    ensures { (around : Around) → IsShown visible.now around → (d : ℕ) → unwrap_or result d ≡ first_or (given (number_of around expr.now)) (unwrap_or behind d) }
{
    match number_seen(expr, visible) {
        Ok(number) => Some(number),
        Err(_) => behind,
    }
}

/// The first of some numbers.
pub(crate) fn first_number<'a>(exprs: &[Expr<'a>], visible: &Chain<'_, '_, '_, 'a>) -> Option<u64>
    ensures { (around : Around) → IsShown visible.now around → (d : ℕ) → first_or (numbers_in around exprs.now) d ≡ unwrap_or result d }
{
    let mut first = None;
    for at in (0..exprs.len()).rev() {
        first = number_or(&exprs[at], visible, first);
    }
    first
}

/// The width that a bracket gives, else a range, else a property.
pub(crate) fn width_by(bracket: Option<u64>, range: Option<(u64, u64)>, set: u64) -> u64
    ensures { fields.IsRange range → result ≡ widths.width_by bracket range set }
{
    if let Some(width) = bracket {
        return width;
    }
    match range {
        Some((high, low)) => high.saturating_sub(low).saturating_add(1),
        None => set,
    }
}

/// Whether a range has 1 to 64 bits, if there is one.
fn is_range(range: Option<(u64, u64)>) -> bool
    ensures { IsTrue result ↔ fields.IsRange range }
{
    match range {
        Some((high, low)) => low <= high && high - low < 64,
        None => true,
    }
}

/// Whether a field has 1 to 64 bits.
pub(crate) fn is_fit(field: &Field) -> bool
    ensures { IsTrue result ↔ fields.IsFit field.now }
{
    0 < field.width && field.width <= 64 && is_range(field.range)
}
