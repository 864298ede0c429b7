//! What names nothing.

ghost use Rattle.std.specs.Prelude.{◌≡◌, true};
ghost use Rattle.rdl_closed.specs.Closed.{AreClosed, IsClosed, IsClosedEntry};

use rdl_tree::{Entry, Expr};

/// Whether an expression names nothing, neither a parameter nor an entry of an enumeration. Its value, or its first failure, is then
/// the same in all bodies. It recurses as deep as the tree goes.
pub fn is_closed(expr: &Expr<'_>) -> bool
    ensures { result ≡ true → IsClosed expr.now }
{
    match expr {
        Expr::Number(..) | Expr::Flag(..) | Expr::Str(..) => true,
        Expr::Ref(..) | Expr::EntryOf(..) => false,
        Expr::Not(operand, _) => is_closed(operand),
        Expr::Binary(_, left, right, _) => is_closed(left) && is_closed(right),
        Expr::Pick(test, chosen, other, _) => {
            is_closed(test) && is_closed(chosen) && is_closed(other)
        }
    }
}

// Whether the value of an entry names nothing, if it has one.
fn is_closed_entry(entry: &Entry<'_>) -> bool
    ensures { result ≡ true → IsClosedEntry entry.now }
{
    match &entry.value {
        Some(value) => is_closed(value),
        None => true,
    }
}

/// Whether the values of the entries of an enumeration name nothing. Then the entries have the same numbers in all bodies, and the same
/// one fails, if any does.
pub fn are_closed(entries: &[Entry<'_>]) -> bool
    ensures { result ≡ true → AreClosed entries.now }
{
    for entry in entries {
        if !is_closed_entry(entry) {
            return false;
        }
    }
    true
}
