//! Settings that fail alike in all bodies of a text.

ghost use Rattle.std.specs.Prelude.{◌≡◌, None, Option, flat_map, true};
ghost use Rattle.std.specs.List.{AllByRecursion};
ghost use Rattle.rb_base.specs.declared.place.Place.{Place};
ghost use Rattle.rdl_failures.specs.Shown.{IsShown};
ghost use Rattle.rdl_layers.specs.Meanings.{from_expr, from_path};
ghost use Rattle.rdl_tree.specs.declared.expr.Expr.TheVariants as exprs;
ghost use Rattle.rdl_tree.specs.declared.expr.Name.{Name};
ghost use Rattle.rdl_tree.specs.declared.expr.Path.{Path as AnyPath};
ghost use Rattle.rdl_values.specs.Bodies.{Scope, around};
ghost use Rattle.rdl_values.specs.Faults.{failures};
ghost use Rattle.rdl_values.specs.Uses.{values};
ghost use Rattle.rdl_values.specs.Values.{Around, bare_name, parameter_of};
ghost use Rattle.rdl_values.specs.Views.{steps_of};
ghost use Rattle.rdl_assignments.specs.Steady.{AreNamedAs, IsSteady, IsSteadyGiven, IsSteadyNamed, IsSteadySet};

use rdl_failures::value_seen;
use rdl_props::{Form, Prop, find, takes};
use rdl_tree::{Assigned, Expr, Path, Set};
use rdl_values::Chain;

/// What the bodies of a text have in common: parameters of the names that are visible in this one, and where it is said the same
/// enumerations.
#[derive(Clone, Copy)]
pub struct TextView<'v, 'n, 't, 'c, 'a> {
    pub visible: &'v Chain<'n, 't, 'c, 'a>,
    pub same_enums: bool,
}

// Whether a path is the name of no visible parameter.
fn is_no_parameter<'a>(expr: &Expr<'a>, text: &TextView<'_, '_, '_, '_, 'a>) -> bool
    ensures { result ≡ true → (v : Around) → IsShown text.now.visible.now v → (path : AnyPath) (item : Option Name) → expr.now ≡ exprs.Ref path item → parameter_of v (bare_name path item) ≡ None }
{
    value_seen(expr, text.visible).is_err()
}

// Whether an expression names no parameter, and an entry of an enumeration only where these are the same. It recurses as deep as the
// tree goes.
fn is_steady<'a>(expr: &Expr<'a>, text: &TextView<'_, '_, '_, '_, 'a>) -> bool
    ensures { result ≡ true → (v : Around) → IsShown text.now.visible.now v → IsSteady text.now.same_enums v expr.now }
{
    match expr {
        Expr::Number(..) | Expr::Flag(..) | Expr::Str(..) => true,
        Expr::Ref(..) => is_no_parameter(expr, text),
        Expr::EntryOf(..) => text.same_enums,
        Expr::Not(operand, _) => is_steady(operand, text),
        Expr::Binary(_, left, right, _) => is_steady(left, text) && is_steady(right, text),
        Expr::Pick(test, chosen, other, _) => {
            is_steady(test, text) && is_steady(chosen, text) && is_steady(other, text)
        }
    }
}

// The same of some expressions.
fn are_steady<'a>(list: &[Expr<'a>], text: &TextView<'_, '_, '_, '_, 'a>) -> bool
    ensures { result ≡ true → (v : Around) → IsShown text.now.visible.now v → AllByRecursion (IsSteady text.now.same_enums v) list.now }
{
    for expr in list {
        if !is_steady(expr, text) {
            return false;
        }
    }
    true
}

// The same of the indices of a path.
fn has_steady_indices<'a>(path: &Path<'a>, text: &TextView<'_, '_, '_, '_, 'a>) -> bool
    ensures { result ≡ true → (v : Around) → IsShown text.now.visible.now v → (u w : Around) → AreNamedAs text.now.same_enums v u → AreNamedAs text.now.same_enums v w
        → values u (flat_map (λ t. t.index.now) (steps_of path.now)) ≡ values w (flat_map (λ t. t.index.now) (steps_of path.now)) }
{
    for step in path.steps {
        if !are_steady(step.index, text) {
            return false;
        }
    }
    true
}

// Whether a path is taken alike in a row of this form: an enumeration where these are the same, or else a reference.
fn is_taken_alike<'a>(form: Form, expr: &Expr<'a>, text: &TextView<'_, '_, '_, '_, 'a>) -> bool
    ensures { result ≡ true → (v : Around) → IsShown text.now.visible.now v → (path : AnyPath) (item : Option Name) → expr.now ≡ exprs.Ref path item
        → (place : Place) (u w : Scope) → AreNamedAs text.now.same_enums v (around u) → AreNamedAs text.now.same_enums v (around w) → failures (from_path form u place path item) ≡ failures (from_path form w place path item) }
{
    match form {
        Form::Side => true,
        Form::EnumName => text.same_enums,
        _ => is_no_parameter(expr, text),
    }
}

// Whether an expression fails alike in a row of this form.
fn is_steady_value<'a>(form: Form, expr: &Expr<'a>, text: &TextView<'_, '_, '_, '_, 'a>) -> bool
    ensures { result ≡ true → (v : Around) → IsShown text.now.visible.now v → (place : Place) (u w : Scope) → AreNamedAs text.now.same_enums v (around u) → AreNamedAs text.now.same_enums v (around w)
        → failures (from_expr form u place expr.now) ≡ failures (from_expr form w place expr.now) }
{
    match expr {
        Expr::Ref(path, _) => has_steady_indices(path, text) && is_taken_alike(form, expr, text),
        _ => is_steady(expr, text),
    }
}

// The same of what is given, if anything is.
fn is_steady_given<'a>(
    form: Form,
    given: &Option<Assigned<'a>>,
    text: &TextView<'_, '_, '_, '_, 'a>,
) -> bool
    ensures { result ≡ true → (v : Around) → IsShown text.now.visible.now v → IsSteadyGiven text.now.same_enums v form given.now }
{
    match given {
        Some(Assigned::Expr(expr)) => is_steady_value(form, expr, text),
        _ => true,
    }
}

/// Whether what a setting gives a property, whose name it has, fails alike in all bodies of the text.
pub(crate) fn is_steady_set<'a>(
    prop: Prop,
    set: &Set<'a>,
    text: &TextView<'_, '_, '_, '_, 'a>,
) -> bool
    ensures { result ≡ true → (v : Around) → IsShown text.now.visible.now v → IsSteadySet text.now.same_enums v prop set.now }
{
    is_steady_given(takes(prop), &set.value, text)
}

/// The same of a setting whose property's name may be unknown.
pub(crate) fn is_steady_named<'a>(set: &Set<'a>, text: &TextView<'_, '_, '_, '_, 'a>) -> bool
    ensures { result ≡ true → (v : Around) → IsShown text.now.visible.now v → IsSteadyNamed text.now.same_enums v set.now }
{
    match find(set.prop.text) {
        Some(prop) => is_steady_set(prop, set, text),
        None => true,
    }
}
