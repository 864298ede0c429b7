//! Names and indices of paths.

ghost use Rattle.std.specs.Prelude.{◌≡◌, flat_map, option_copied};
ghost use Rattle.std.specs.Result.{result_err};
ghost use Rattle.rdl_values.specs.Uses.{values};
ghost use Rattle.rdl_values.specs.Values.{Around};
ghost use Rattle.rdl_values.specs.Values as spec;
ghost use Rattle.rdl_values.specs.Views.{steps_of};
ghost use Rattle.rdl_failures.specs.Shown.{IsShown};

use rdl_base::Fault;
use rdl_failures::number_seen;
use rdl_tree::{Expr, Name, Path};
use rdl_values::Chain;

/// The name that a path of one bare name is, where no item follows.
#[tactic(auto, using(crate::proofs::Steps::steps_of_code))]
pub fn bare_name<'a>(path: &Path<'a>, item: &Option<Name<'a>>) -> Option<&'a Name<'a>>
    ensures { option_copied result ≡ spec.bare_name path.now item.now }
{
    match (path.steps, item) {
        ([step], None) if step.index.is_empty() => Some(&step.name),
        _ => None,
    }
}

// The first failure of some numbers, if one fails.
fn failure_among<'a>(list: &[Expr<'a>], visible: &Chain<'_, '_, '_, 'a>) -> Option<Fault>
    ensures { (around : Around) → IsShown visible.now around → result ≡ result_err (values around list.now) }
{
    for expr in list {
        if let Err(fault) = number_seen(expr, visible) {
            return Some(fault);
        }
    }
    None
}

/// The first failure of a path's indices, if one fails: each is a number of its own.
pub fn first_failure<'a>(path: &Path<'a>, visible: &Chain<'_, '_, '_, 'a>) -> Option<Fault>
    ensures { (around : Around) → IsShown visible.now around → result ≡ result_err (values around (flat_map (λ t. t.index.now) (steps_of path.now))) }
{
    for step in path.steps {
        if let Some(fault) = failure_among(step.index, visible) {
            return Some(fault);
        }
    }
    None
}
