//! What the text of the root says of the top, and its bare assignments.

ghost use Rattle.std.specs.Prelude.{◌≡◌, ◌++◌, IfOk, is_none};
ghost use Rattle.std.specs.Option.{option_copied};
ghost use Rattle.rdl_tree.specs.declared.item.Source.{Source};
ghost use Rattle.rdl_values.specs.Phase3.{bare_assignments, no_top};
ghost use Rattle.rdl_values.specs.Top.{top_use_of};
ghost use Rattle.rdl_failures.specs.Noted.{with_all};
ghost use Rattle.rdl_top.specs.Topped.{Means};

use rb_base::{NoMemory, Place};
use rdl_base::Rule;
use rdl_failures::Failures;
use rdl_top::{Top, find_top, judge_bare};
use rdl_tree::Item;

// Whether there is no top.
fn is_missing(top: &Option<Top>) -> bool
    ensures { result ≡ is_none top.now }
{
    top.is_none()
}

/// The top, if there is one. E1 is put in where there is none, and E5 at each assignment at the root that is no default.
pub(crate) fn judge_text<'a>(
    items: &'a [Item<'a>],
    wanted: Option<&[u8]>,
    failures: &mut Failures,
) -> Result<Option<Top<'a>>, NoMemory>
    ensures top { IfOk result (λ r. (s : Source) → s.items.now ≡ items.now → Means s items.now r (top_use_of (option_copied wanted.entry) s)) }
    ensures noted { IfOk result (λ r. (s : Source) → s.items.now ≡ items.now → failures.new ≡ with_all (no_top (top_use_of (option_copied wanted.entry) s) ++ bare_assignments s) failures.old) }
{
    let top = find_top(items, wanted);
    failures.note(is_missing(&top), Rule::E1, Place(0))?;
    judge_bare(items, failures)?;
    Ok(top)
}
