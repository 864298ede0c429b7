//! Which view is a field's own.

ghost use Rattle.std.specs.Prelude.{◌≡◌, ℕ, ◌<◌, ◌==◌, not, ◌&&◌, count_by, slice_index, vec_len, IfOk};
ghost use Rattle.rb_model.specs.References.{Each};
ghost use Rattle.rb_model.specs.Own.{IsOwnView};

use crate::block::View;
use rb_base::NoMemory;
use std::alloc::Global;

/// The number of each field's own view, which stands in no alias.
pub(crate) fn own_views(
    alloc: Global,
    views: &[View],
    fields: usize,
) -> Result<Vec<usize>, NoMemory>
    requires in_range { Each (λ v. v.field < fields) views.now }
    requires one { (k : ℕ) → k < fields → count_by (λ v. v.field == k && not v.alias) views.now ≡ 1 }
    ensures len { IfOk result (λ own. vec_len own ≡ fields) }
    ensures own { IfOk result (λ own. (k : ℕ) → k < fields → IsOwnView views.now k (slice_index own.items k)) }
{
    let mut own = vec![in alloc; 0usize; fields]?;
    for (number, view) in views.iter().enumerate() {
        if !view.alias {
            own[view.field as usize] = number;
        }
    }
    Ok(own)
}
