//! Lists that grow by little.

ghost use Rattle.std.specs.Prelude.{◌≡◌, ◌∷◌, ◌++◌, [], OnOk};

use rb_base::NoMemory;

/// Puts one more behind the others of a list. A full list grows by a quarter: lists of bodies are long and stand beside the trees, so
/// what is free in them counts.
pub fn push_sparing<T: Drop>(list: &mut Vec<T>, one: T) -> Result<(), NoMemory>
    ensures { OnOk result (list.new.items ≡ list.old.items ++ (one ∷ [])) }
{
    if list.len() == list.capacity() {
        let more = list.len() / 4;
        list.reserve_exact(more.saturating_add(4))?;
    }
    list.push(one)?;
    Ok(())
}
