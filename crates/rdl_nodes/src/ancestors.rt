//! The order of the nodes that are listed with their ancestors.

ghost use Rattle.std.specs.Prelude.{◌≡◌, ℕ, ◌<◌, List, ◌∷◌, Option, Some, Contains, length, slice_get};
ghost use Rattle.rdl_tree.specs.declared.item.Source.{Source};
ghost use Rattle.rdl_values.specs.Instances.{Instance, children};
ghost use Rattle.rdl_values.specs.Lineages.{Lineage, lineages};

/// Each node is listed once with its ancestors, behind the one that it stands in, in whose body it is, and stands in fewer than 32.
pub fn lineages_in_order()
    ensures once { (wanted : Option (List ℕ)) (s : Source) (i j : ℕ) (l : Lineage) → slice_get (lineages wanted s) i ≡ Some l → slice_get (lineages wanted s) j ≡ Some l → i ≡ j }
    ensures behind { (wanted : Option (List ℕ)) (s : Source) (j : ℕ) (l : Lineage) (a : Instance) (up : List Instance) → slice_get (lineages wanted s) j ≡ Some l → l.ancestors ≡ a ∷ up
        → (i : ℕ) × (i < j) × (slice_get (lineages wanted s) i ≡ Some (record { node = a; ancestors = up })) × Contains (children a) l.node }
    ensures few { (wanted : Option (List ℕ)) (s : Source) (j : ℕ) (l : Lineage) → slice_get (lineages wanted s) j ≡ Some l → length l.ancestors < 32 }
{}
