//! What the failures of all bodies and of all registers are.

ghost use Rattle.std.specs.Prelude.{◌≡◌, ◌↔◌, ◌++◌, Contains, Some, flat_map};
ghost use Rattle.rdl_base.specs.declared.fault.Fault.{Fault};
ghost use Rattle.rdl_tree.specs.declared.node.Elab.{Elab};
ghost use Rattle.rdl_values.specs.Elaborated.{nodes_of, top_name};
ghost use Rattle.rdl_values.specs.Elaboration.{IsClean};
ghost use Rattle.rdl_sizes.specs.declared.known.Sizes.{Sizes};
ghost use Rattle.rdl_sizes.specs.Sized.{AreSizes};
ghost use Rattle.rdl_addr.specs.Rules.{all_groups, no_alignment, small_stride};
ghost use Rattle.rdl_bits.specs.declared.table.BitTable.{BitTable};
ghost use Rattle.rdl_bits.specs.Tabled.{AreBits};
ghost use Rattle.rdl_bits.specs.Judged.{failures_of_bits, failures_of_bodies};

/// The failures of A1 and A2, collected of all bodies, are those of all groups and of all nodes.
pub fn bodies_are_judged()
    ensures { (e : Elab) (s : Sizes) → IsClean e → AreSizes e s → (f : Fault) → Contains s.faults.items f ↔ Contains (failures_of_bodies e) f }
{}

/// The failures of B1 and B2, collected of all registers, are those of the registers among the nodes.
pub fn bits_are_judged()
    ensures { (e : Elab) (t : BitTable) → AreBits e t → (f : Fault) → Contains t.faults.items f ↔ Contains (failures_of_bits e) f }
{}
