//! What the definitions of addresses say.

ghost use Rattle.std.specs.Prelude.{◌≡◌, ◌↔◌, ℕ, ◌<◌, Contains, List, length, flat_map, map, filter, Option, Some};
ghost use Rattle.rdl_tree.specs.declared.item.Source.{Source};
ghost use Rattle.rdl_values.specs.Instances.{Instance, children, kind_of, nodes};
ghost use Rattle.rdl_layout.specs.declared.part.Mode.{Mode};
ghost use Rattle.rdl_layout.specs.declared.part.Part.{Part};
ghost use Rattle.std.specs.List.{All, AllByRecursion};
ghost use Rattle.rdl_tree.specs.declared.item.Inst.{Inst};
ghost use Rattle.rdl_values.specs.Elaborated.{around_body};
ghost use Rattle.rdl_addr.specs.Texts.{IsText};
ghost use Rattle.rdl_base.specs.declared.fault.Fault.{Fault};
ghost use Rattle.rdl_props.specs.declared.prop.Prop.TheVariants as prop;
ghost use Rattle.rdl_values.specs.Bodies.{standing};
ghost use Rattle.rdl_layers.specs.Phase4.{number_at};
ghost use Rattle.rdl_layout.specs.declared.bits.Field.{Field};
ghost use Rattle.rdl_layout.specs.declared.bits.FieldBits.{FieldBits};
ghost use Rattle.rdl_addr.specs.Bits as bits;
ghost use Rattle.rdl_addr.specs.Bits.{Bits};
ghost use Rattle.rdl_layout.specs.Fields as fields;
ghost use Rattle.rdl_layout.specs.Fields.{IsSpan};
ghost use Rattle.rdl_addr.specs.Fields.{AllAreBitsOf, AreFieldsOf};
ghost use Rattle.rdl_addr.specs.Layout as layout;
ghost use Rattle.rdl_addr.specs.Layout.{Group, Placed, has_address, mode_in};
ghost use Rattle.rdl_values.specs.Values.{Around};
ghost use Rattle.rdl_layers.specs.Settings.{setting};
ghost use Rattle.rdl_addr.specs.Modes.{mode_by};
ghost use Rattle.rdl_addr.specs.TextReadings.{IsGiven};
ghost use Rattle.rdl_addr.specs.Uses.{register_side};
ghost use Rattle.rdl_base.specs.declared.rule.Rule.TheVariants as rule;
ghost use Rattle.rdl_layout.specs.Claims.{clashing_claims};
ghost use Rattle.rdl_layout.specs.declared.register.Register.{Register};
ghost use Rattle.rdl_layout.specs.Registers as registers;
ghost use Rattle.rdl_layout.specs.Registers.{claim_of};
ghost use Rattle.rdl_addr.specs.Registers.{AreRegistersOf, side_of};
ghost use Rattle.rdl_addr.specs.Rules as rules;
ghost use Rattle.rdl_addr.specs.Rules.{of_bits, overlaps};
ghost use Rattle.rdl_layout.specs.Parts as parts;
ghost use Rattle.rdl_addr.specs.Parts.{ArePartsOf, IsPartOf, mode_of};
ghost use Rattle.rdl_addr.specs.Rounding.{IsLeastFrom, IsLeastPower, is_multiple, multiple_from, up};

/// An address is rounded up to the least multiple, and a size to the least power of two.
pub fn rounding_is_least()
    ensures multiple { (m n : ℕ) → 0 < m → IsLeastFrom n (is_multiple m) (multiple_from m n) }
    ensures power { (n : ℕ) → IsLeastPower n (up n) }
{}

/// The layout has exactly the nodes that have addresses, in the order of nodes.
pub fn layout_covers()
    ensures { (wanted : Option (List ℕ)) (s : Source) → map (λ p. p.node) (layout.layout wanted s) ≡ filter has_address (nodes wanted s) }
{}

/// The numbers of parts are those of the groups that they are of: strides, sizes, starts and the greatest end.
pub fn parts_are_groups()
    ensures stride { (m : Mode) (p : Part) (g : Group) → IsPartOf p g → parts.stride m p ≡ layout.stride (mode_of m) g }
    ensures span { (m : Mode) (p : Part) (g : Group) → IsPartOf p g → parts.span m p ≡ layout.span (mode_of m) g }
    ensures starts { (m : Mode) (ps : List Part) (gs : List Group) → ArePartsOf ps gs → parts.starts m 0 ps ≡ map (λ g. g.1) (layout.starts (mode_of m) 0 gs) }
    ensures end { (m : Mode) (ps : List Part) (gs : List Group) → ArePartsOf ps gs → parts.greatest_end m 0 ps ≡ layout.greatest_end (mode_of m) gs }
{}

/// The failures of registers, by their numbers, are those of the registers of the layout that they are of.
pub fn registers_are_placed()
    ensures overlaps { (rs : List Register) (ps : List Placed) → AreRegistersOf rs ps → clashing_claims rule.A5 (map claim_of rs) ≡ overlaps ps }
    ensures misaligned { (rs : List Register) (ps : List Placed) → AreRegistersOf rs ps → flat_map registers.misaligned rs ≡ flat_map rules.misaligned ps }
    ensures too_large { (rs : List Register) (ps : List Placed) → AreRegistersOf rs ps → flat_map registers.too_large rs ≡ flat_map rules.too_large ps }
    ensures many { (rs : List Register) (ps : List Placed) → AreRegistersOf rs ps → length rs ≡ length ps }
{}

/// The bits of a register's fields, by their numbers, are those of the definition, and so are the failures of B1 and B2.
pub fn fields_have_bits()
    ensures bits { (fs : List Field) (ns : List Instance) → AreFieldsOf fs ns → AllAreBitsOf (fields.bits_from 0 fs) (bits.bits_from 0 ns) }
    ensures failures { (w : ℕ) (r : Instance) → w ≡ number_at r prop.Regwidth → (cs : List FieldBits) (bs : List Bits) → AllAreBitsOf cs bs → All IsSpan cs
        → (f : Fault) → Contains (fields.faults w cs) f ↔ Contains (flat_map (of_bits r) (standing bs)) f }
{}

/// The instances in the body of a node come from texts, whose expressions see what that body shows.
pub fn instances_have_texts()
    ensures { (n : Instance) → AllByRecursion (λ c. (i : Inst) × (c.use_.inst ≡ Some i) × IsText i (around_body n) c) (children n) }
{}

/// What is read of a register, of a container and of an instance's text is what the definitions of addresses say.
pub fn readings_agree()
    ensures side { (n : Instance) → register_side n ≡ side_of (rules.side_of n) }
    ensures mode { (outer : Mode) (n : Instance) → mode_of (mode_by outer (kind_of n) (setting n prop.Addressing)) ≡ mode_in (mode_of outer) n }
    ensures part { (p : Part) (env : Around) (i : Inst) (g : Group) → IsGiven p env i → IsText i env g.first → p.others ≡ length g.others → p.size ≡ g.size → p.access ≡ g.access → IsPartOf p g }
{}
