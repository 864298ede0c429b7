//! The rules that a source is judged by.
ghost use Rattle.std.specs.Prelude.{◌≡◌};

/// A rule of this project's profile of SystemRDL 2.0, in the order in which failures at one place
/// are named.
#[derive(Clone, Copy, Debug, PartialEq, Eq, PartialOrd, Ord)]
pub enum Rule {
    /// No token here.
    L1,
    /// Comment not closed.
    L2,
    /// String not closed.
    L3,
    /// Bad number.
    L4,
    /// Perl code.
    L5,
    /// Preprocessor directive.
    L6,
    /// Syntax.
    S1,
    /// Nested too deeply.
    S2,
    /// Constraint.
    O1,
    /// Memory.
    O2,
    /// External component.
    O3,
    /// Struct.
    O4,
    /// User property.
    O5,
    /// User access.
    O6,
    /// Bitwise not.
    O7,
    /// Enumeration type parameter.
    O8,
    /// Cast.
    O9,
    /// Unknown name.
    V1,
    /// Wrong type.
    V2,
    /// Out of range.
    V3,
    /// Division by zero.
    V4,
    /// No top address map.
    E1,
    /// Name defined twice.
    E2,
    /// Type not defined.
    E3,
    /// Instance name used twice.
    E4,
    /// Component not allowed here.
    E5,
    /// Bad parameter.
    E6,
    /// Too many parameters.
    E7,
    /// Path too deep.
    E8,
    /// Too many nodes.
    E9,
    /// Bad array.
    E10,
    /// Path too long.
    E11,
    /// Bad instance form.
    E12,
    /// Bad alias.
    E13,
    /// Bad enum.
    E14,
    /// Unknown property.
    P1,
    /// Property not supported.
    P2,
    /// Property not legal here.
    P3,
    /// Property assigned twice.
    P4,
    /// Exclusive properties.
    P5,
    /// Bad property value.
    P6,
    /// No such instance.
    P7,
    /// No such enum.
    P8,
    /// Bad regwidth.
    P9,
    /// Bad accesswidth.
    P10,
    /// Bad width.
    P11,
    /// Stride too small.
    A1,
    /// Alignment of zero.
    A2,
    /// Misaligned register.
    A3,
    /// Address too large.
    A4,
    /// Registers overlap.
    A5,
    /// Too many registers.
    A6,
    /// Field outside register.
    B1,
    /// Fields overlap.
    B2,
    /// No such reference.
    R1,
    /// Not referable.
    R2,
    /// Access without meaning.
    F1,
    /// Field spans words.
    F2,
    /// Onwrite without write.
    F3,
    /// Onread without read.
    F4,
    /// No hardware write.
    F5,
    /// Not a counter.
    F6,
    /// Kinds exclude.
    F7,
    /// Not an interrupt.
    F8,
    /// Bad singlepulse.
    F9,
    /// Number too wide.
    F10,
    /// Written once without reset.
    F11,
    /// Alias differs.
    F12,
    /// Encode too wide.
    F13,
    /// Empty component.
    F14,
    /// Too many fields.
    F15,
    /// Reference width.
    R3,
    /// No such item.
    R4,
    /// Reference into an alias.
    R5,
    /// Bad reset signal.
    R6,
    /// References run in a circle.
    R7,
    /// Two reset signals.
    R8,
    /// Access width not 32.
    X1,
}

// The code, the phrase and the phase of each rule, in the order of the rules.
static TABLE: [(&str, &str, u8); 78] = [
    ("L1", "no token here", 1),
    ("L2", "comment not closed", 1),
    ("L3", "string not closed", 1),
    ("L4", "bad number", 1),
    ("L5", "Perl code", 1),
    ("L6", "preprocessor directive", 1),
    ("S1", "syntax", 2),
    ("S2", "nested too deeply", 2),
    ("O1", "constraint", 2),
    ("O2", "memory", 2),
    ("O3", "external component", 2),
    ("O4", "struct", 2),
    ("O5", "user property", 2),
    ("O6", "user access", 2),
    ("O7", "bitwise not", 2),
    ("O8", "enumeration type parameter", 2),
    ("O9", "cast", 2),
    ("V1", "unknown name", 3),
    ("V2", "wrong type", 3),
    ("V3", "out of range", 3),
    ("V4", "division by zero", 3),
    ("E1", "no top address map", 3),
    ("E2", "name defined twice", 3),
    ("E3", "type not defined", 3),
    ("E4", "instance name used twice", 3),
    ("E5", "component not allowed here", 3),
    ("E6", "bad parameter", 3),
    ("E7", "too many parameters", 3),
    ("E8", "path too deep", 3),
    ("E9", "too many nodes", 3),
    ("E10", "bad array", 3),
    ("E11", "path too long", 3),
    ("E12", "bad instance form", 3),
    ("E13", "bad alias", 3),
    ("E14", "bad enum", 3),
    ("P1", "unknown property", 4),
    ("P2", "property not supported", 4),
    ("P3", "property not legal here", 4),
    ("P4", "property assigned twice", 4),
    ("P5", "exclusive properties", 4),
    ("P6", "bad property value", 4),
    ("P7", "no such instance", 4),
    ("P8", "no such enum", 4),
    ("P9", "bad regwidth", 4),
    ("P10", "bad accesswidth", 4),
    ("P11", "bad width", 4),
    ("A1", "stride too small", 5),
    ("A2", "alignment of zero", 5),
    ("A3", "misaligned register", 5),
    ("A4", "address too large", 5),
    ("A5", "registers overlap", 5),
    ("A6", "too many registers", 5),
    ("B1", "field outside register", 5),
    ("B2", "fields overlap", 5),
    ("R1", "no such reference", 5),
    ("R2", "not referable", 5),
    ("F1", "access without meaning", 6),
    ("F2", "field spans words", 6),
    ("F3", "onwrite without write", 6),
    ("F4", "onread without read", 6),
    ("F5", "no hardware write", 6),
    ("F6", "not a counter", 6),
    ("F7", "kinds exclude", 6),
    ("F8", "not an interrupt", 6),
    ("F9", "bad singlepulse", 6),
    ("F10", "number too wide", 6),
    ("F11", "written once without reset", 6),
    ("F12", "alias differs", 6),
    ("F13", "encode too wide", 6),
    ("F14", "empty component", 6),
    ("F15", "too many fields", 6),
    ("R3", "reference width", 6),
    ("R4", "no such item", 6),
    ("R5", "reference into an alias", 6),
    ("R6", "bad reset signal", 6),
    ("R7", "references run in a circle", 6),
    ("R8", "two reset signals", 6),
    ("X1", "access width not 32", 7),
];

impl Rule {
    ghost use Rattle.rdl_base.specs.Rules.{row};

    // The rule's row of the table.
    fn row(self) -> (&'static str, &'static str, u8)
        ensures code { result.0.now ≡ (row self).code }
        ensures phrase { result.1.now ≡ (row self).phrase }
        ensures phase { result.2 ≡ (row self).phase }
    {
        TABLE[self as usize]
    }

    /// The rule's code, a letter and a number.
    pub fn code(self) -> &'static str
        ensures { result.now ≡ (row self).code }
    {
        self.row().0
    }

    /// What the rule's failure is called.
    pub fn phrase(self) -> &'static str
        ensures { result.now ≡ (row self).phrase }
    {
        self.row().1
    }

    /// The phase, from 1 to 7, that judges the rule. For the rules of constant expressions, which
    /// phase 4 judges in property values and indices, it is 3.
    pub fn phase(self) -> u8
        ensures { result ≡ (row self).phase }
    {
        self.row().2
    }
}
