//! The table of properties: a row for each (SystemRDL 2.0, clauses 5 and 8 to 13; the selection is this project's).
ghost use Rattle.std.specs.Prelude.{◌≡◌};
ghost use Rattle.rdl_props.specs.On.{kinds_on};
ghost use Rattle.rdl_props.specs.Table.{group_of, is_legal, row, takes_of};

use crate::form::Form;
use crate::groups::Group;
use crate::prop::Prop;
use rdl_tree::Kind;

/// The kinds of components that a property may be assigned on.
#[derive(Clone, Copy)]
pub(crate) enum On {
    /// Every kind.
    All,
    /// Every kind but a signal.
    NoSignal,
    /// This kind alone.
    Only(Kind),
}

const ADDRMAP: On = On::Only(Kind::Addrmap);

const REGISTER: On = On::Only(Kind::Reg);

const FIELD: On = On::Only(Kind::Field);

const SIGNAL: On = On::Only(Kind::Signal);

// The rows, in the order of `Prop`: how each is spelled, on which kinds it may be assigned, what it takes, and the group of
// properties that exclude one another and this one.
static ROWS: [(&str, On, Form, Option<Group>); 63] = [
    ("name", On::All, Form::Str, None),
    ("desc", On::All, Form::Str, None),
    ("donttest", On::NoSignal, Form::FlagNumber, None),
    ("dontcompare", On::NoSignal, Form::FlagNumber, None),
    ("addressing", ADDRMAP, Form::AddressingWord, None),
    ("lsb0", ADDRMAP, Form::TrueOnly, None),
    ("littleendian", ADDRMAP, Form::TrueOnly, None),
    ("regwidth", REGISTER, Form::Number, None),
    ("accesswidth", REGISTER, Form::Number, None),
    ("signalwidth", SIGNAL, Form::Number, None),
    ("sync", SIGNAL, Form::Flag, Some(Group::Synchrony)),
    ("async", SIGNAL, Form::Flag, Some(Group::Synchrony)),
    ("activehigh", SIGNAL, Form::Flag, Some(Group::Activity)),
    ("activelow", SIGNAL, Form::Flag, Some(Group::Activity)),
    ("field_reset", SIGNAL, Form::Flag, None),
    ("fieldwidth", FIELD, Form::Number, None),
    ("sw", FIELD, Form::SwWord, None),
    ("hw", FIELD, Form::HwWord, None),
    ("reset", FIELD, Form::Number, None),
    ("resetsignal", FIELD, Form::Refer, None),
    ("onwrite", FIELD, Form::WriteWord, Some(Group::OnWrite)),
    ("woset", FIELD, Form::Flag, Some(Group::OnWrite)),
    ("woclr", FIELD, Form::Flag, Some(Group::OnWrite)),
    ("onread", FIELD, Form::ReadWord, Some(Group::OnRead)),
    ("rclr", FIELD, Form::Flag, Some(Group::OnRead)),
    ("rset", FIELD, Form::Flag, Some(Group::OnRead)),
    ("swwe", FIELD, Form::FlagRefer, Some(Group::SwEnable)),
    ("swwel", FIELD, Form::FlagRefer, Some(Group::SwEnable)),
    ("we", FIELD, Form::FlagRefer, Some(Group::HwEnable)),
    ("wel", FIELD, Form::FlagRefer, Some(Group::HwEnable)),
    ("next", FIELD, Form::Refer, None),
    ("hwset", FIELD, Form::FlagRefer, None),
    ("hwclr", FIELD, Form::FlagRefer, None),
    ("hwenable", FIELD, Form::Refer, Some(Group::HwMask)),
    ("hwmask", FIELD, Form::Refer, Some(Group::HwMask)),
    ("anded", FIELD, Form::Flag, None),
    ("ored", FIELD, Form::Flag, None),
    ("xored", FIELD, Form::Flag, None),
    ("swmod", FIELD, Form::Flag, None),
    ("swacc", FIELD, Form::Flag, None),
    ("singlepulse", FIELD, Form::Flag, None),
    ("precedence", FIELD, Form::Side, None),
    ("counter", FIELD, Form::Flag, None),
    ("overflow", FIELD, Form::Flag, None),
    ("underflow", FIELD, Form::Flag, None),
    ("incr", FIELD, Form::Refer, None),
    ("decr", FIELD, Form::Refer, None),
    ("incrvalue", FIELD, Form::NumberRefer, Some(Group::Incr)),
    ("incrwidth", FIELD, Form::Number, Some(Group::Incr)),
    ("decrvalue", FIELD, Form::NumberRefer, Some(Group::Decr)),
    ("decrwidth", FIELD, Form::Number, Some(Group::Decr)),
    ("incrsaturate", FIELD, Form::FlagNumberRefer, None),
    ("decrsaturate", FIELD, Form::FlagNumberRefer, None),
    ("incrthreshold", FIELD, Form::FlagNumberRefer, None),
    ("decrthreshold", FIELD, Form::FlagNumberRefer, None),
    ("intr", FIELD, Form::Intr, None),
    ("sticky", FIELD, Form::Flag, Some(Group::Stickiness)),
    ("stickybit", FIELD, Form::Flag, Some(Group::Stickiness)),
    ("enable", FIELD, Form::Refer, Some(Group::Enable)),
    ("mask", FIELD, Form::Refer, Some(Group::Enable)),
    ("haltenable", FIELD, Form::Refer, Some(Group::HaltEnable)),
    ("haltmask", FIELD, Form::Refer, Some(Group::HaltEnable)),
    ("encode", FIELD, Form::EnumName, None),
];

/// The property's own name.
pub(crate) fn name(prop: Prop) -> &'static str
    ensures { result.now ≡ (row prop).name }
{
    ROWS[prop as usize].0
}

// On which kinds it may be assigned.
fn kinds_of(prop: Prop) -> On
    ensures { kinds_on result ≡ (row prop).on }
{
    ROWS[prop as usize].1
}

/// Whether the property may be assigned on a component of this kind.
pub fn legal(prop: Prop, kind: Kind) -> bool
    ensures { result ≡ is_legal prop kind }
{
    match kinds_of(prop) {
        On::All => true,
        On::NoSignal => kind != Kind::Signal,
        On::Only(only) => kind == only,
    }
}

/// What the property takes.
pub fn takes(prop: Prop) -> Form
    ensures { result ≡ takes_of prop }
{
    ROWS[prop as usize].2
}

/// The group of properties that exclude one another and this one, if any do.
pub fn group(prop: Prop) -> Option<Group>
    ensures { result ≡ group_of prop }
{
    ROWS[prop as usize].3
}
