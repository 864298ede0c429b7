//! Which names are properties.
ghost use Rattle.std.specs.Prelude.{◌≡◌};
ghost use Rattle.rdl_props.specs.Table.{find_prop, in_full as full_name, is_left_out};

use crate::prop::Prop;
use crate::table::name as name_of;

// Every property, in the order of the table.
static PROPS: [Prop; 63] = [
    Prop::Name,
    Prop::Desc,
    Prop::DontTest,
    Prop::DontCompare,
    Prop::Addressing,
    Prop::Lsb0,
    Prop::Littleendian,
    Prop::Regwidth,
    Prop::Accesswidth,
    Prop::Signalwidth,
    Prop::Sync,
    Prop::Async,
    Prop::Activehigh,
    Prop::Activelow,
    Prop::FieldReset,
    Prop::Fieldwidth,
    Prop::Sw,
    Prop::Hw,
    Prop::Reset,
    Prop::Resetsignal,
    Prop::Onwrite,
    Prop::Woset,
    Prop::Woclr,
    Prop::Onread,
    Prop::Rclr,
    Prop::Rset,
    Prop::Swwe,
    Prop::Swwel,
    Prop::We,
    Prop::Wel,
    Prop::Next,
    Prop::Hwset,
    Prop::Hwclr,
    Prop::Hwenable,
    Prop::Hwmask,
    Prop::Anded,
    Prop::Ored,
    Prop::Xored,
    Prop::Swmod,
    Prop::Swacc,
    Prop::Singlepulse,
    Prop::Precedence,
    Prop::Counter,
    Prop::Overflow,
    Prop::Underflow,
    Prop::Incr,
    Prop::Decr,
    Prop::Incrvalue,
    Prop::Incrwidth,
    Prop::Decrvalue,
    Prop::Decrwidth,
    Prop::Incrsaturate,
    Prop::Decrsaturate,
    Prop::Incrthreshold,
    Prop::Decrthreshold,
    Prop::Intr,
    Prop::Sticky,
    Prop::Stickybit,
    Prop::Enable,
    Prop::Mask,
    Prop::Haltenable,
    Prop::Haltmask,
    Prop::Encode,
];

// The properties of the standard that this project doesn't read.
static LEFT_OUT: [&str; 18] = [
    "alignment",
    "sharedextbus",
    "errextbus",
    "rsvdset",
    "rsvdsetX",
    "msb0",
    "bigendian",
    "bridge",
    "shared",
    "hdl_path",
    "hdl_path_slice",
    "hdl_path_gate",
    "hdl_path_gate_slice",
    "ispresent",
    "paritycheck",
    "cpuif_reset",
    "mementries",
    "memwidth",
];

// The name that a short one stands for.
fn in_full(name: &[u8]) -> &[u8]
    ensures { result.now ≡ full_name name.now }
{
    if name == b"saturate".as_slice() {
        b"incrsaturate"
    } else if name == b"threshold".as_slice() {
        b"incrthreshold"
    } else {
        name
    }
}

/// The property of this name, if it is one that this project reads. `saturate` and `threshold` name `Incrsaturate` and
/// `Incrthreshold` (SystemRDL 2.0, 9.8.2).
#[tactic(auto, unfolding(crate::specs::Table::props))]
pub fn find(text: &[u8]) -> Option<Prop>
    ensures { result ≡ find_prop text.now }
{
    let name = in_full(text);
    PROPS
        .iter()
        .copied()
        .find(|prop| name_of(*prop).as_bytes() == name)
}

/// Whether this is the name of a property of SystemRDL 2.0 that this project leaves out.
pub fn left_out(text: &[u8]) -> bool
    ensures { result ≡ is_left_out text.now }
{
    LEFT_OUT.iter().any(|name| name.as_bytes() == text)
}
