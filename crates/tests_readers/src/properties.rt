//! The table of properties.
use rdl_props::{Form, Group, find, group, left_out, legal, takes};
use rdl_tree::Kind;

// Names that share a row, the kinds that they are legal on by their first letters, what they take, and their group.
const ROWS: [(&str, &str, Form, Option<Group>); 37] = [
    ("name desc", "agrfs", Form::Str, None),
    ("donttest dontcompare", "agrf", Form::FlagNumber, None),
    ("addressing", "a", Form::AddressingWord, None),
    ("lsb0 littleendian", "a", Form::TrueOnly, None),
    ("regwidth accesswidth", "r", Form::Number, None),
    ("signalwidth", "s", Form::Number, None),
    ("sync async", "s", Form::Flag, Some(Group::Synchrony)),
    (
        "activehigh activelow",
        "s",
        Form::Flag,
        Some(Group::Activity),
    ),
    ("field_reset", "s", Form::Flag, None),
    ("fieldwidth reset", "f", Form::Number, None),
    ("sw", "f", Form::SwWord, None),
    ("hw", "f", Form::HwWord, None),
    ("resetsignal next incr decr", "f", Form::Refer, None),
    ("onwrite", "f", Form::WriteWord, Some(Group::OnWrite)),
    ("woset woclr", "f", Form::Flag, Some(Group::OnWrite)),
    ("onread", "f", Form::ReadWord, Some(Group::OnRead)),
    ("rclr rset", "f", Form::Flag, Some(Group::OnRead)),
    ("swwe swwel", "f", Form::FlagRefer, Some(Group::SwEnable)),
    ("we wel", "f", Form::FlagRefer, Some(Group::HwEnable)),
    ("hwset hwclr", "f", Form::FlagRefer, None),
    ("hwenable hwmask", "f", Form::Refer, Some(Group::HwMask)),
    ("anded ored xored", "f", Form::Flag, None),
    ("swmod swacc singlepulse", "f", Form::Flag, None),
    ("counter overflow underflow", "f", Form::Flag, None),
    ("precedence", "f", Form::Side, None),
    ("incrvalue", "f", Form::NumberRefer, Some(Group::Incr)),
    ("incrwidth", "f", Form::Number, Some(Group::Incr)),
    ("decrvalue", "f", Form::NumberRefer, Some(Group::Decr)),
    ("decrwidth", "f", Form::Number, Some(Group::Decr)),
    ("incrsaturate saturate", "f", Form::FlagNumberRefer, None),
    ("incrthreshold threshold", "f", Form::FlagNumberRefer, None),
    (
        "decrsaturate decrthreshold",
        "f",
        Form::FlagNumberRefer,
        None,
    ),
    ("intr", "f", Form::Intr, None),
    ("sticky stickybit", "f", Form::Flag, Some(Group::Stickiness)),
    ("enable mask", "f", Form::Refer, Some(Group::Enable)),
    (
        "haltenable haltmask",
        "f",
        Form::Refer,
        Some(Group::HaltEnable),
    ),
    ("encode", "f", Form::EnumName, None),
];

const KINDS: [(char, Kind); 5] = [
    ('a', Kind::Addrmap),
    ('g', Kind::Regfile),
    ('r', Kind::Reg),
    ('f', Kind::Field),
    ('s', Kind::Signal),
];

#[test]
fn properties_are_those_of_the_list(rt: HostRuntime) {
    let mut count = 0u64;
    for (names, on, form, letter) in ROWS {
        for name in names.split(' ') {
            let Some(prop) = find(name.as_bytes()) else {
                panic!(rt; "{name} is no property");
            };
            assert!(rt; takes(prop) == form && group(prop) == letter, "{name}");
            for (initial, kind) in KINDS {
                assert_eq!(rt;
                    legal(prop, kind),
                    on.contains(initial),
                    "{name} on {initial}"
                );
            }
            assert!(rt; !left_out(name.as_bytes()));
            count = count.saturating_add(1);
        }
    }
    assert_eq!(rt; count, 65);
}

#[test]
fn other_names_are_no_properties(rt: HostRuntime) {
    let names = "alignment sharedextbus errextbus rsvdset rsvdsetX msb0 bigendian bridge shared \
        hdl_path hdl_path_slice hdl_path_gate hdl_path_gate_slice ispresent paritycheck \
        cpuif_reset mementries memwidth";
    let mut count = 0u64;
    for name in names.split(' ') {
        assert!(rt; left_out(name.as_bytes()) && find(name.as_bytes()).is_none());
        count = count.saturating_add(1);
    }
    assert_eq!(rt; count, 18);
    assert!(rt; !left_out(b"bogus") && find(b"bogus").is_none() && find(b"").is_none());
}
