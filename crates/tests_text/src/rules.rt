//! The table of rules and the reserved words.
use rdl_base::{Keyword, Rule};
use std::test::Fail;

// A line for each rule, in the order of the table: its code, its phrase and its phase.
const TABLE: [(Rule, &str); 78] = [
    (Rule::L1, "L1 no token here 1"),
    (Rule::L2, "L2 comment not closed 1"),
    (Rule::L3, "L3 string not closed 1"),
    (Rule::L4, "L4 bad number 1"),
    (Rule::L5, "L5 Perl code 1"),
    (Rule::L6, "L6 preprocessor directive 1"),
    (Rule::S1, "S1 syntax 2"),
    (Rule::S2, "S2 nested too deeply 2"),
    (Rule::O1, "O1 constraint 2"),
    (Rule::O2, "O2 memory 2"),
    (Rule::O3, "O3 external component 2"),
    (Rule::O4, "O4 struct 2"),
    (Rule::O5, "O5 user property 2"),
    (Rule::O6, "O6 user access 2"),
    (Rule::O7, "O7 bitwise not 2"),
    (Rule::O8, "O8 enumeration type parameter 2"),
    (Rule::O9, "O9 cast 2"),
    (Rule::V1, "V1 unknown name 3"),
    (Rule::V2, "V2 wrong type 3"),
    (Rule::V3, "V3 out of range 3"),
    (Rule::V4, "V4 division by zero 3"),
    (Rule::E1, "E1 no top address map 3"),
    (Rule::E2, "E2 name defined twice 3"),
    (Rule::E3, "E3 type not defined 3"),
    (Rule::E4, "E4 instance name used twice 3"),
    (Rule::E5, "E5 component not allowed here 3"),
    (Rule::E6, "E6 bad parameter 3"),
    (Rule::E7, "E7 too many parameters 3"),
    (Rule::E8, "E8 path too deep 3"),
    (Rule::E9, "E9 too many nodes 3"),
    (Rule::E10, "E10 bad array 3"),
    (Rule::E11, "E11 path too long 3"),
    (Rule::E12, "E12 bad instance form 3"),
    (Rule::E13, "E13 bad alias 3"),
    (Rule::E14, "E14 bad enum 3"),
    (Rule::P1, "P1 unknown property 4"),
    (Rule::P2, "P2 property not supported 4"),
    (Rule::P3, "P3 property not legal here 4"),
    (Rule::P4, "P4 property assigned twice 4"),
    (Rule::P5, "P5 exclusive properties 4"),
    (Rule::P6, "P6 bad property value 4"),
    (Rule::P7, "P7 no such instance 4"),
    (Rule::P8, "P8 no such enum 4"),
    (Rule::P9, "P9 bad regwidth 4"),
    (Rule::P10, "P10 bad accesswidth 4"),
    (Rule::P11, "P11 bad width 4"),
    (Rule::A1, "A1 stride too small 5"),
    (Rule::A2, "A2 alignment of zero 5"),
    (Rule::A3, "A3 misaligned register 5"),
    (Rule::A4, "A4 address too large 5"),
    (Rule::A5, "A5 registers overlap 5"),
    (Rule::A6, "A6 too many registers 5"),
    (Rule::B1, "B1 field outside register 5"),
    (Rule::B2, "B2 fields overlap 5"),
    (Rule::R1, "R1 no such reference 5"),
    (Rule::R2, "R2 not referable 5"),
    (Rule::F1, "F1 access without meaning 6"),
    (Rule::F2, "F2 field spans words 6"),
    (Rule::F3, "F3 onwrite without write 6"),
    (Rule::F4, "F4 onread without read 6"),
    (Rule::F5, "F5 no hardware write 6"),
    (Rule::F6, "F6 not a counter 6"),
    (Rule::F7, "F7 kinds exclude 6"),
    (Rule::F8, "F8 not an interrupt 6"),
    (Rule::F9, "F9 bad singlepulse 6"),
    (Rule::F10, "F10 number too wide 6"),
    (Rule::F11, "F11 written once without reset 6"),
    (Rule::F12, "F12 alias differs 6"),
    (Rule::F13, "F13 encode too wide 6"),
    (Rule::F14, "F14 empty component 6"),
    (Rule::F15, "F15 too many fields 6"),
    (Rule::R3, "R3 reference width 6"),
    (Rule::R4, "R4 no such item 6"),
    (Rule::R5, "R5 reference into an alias 6"),
    (Rule::R6, "R6 bad reset signal 6"),
    (Rule::R7, "R7 references run in a circle 6"),
    (Rule::R8, "R8 two reset signals 6"),
    (Rule::X1, "X1 access width not 32 7"),
];

#[test]
fn rules_are_those_of_the_table(rt: HostRuntime) -> Result<(), Fail> {
    let mut last = None;
    for (rule, line) in TABLE {
        let shown = format!(in rt.alloc(); "{} {} {}", rule.code(), rule.phrase(), rule.phase())?;
        assert_eq!(rt; shown.as_str(), line);
        assert!(rt; last < Some(rule));
        last = Some(rule);
    }
    Ok(())
}

#[test]
fn reserved_words_are_those_of_the_list(rt: HostRuntime) {
    let words = "addrmap regfile reg field signal enum alias default internal posedge negedge \
        bothedge level nonsticky true false longint bit unsigned boolean string rw wr r \
        w rw1 w1 na woset woclr wot wzs wzc wzt wclr wset rclr rset compact regalign \
        fullalign constraint mem external struct abstract property ruser wuser \
        accesstype addressingtype onreadtype onwritetype";
    let mut count = 0u64;
    for word in words.split(' ') {
        assert_eq!(rt;
            Keyword::of(word.as_bytes()).map(|keyword| keyword.word()),
            Some(word)
        );
        count = count.saturating_add(1);
    }
    assert_eq!(rt; count, 53);
    assert_eq!(rt; Keyword::of(b"name"), None);
}
