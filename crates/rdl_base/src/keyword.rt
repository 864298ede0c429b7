//! The reserved words of a source.
ghost use Rattle.std.specs.Prelude.{◌≡◌, ◌==◌, length, filter, IfSome, is_some};

/// A reserved word of a source (this project's list).
#[derive(Clone, Copy, Debug, PartialEq, Eq)]
pub enum Keyword {
    Addrmap,
    Regfile,
    Reg,
    Field,
    Signal,
    Enum,
    Alias,
    Default,
    Internal,
    Posedge,
    Negedge,
    Bothedge,
    Level,
    Nonsticky,
    True,
    False,
    Longint,
    Bit,
    Unsigned,
    Boolean,
    String,
    Rw,
    Wr,
    R,
    W,
    Rw1,
    W1,
    Na,
    Woset,
    Woclr,
    Wot,
    Wzs,
    Wzc,
    Wzt,
    Wclr,
    Wset,
    Rclr,
    Rset,
    Compact,
    Regalign,
    Fullalign,
    Constraint,
    Mem,
    External,
    Struct,
    Abstract,
    Property,
    Ruser,
    Wuser,
    Accesstype,
    Addressingtype,
    Onreadtype,
    Onwritetype,
}

// How each is spelled, in the order of the keywords.
static WORDS: [&str; 53] = [
    "addrmap",
    "regfile",
    "reg",
    "field",
    "signal",
    "enum",
    "alias",
    "default",
    "internal",
    "posedge",
    "negedge",
    "bothedge",
    "level",
    "nonsticky",
    "true",
    "false",
    "longint",
    "bit",
    "unsigned",
    "boolean",
    "string",
    "rw",
    "wr",
    "r",
    "w",
    "rw1",
    "w1",
    "na",
    "woset",
    "woclr",
    "wot",
    "wzs",
    "wzc",
    "wzt",
    "wclr",
    "wset",
    "rclr",
    "rset",
    "compact",
    "regalign",
    "fullalign",
    "constraint",
    "mem",
    "external",
    "struct",
    "abstract",
    "property",
    "ruser",
    "wuser",
    "accesstype",
    "addressingtype",
    "onreadtype",
    "onwritetype",
];

impl Keyword {
    ghost use Rattle.rdl_base.specs.Keywords.{word, is_reserved};

    /// How the word is spelled.
    pub fn word(self) -> &'static str
        ensures { result.now ≡ word self }
    {
        WORDS[self as usize]
    }

    /// The keyword that is spelled so, and none where the text is no reserved word.
    pub fn of(text: &[u8]) -> Option<Keyword>
        ensures reserved { is_some result ≡ is_reserved text.now }
        ensures spelled { IfSome result (λ keyword. word keyword ≡ text.now) }
    {
        for keyword in of_length(text.len()) {
            if keyword.word().as_bytes() == text {
                return Some(*keyword);
            }
        }
        None
    }
}

ghost use Rattle.rdl_base.specs.Keywords.{word, keywords};

// The keywords of so many bytes.
#[tactic(auto, unfolding(crate::specs::Keywords::keywords))]
fn of_length(len: usize) -> &'static [Keyword]
    ensures { result.now ≡ filter (λ keyword. length (word keyword) == len) keywords }
{
    use Keyword::*;

    match len {
        1 => &[R, W],
        2 => &[Rw, Wr, W1, Na],
        3 => &[Reg, Bit, Rw1, Wot, Wzs, Wzc, Wzt, Mem],
        4 => &[Enum, True, Wclr, Wset, Rclr, Rset],
        5 => &[Field, Alias, Level, False, Woset, Woclr, Ruser, Wuser],
        6 => &[Signal, String, Struct],
        7 => &[
            Addrmap, Regfile, Default, Posedge, Negedge, Longint, Boolean, Compact,
        ],
        8 => &[
            Internal, Bothedge, Unsigned, Regalign, External, Abstract, Property,
        ],
        9 => &[Nonsticky, Fullalign],
        10 => &[Constraint, Accesstype, Onreadtype],
        11 => &[Onwritetype],
        14 => &[Addressingtype],
        _ => &[],
    }
}
