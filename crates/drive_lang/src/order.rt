//! Orders: what a line of a script asks for.

use rb_base::Text;

/// What a line asks for. A word is meant by its byte address. A pin is meant by its place: of an input among those behind the bus's,
/// of an output among all outputs. A name is there where outputs are asked for, as the line spells it.
#[derive(Drop)]
pub enum Order {
    /// A write of a word.
    Poke {
        address: u32,
        value: u128,
    },
    /// A read of a word, whose data is shown.
    Peek {
        address: u32,
        name: Text,
    },
    /// A read of a word, whose data is checked.
    Expect {
        address: u32,
        value: u128,
        name: Text,
    },
    /// From here on the input has this value.
    Set {
        place: u32,
        value: u128,
    },
    /// A vector in which the output is checked.
    See {
        output: u32,
        value: u128,
        name: Text,
    },
    /// So many vectors in which the bus rests.
    Wait {
        count: u32,
    },
    /// So many vectors under reset.
    Reset {
        count: u32,
    },
}

/// A line that asks for something, by its number, from 1 on.
#[derive(Drop)]
pub struct Line {
    /// Its place among all lines of the script, blank ones included.
    pub number: u32,
    /// What it asks for.
    pub order: Order,
}

/// What is asked of the outputs at a vector of a script, by the number of the line that asks. An output is meant by its place among
/// all outputs, which count from 0.
#[derive(Clone, Copy, Debug, PartialEq, Eq)]
pub enum Turn {
    /// There is no further vector.
    End,
    /// Nothing is asked.
    Plain,
    /// The output is to be shown.
    Show {
        line: u32,
        output: u32,
    },
    /// The output is to be compared with a number.
    Check {
        line: u32,
        output: u32,
        wanted: u128,
    },
}
