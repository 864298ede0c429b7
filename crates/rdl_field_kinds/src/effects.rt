//! What software's accesses make of a field (SystemRDL 2.0, 9.6).

ghost use Rattle.std.specs.Prelude.{◌≡◌, ◌<◌, Some, slice_get};
ghost use Rattle.rdl_values.specs.Elaborated.{nodes_of};
ghost use Rattle.rdl_values.specs.Instances.{Instance};
ghost use Rattle.rdl_rules.specs.Fields as fields;

use rb_model::{OnRead, OnWrite};
use rdl_base::Keyword;
use rdl_fields::has;
use rdl_layers::{Props, Setting};
use rdl_props::Prop;

// What a word says of writes.
fn write_word(word: Keyword) -> OnWrite
    ensures { result ≡ fields.write_word word }
{
    match word {
        Keyword::Woset => OnWrite::WoSet,
        Keyword::Woclr => OnWrite::WoClr,
        Keyword::Wot => OnWrite::WoT,
        Keyword::Wzs => OnWrite::WzS,
        Keyword::Wzc => OnWrite::WzC,
        Keyword::Wzt => OnWrite::WzT,
        Keyword::Wclr => OnWrite::WClr,
        Keyword::Wset => OnWrite::WSet,
        _ => OnWrite::Off,
    }
}

// What a word says of reads.
fn read_word(word: Keyword) -> OnRead
    ensures { result ≡ fields.read_word word }
{
    match word {
        Keyword::Rclr => OnRead::RClr,
        Keyword::Rset => OnRead::RSet,
        _ => OnRead::Off,
    }
}

/// What a write through the view of this number does beside setting the bits written.
pub fn on_write(props: &Props<'_>, node: u32) -> OnWrite
    requires { node < props.now.count }
    ensures { (n : Instance) → slice_get (nodes_of props.now) node ≡ Some n → result ≡ fields.on_write_of n }
{
    if let Setting::Word(word) = props.value(node, Prop::Onwrite) {
        return write_word(word);
    }
    if has(props, node, Prop::Woset) {
        OnWrite::WoSet
    } else if has(props, node, Prop::Woclr) {
        OnWrite::WoClr
    } else {
        OnWrite::Off
    }
}

/// What a read through the view of this number does.
pub fn on_read(props: &Props<'_>, node: u32) -> OnRead
    requires { node < props.now.count }
    ensures { (n : Instance) → slice_get (nodes_of props.now) node ≡ Some n → result ≡ fields.on_read_of n }
{
    if let Setting::Word(word) = props.value(node, Prop::Onread) {
        return read_word(word);
    }
    if has(props, node, Prop::Rclr) {
        OnRead::RClr
    } else if has(props, node, Prop::Rset) {
        OnRead::RSet
    } else {
        OnRead::Off
    }
}
