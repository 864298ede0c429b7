use std::marker::Model;

/// An enumeration by which fields are encoded: its name, where that stands in the source, the number of the first of these fields, and
/// its entries with their values, in the order of the text.
#[derive(Drop)]
pub struct Encoding<'a> {
    pub name: &'a [u8],
    pub place: u32,
    pub field: u32,
    pub entries: Vec<(&'a [u8], u64)>,
}

impl<'a> Model for Encoding<'a> {
    ghost use Rattle.std.specs.Prelude.{map};
    ghost use Rattle.encodings.specs.Encodings.{Enumeration};

    ghost Value = { Enumeration };

    ghost view = { λ e. record { name = e.name.now; place = e.place; field = e.field; entries = map (λ x. (x.0.now, x.1)) e.entries.items } };
}

/// The enumerations of a block, each once, and for each of its fields the number of the one by which it is encoded, if it is.
#[derive(Drop)]
pub struct Encodings<'a> {
    pub list: Vec<Encoding<'a>>,
    pub fields: Vec<Option<u32>>,
}

impl<'a> Model for Encodings<'a> {
    ghost use Rattle.encodings.specs.Encodings.{Enumerations};

    ghost Value = { Enumerations };

    ghost view = { λ e. record { list = e.list.items; fields = e.fields.items } };
}
