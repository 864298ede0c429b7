//! The list of open bodies.

ghost use Rattle.std.specs.Prelude.{◌≡◌};

use crate::hints::Hints;
use bumpalo::Bump;
use rdl_scopes::{ClosedEnums, Components};
use rdl_tree::{Bound, Def, EnumValues, Item, Kind, Param};
use rdl_values::Table;
use std::alloc::Global;
use std::collections::BTreeMap;

/// A definition in the bodies round its text, with the values of its parameters: those that the text has at all uses, with the touched
/// ones put over them.
#[derive(Clone, Copy)]
pub struct Site<'s, 'a> {
    pub def: &'a Def<'a>,
    /// The bodies round its text, the nearest first, by their numbers.
    pub outer: &'s [usize],
    /// How many items of each stand before it.
    pub uptos: &'s [usize],
    pub touched: &'a [Bound<'a>],
}

/// An open body.
#[derive(Clone, Copy)]
pub struct Body<'s, 'a> {
    /// The number of its site; the root has none.
    pub site: Option<usize>,
    /// The number of its text.
    pub text: usize,
    pub items: &'a [Item<'a>],
    /// The kind of its nodes; the root has none.
    pub kind: Option<Kind>,
    /// Its own number, and those of the bodies round its definition's text, the nearest first.
    pub numbers: &'s [usize],
    /// How many items of the bodies round it stand before its definition.
    pub uptos: &'s [usize],
    /// The parameters of its definition, and the values that are put over those that its text has at all uses.
    pub params: &'a [Param<'a>],
    pub touched: &'a [Bound<'a>],
    /// Its enumerations in order.
    pub enums: &'a [EnumValues<'a>],
}

/// The value of a parameter, as part of a key.
#[derive(PartialEq, Eq, PartialOrd, Ord, Drop)]
pub(crate) enum ValueKey<'a> {
    Number(u64),
    Flag(bool),
    Str(&'a [u8]),
}

/// A parameter with its value, as part of a key.
#[derive(PartialEq, Eq, PartialOrd, Ord, Drop)]
pub(crate) struct ParameterKey<'a> {
    pub name: &'a [u8],
    pub value: ValueKey<'a>,
}

/// By what a site is looked up: the nearest body round its definition, how many items of that stand before it, and what is put
/// over the values of its parameters.
#[derive(PartialEq, Eq, PartialOrd, Ord, Drop)]
pub(crate) struct SiteKey<'a> {
    pub outer: usize,
    pub upto: usize,
    pub values: Vec<ParameterKey<'a>>,
}

/// Where a definition stands in the text round it: the number of that text, and how many of its items stand before the definition.
#[derive(Clone, Copy)]
pub(crate) struct TextPlace {
    pub outer: usize,
    pub upto: usize,
}

/// What is the same in all bodies of a definition that stands at one place, or in the root's.
#[derive(Drop)]
pub(crate) struct Text<'a> {
    /// The root's stands at none.
    pub place: Option<TextPlace>,
    pub items: &'a [Item<'a>],
    /// The parameters of its definition; the root's has none.
    pub params: &'a [Param<'a>],
    /// Whether no entry's value of its enumerations names anything: then they are the same in all bodies.
    pub steady: bool,
    pub closed: ClosedEnums<'a>,
    /// Its definitions by their names, with what their parameters have at all uses.
    pub components: Components<'a>,
}

/// The bodies of a source that are open, and the sites of those that may be. Their lists of numbers stand in an arena of their own.
#[derive(Drop)]
pub struct Bodies<'s, 'a> {
    // The arena of numbers.
    pub(crate) scratch: &'s Bump,
    pub(crate) tables: Vec<Table<'a>>,
    pub(crate) components: Vec<Components<'a>>,
    pub(crate) list: Vec<Body<'s, 'a>>,
    pub(crate) sites: Vec<Site<'s, 'a>>,
    pub(crate) texts: Vec<Text<'a>>,
    // Which site to try for the nearest body round its definition and how many items of that stand before it, where nothing is put over
    // its parameters, and for a key where something is.
    pub(crate) plain: Hints,
    pub(crate) known: BTreeMap<SiteKey<'a>, usize>,
    // Which body to try for a site, by the numbers of sites; the root's stands for none.
    pub(crate) opened: Vec<usize>,
    // Which text to try for the number of the text round it and an item of that.
    pub(crate) text_numbers: Hints,
}

impl<'s, 'a> Bodies<'s, 'a> {
    ghost use Rattle.std.specs.Prelude.{◌≡◌, slice_get};

    /// The tables of the bodies by their numbers.
    pub fn tables(&self) -> &[Table<'a>]
        ensures { result.now ≡ self.now.tables.items }
    {
        &self.tables
    }

    /// The components of the bodies by their numbers.
    pub fn components(&self) -> &[Components<'a>]
        ensures { result.now ≡ self.now.components.items }
    {
        &self.components
    }

    /// The body of a number.
    pub fn body(&self, number: usize) -> Option<Body<'s, 'a>>
        ensures { result ≡ slice_get self.now.list.items number }
    {
        self.list.get(number).copied()
    }

    /// The site of a number.
    pub fn site(&self, number: usize) -> Option<Site<'s, 'a>>
        ensures { result ≡ slice_get self.now.sites.items number }
    {
        self.sites.get(number).copied()
    }

    /// The tables of the bodies by their numbers, without anything else.
    pub fn into_tables(self) -> Vec<Table<'a>>
        ensures { result ≡ self.entry.tables }
    {
        self.tables
    }

    /// The same bodies, sites and texts, without the keys by which they are found again: for readers, after the last body was opened.
    pub fn without_keys(self, alloc: Global) -> Self
        ensures tables { result.tables ≡ self.entry.tables }
        ensures components { result.components ≡ self.entry.components }
        ensures list { result.list ≡ self.entry.list }
        ensures sites { result.sites ≡ self.entry.sites }
        ensures texts { result.texts ≡ self.entry.texts }
    {
        Bodies {
            plain: Hints::new(alloc),
            known: BTreeMap::new(alloc),
            opened: Vec::new(alloc),
            text_numbers: Hints::new(alloc),
            ..self
        }
    }
}
