//! The settings of a tree.

ghost use Rattle.std.specs.Prelude.{◌≡◌, ◌<◌};
ghost use Rattle.rdl_failures.specs.Shown.{IsShown};
ghost use Rattle.rdl_layers.specs.Answers.{SaysAt};
ghost use Rattle.rdl_layers.specs.NodeNames.{AreNamesOf, around_at};
ghost use Rattle.rdl_layers.specs.Tables.{AreTablesOf, decided_in, default_in, is_false_set, setting_in, settled_by};

use crate::names::NodeNames;
use crate::related::is_related;
use crate::setting::Setting;
use rdl_base::Keyword;
use rdl_props::{Prop, group};
use rdl_tree::Elab;
use rdl_values::Chain;
use std::marker::Model;

/// What an assignment that applies to a node gives its property.
#[derive(Clone, Copy)]
pub struct PropSetting<'a> {
    pub prop: Prop,
    pub setting: Setting<'a>,
}

/// The settings of all properties of all nodes of a tree, and what is visible in the bodies of these. They are seen as the tree.
#[derive(Drop)]
pub struct Props<'a> {
    elab: Elab<'a>,
    /// For each node what decides its properties, the first one of a group before the others.
    entries: Vec<Vec<PropSetting<'a>>>,
    names: NodeNames<'a>,
}

impl<'a> Model for Props<'a> {
    ghost use Rattle.rdl_tree.specs.declared.node.Elab.{Elab};
    ghost use Rattle.rdl_tree.specs.contracts.expr.Expr as expr;
    ghost use Rattle.rdl_tree.specs.contracts.item.Item as item;
    ghost use Rattle.rdl_tree.specs.contracts.node.Node as node;
    ghost use Rattle.rdl_tree.specs.contracts.value.Env as env;
    ghost use Rattle.std.specs.Coded.{codes};
    ghost use denote.Signature.{static_lft};

    ghost Value = { Elab };

    ghost coded = { Prim.hlevel (codes, (expr.the_row static_lft).coded, (item.the_row static_lft).coded, (node.the_row static_lft).coded, (env.the_row static_lft).coded) };

    ghost use Rattle.rdl_layers.specs.Tables.{AreTables};

    ghost view = { λ p. p.elab };

    ghost invariant = { AreTables };
}

// What the table of properties gives a property that nothing assigns.
fn default_of<'a>(prop: Prop) -> Setting<'a>
    ensures { result ≡ default_in prop }
{
    use Prop::*;

    match prop {
        Addressing => Setting::Word(Keyword::Regalign),
        Regwidth => Setting::Number(32),
        Signalwidth | Fieldwidth => Setting::Number(1),
        Sw | Hw => Setting::Word(Keyword::Rw),
        Precedence => Setting::Hard(false),
        Lsb0 | Littleendian | Sync | Activehigh => Setting::Flag(true),
        FieldReset | Anded | Ored | Xored | Swmod | Swacc => Setting::Flag(false),
        Singlepulse | Counter | Overflow | Underflow => Setting::Flag(false),
        _ => Setting::Unset,
    }
}

// Whether it is the boolean false.
fn is_false(setting: &Setting) -> bool
    ensures { result ≡ is_false_set setting.now }
{
    match setting {
        Setting::Flag(flag) => !*flag,
        _ => false,
    }
}

// What the deciding entry makes of a property: another one of the group leaves it unset, and false leaves the whole group unset.
fn settled<'a>(entry: &PropSetting<'a>, prop: Prop) -> Setting<'a>
    ensures { result ≡ settled_by prop entry.now }
{
    let empties = group(prop).is_some() & is_false(&entry.setting);
    if (prop == entry.prop) & !empties {
        entry.setting
    } else {
        Setting::Unset
    }
}

// What the first entry of a property, or of one that excludes it, makes of it.
fn decided<'a>(entries: &[PropSetting<'a>], prop: Prop, default: Setting<'a>) -> Setting<'a>
    ensures { result ≡ decided_in prop default.entry entries.now }
{
    for entry in entries {
        if is_related(prop, entry.prop) {
            return settled(entry, prop);
        }
    }
    default
}

/// What the entries make of a property: the first one of it, or of one that excludes it, decides, and where there is none the table
/// of properties does. An accesswidth that nothing assigns is the register's regwidth (SystemRDL 2.0, 10.6).
pub fn setting_of<'a>(entries: &[PropSetting<'a>], prop: Prop) -> Setting<'a>
    ensures { result ≡ setting_in prop entries.now }
{
    match prop {
        Prop::Accesswidth => {
            let width = decided(entries, Prop::Regwidth, default_of(Prop::Regwidth));
            decided(entries, prop, width)
        }
        _ => decided(entries, prop, default_of(prop)),
    }
}

impl<'a> Props<'a> {
    /// The settings of a tree, from what decides the properties of each node, and from what is visible in the body of each.
    pub fn of(elab: Elab<'a>, entries: Vec<Vec<PropSetting<'a>>>, names: NodeNames<'a>) -> Self
        requires settings { AreTablesOf elab entries.items }
        requires names { AreNamesOf elab names }
        ensures { result ≡ elab.entry }
    {
        Props {
            elab,
            entries,
            names,
        }
    }

    /// What the property of the node of this number is set to (SystemRDL 2.0, 5.1.3). It takes no memory.
    pub fn value(&self, node: u32, prop: Prop) -> Setting<'a>
        requires { node < self.now.count }
        ensures { SaysAt self.now node prop result }
    {
        setting_of(&self.entries[node as usize], prop)
    }

    /// What the expressions in the body of the node of this number see, or in the root's body, where it is the count of nodes
    /// (SystemRDL 2.0, 5.1.4). It takes no memory.
    pub fn visible_in(&self, body: u32) -> Chain<'_, '_, '_, 'a>
        ensures { IsShown result (around_at self.now body) }
    {
        self.names.visible_in(body)
    }
}
