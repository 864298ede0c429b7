//! What is seen from a body.

ghost use Rattle.std.specs.Prelude.{◌≡◌, ◌∷◌, [], Contains, IfNone, IfSome, IsSome, List, Option};
ghost use Rattle.rb_base.specs.declared.place.Place.{Place};
ghost use Rattle.rdl_tree.specs.declared.expr.Name.{Name};
ghost use Rattle.rdl_tree.specs.declared.expr.Path.{Path};
ghost use Rattle.rdl_props.specs.declared.prop.Prop.{Prop};
ghost use Rattle.rdl_values.specs.Bodies.{Scope};
ghost use Rattle.rdl_values.specs.Elaborated.{nodes_of};
ghost use Rattle.rdl_values.specs.Elaboration.{IsClean};
ghost use Rattle.rdl_values.specs.Instances.{Instance};
ghost use Rattle.rdl_values.specs.Seen.{around_of};
ghost use Rattle.rdl_values.specs.Values.{Around, Names};
ghost use Rattle.rdl_layers.specs.NodeNames.{around_at};
ghost use Rattle.rdl_layers.specs.Says.{IsScopeNumber};
ghost use Rattle.rdl_layers.specs.Settings.{reference, setting};
ghost use Rattle.rdl_nodes.specs.Rows.{AreRows};
ghost use Rattle.rdl_resolve.specs.Outward.{IsSeen};
ghost use Rattle.rdl_resolve.specs.Outers.{AreOuters};

use crate::leading::Viewpoint;
use crate::table::row_of;
use rdl_layers::{Props, settings_in_bodies, texts_in_bodies};
use rdl_nodes::Row;
use rdl_tree::{Elab, Env};
use rdl_values::scopes_are_bodies;

/// The environment round one. None where it has one body.
fn round<'a>(env: &Env<'a>) -> Option<&'a Env<'a>>
    ensures some { IfSome result (λ o. (names : Names) (rest : Around) → around_of env.now ≡ names ∷ rest → around_of o.now ≡ rest) }
    ensures none { IfNone result ((names : Names) (rest : Around) → around_of env.now ≡ names ∷ rest → rest ≡ []) }
{
    env.outer
}

/// What is visible in the body of a number: of a node, or the root's, whose number is the count of nodes. It is always found.
fn env_at<'a>(elab: &Elab<'a>, rows: &[Row<'a>], body: u32) -> Option<&'a Env<'a>>
    requires clean { IsClean elab.now }
    requires rows { AreRows elab.now rows.now }
    ensures visible { IfSome result (λ o. around_of o.now ≡ around_at elab.now body) }
    ensures found { IsSome result }
{
    texts_in_bodies();
    scopes_are_bodies();
    match row_of(rows, body) {
        Some(row) => Some(row.node.env),
        None => round(elab.top.env),
    }
}

/// From where a reference is looked up whose text stands in the body of a number. It is always found.
pub fn view_from<'t, 'a>(
    elab: &Elab<'a>,
    props: &'t Props<'a>,
    rows: &[Row<'a>],
    outers: &'t [u32],
    body: u32,
) -> Option<Viewpoint<'t, 'a>>
    requires clean { IsClean elab.now }
    requires tree { props.now ≡ elab.now }
    requires rows { AreRows elab.now rows.now }
    requires outers { AreOuters elab.now outers.now }
    ensures seen { IfSome result (λ v. (n : Instance) (p : Prop) (path : Path) (item : Option Name) (scope : Scope) (place : Place) → Contains (nodes_of elab.now) n → setting n p ≡ reference path item scope place → IsScopeNumber (nodes_of elab.now) scope body
        → IsSeen elab.now v scope) }
    ensures found { IsSome result }
{
    settings_in_bodies();
    let env = env_at(elab, rows, body)?;
    Some(Viewpoint {
        body,
        env,
        visible: props.visible_in(body),
        outers,
        root: elab.count,
    })
}
