//! What is assigned at each node already.

ghost use Rattle.std.specs.Prelude.{◌≡◌, ◌&&◌, ◌||◌, Bool, not, IfOk};
ghost use Rattle.std.specs.List.{list_any};
ghost use Rattle.rdl_props.specs.Same.{same_prop};
ghost use Rattle.rdl_props.specs.declared.prop.Prop.{Prop as AnyProp};
ghost use Rattle.rdl_layers.specs.Ranks as ranks;

use indexmap::IndexMap;
use rb_base::NoMemory;
use rdl_layers::is_related;
use rdl_props::{Prop, group};
use std::alloc::Global;

// Whether the property is one of these.
fn is_among(props: &[Prop], prop: Prop) -> bool
    ensures { result ≡ list_any (same_prop prop) props.now }
{
    props.iter().any(|other| prop == *other)
}

// Whether one that excludes it is.
fn has_rival(props: &[Prop], prop: Prop) -> bool
    ensures { result ≡ list_any (λ q. ranks.is_related prop q && not (same_prop prop q)) props.now }
{
    props
        .iter()
        .any(|other| is_related(prop, *other) & (prop != *other))
}

// The properties, with one more.
fn with_prop(mut props: Vec<Prop>, prop: Prop) -> Result<Vec<Prop>, NoMemory>
    ensures { IfOk result (λ r. (f : AnyProp → Bool) → list_any f r.items ≡ (list_any f props.items || f prop)) }
{
    if is_among(&props, prop) {
        return Ok(props);
    }
    props.push(prop)?;
    Ok(props)
}

/// The properties that the dynamic assignments of one body assign at nodes, as far as they have been read: by node, each once.
#[derive(Drop)]
pub(crate) struct Marks {
    at: IndexMap<u32, Vec<Prop>>,
}

impl Marks {
    ghost use Rattle.std.specs.Prelude.{◌≡◌, ◌==◌, ◌&&◌, ◌||◌, ◌∷◌, ◌++◌, [], ℕ, Bool, false, not, cond, IfOk, OnOk};
    ghost use Rattle.std.specs.List.{list_any};
    ghost use Rattle.rdl_props.specs.Same.{same_prop};
    ghost use Rattle.rdl_props.specs.declared.prop.Prop.{Prop as AnyProp};
    ghost use Rattle.rdl_layers.specs.Ranks as ranks;
    ghost use Rattle.rdl_dynamic.specs.Marks.{is_marked};

    /// None yet.
    pub(crate) fn new(alloc: Global) -> Self
        ensures { (node : ℕ) (f : AnyProp → Bool) → is_marked result node f ≡ false }
    {
        Marks {
            at: IndexMap::new(alloc),
        }
    }

    /// Whether the property is assigned at the node.
    pub(crate) fn has(&self, node: u32, prop: Prop) -> bool
        ensures { result ≡ is_marked self.now node (same_prop prop) }
    {
        match self.at.get(&node) {
            Some(props) => is_among(props, prop),
            None => false,
        }
    }

    // Whether one that excludes it is.
    fn has_rival(&self, node: u32, prop: Prop) -> bool
        ensures { result ≡ is_marked self.now node (λ q. ranks.is_related prop q && not (same_prop prop q)) }
    {
        match self.at.get(&node) {
            Some(props) => has_rival(props, prop),
            None => false,
        }
    }

    /// Whether the property is assigned at one of the nodes.
    pub(crate) fn is_taken(&self, nodes: &[u32], prop: Prop) -> bool
        ensures { result ≡ list_any (λ k. is_marked self.now k (same_prop prop)) nodes.now }
    {
        nodes.iter().any(|node| self.has(*node, prop))
    }

    /// Whether one that excludes it is, which those of no group have none of.
    pub(crate) fn is_excluded(&self, nodes: &[u32], prop: Prop) -> bool
        ensures { result ≡ list_any (λ k. is_marked self.now k (λ q. ranks.is_related prop q && not (same_prop prop q))) nodes.now }
    {
        match group(prop) {
            Some(_) => nodes.iter().any(|node| self.has_rival(*node, prop)),
            None => false,
        }
    }

    // Takes the properties of a node out.
    fn take(&mut self, alloc: Global, node: u32) -> Result<Vec<Prop>, NoMemory>
        ensures left { OnOk result ((other : ℕ) (f : AnyProp → Bool) → is_marked self.new other f ≡ (is_marked self.old other f && not (node == other))) }
        ensures props { IfOk result (λ r. (f : AnyProp → Bool) → list_any f r.items ≡ is_marked self.old node f) }
    {
        match self.at.insert(node, Vec::new(alloc))? {
            Some(props) => Ok(props),
            None => Ok(Vec::new(alloc)),
        }
    }

    // Puts the properties of a node back.
    fn put(&mut self, node: u32, props: Vec<Prop>) -> Result<(), NoMemory>
        ensures { OnOk result ((other : ℕ) (f : AnyProp → Bool) → is_marked self.new other f ≡ cond (node == other) (list_any f props.items) (is_marked self.old other f)) }
    {
        self.at.insert(node, props)?;
        Ok(())
    }

    /// Marks a node with a property.
    pub(crate) fn add(&mut self, alloc: Global, node: u32, prop: Prop) -> Result<(), NoMemory>
        ensures { OnOk result ((other : ℕ) (f : AnyProp → Bool) → is_marked self.new other f ≡ (is_marked self.old other f || ((node == other) && f prop))) }
    {
        if self.has(node, prop) {
            return Ok(());
        }
        let props = with_prop(self.take(alloc, node)?, prop)?;
        self.put(node, props)
    }

    /// Marks nodes with a property.
    pub(crate) fn add_all(
        &mut self,
        alloc: Global,
        nodes: &[u32],
        prop: Prop,
    ) -> Result<(), NoMemory>
        ensures { OnOk result ((other : ℕ) (f : AnyProp → Bool) → is_marked self.new other f ≡ (is_marked self.old other f || (list_any (λ k. k == other) nodes.now && f prop))) }
    {
        for node in nodes {
            self.add(alloc, *node, prop)?;
        }
        Ok(())
    }
}
