//! Sites that are listed, each once.

ghost use Rattle.std.specs.Prelude.{◌≡◌, ℕ, List, Some, map, IfOk, IfSome, OnOk, length, slice_get};
ghost use Rattle.rdl_base.specs.declared.fault.Fault.{Fault as AnyFault};

use crate::bodies::{Bodies, ParameterKey, Site, SiteKey, ValueKey};
use crate::same::{are_equal, are_same};
use crate::sparing::push_sparing;
use bumpalo::Bump;
use rb_base::NoMemory;
use rdl_tree::{Bound, Def, Value};
use std::alloc::Global;

// A value in a key.
fn value_key<'a>(value: &Value<'a>) -> ValueKey<'a> {
    match value {
        Value::Number(n) => ValueKey::Number(*n),
        Value::Flag(b) => ValueKey::Flag(*b),
        Value::Str(s) => ValueKey::Str(s),
    }
}

// The values of some parameters.
fn values_of<'a>(alloc: Global, bound: &[Bound<'a>]) -> Result<Vec<ParameterKey<'a>>, NoMemory> {
    let mut values = Vec::new(alloc);
    for parameter in bound {
        values.push(ParameterKey {
            name: parameter.name.text,
            value: value_key(&parameter.value),
        })?;
    }
    Ok(values)
}

// The first of some numbers, or the last that there is.
fn nearest(numbers: &[usize]) -> usize {
    numbers.first().copied().unwrap_or(usize::MAX)
}

// By what a site is looked up.
fn key_of<'a>(
    alloc: Global,
    outer: &[usize],
    uptos: &[usize],
    touched: &[Bound<'a>],
) -> Result<SiteKey<'a>, NoMemory> {
    let values = values_of(alloc, touched)?;
    Ok(SiteKey {
        outer: nearest(outer),
        upto: nearest(uptos),
        values,
    })
}

// A copy in the arena.
fn numbers_in<'s>(scratch: &'s Bump, numbers: &[usize]) -> Result<&'s [usize], NoMemory>
    ensures { IfOk result (λ r. r.now ≡ numbers.now) }
{
    let copy = scratch.try_alloc_slice_copy(numbers)?;
    Ok(copy)
}

// A copy in the arena.
fn bound_in<'a>(arena: &'a Bump, bound: &[Bound<'a>]) -> Result<&'a [Bound<'a>], NoMemory>
    ensures { IfOk result (λ r. r.now ≡ bound.now) }
{
    let copy = arena.try_alloc_slice_copy(bound)?;
    Ok(copy)
}

impl<'s, 'a> Bodies<'s, 'a> {
    ghost use Rattle.std.specs.Prelude.{◌≡◌, ◌∷◌, ◌++◌, [], List, Some, map, IfOk, IfSome, OnOk, length, slice_get};
    ghost use Rattle.rdl_base.specs.declared.fault.Fault.{Fault as AnyFault};
    ghost use Rattle.rdl_values.specs.Bodies.{Closure};
    ghost use Rattle.rdl_values.specs.Parameters.{Bound as BoundOf};
    ghost use Rattle.rdl_values.specs.Seen.{bound_of};
    ghost use Rattle.rdl_values.specs.Overlaid.{AreApart, plain_of};
    ghost use Rattle.rdl_bodies.specs.Kept.{AreBelow, AreKept};
    ghost use Rattle.rdl_bodies.specs.Opened.{IsListed, IsSame};
    ghost use Rattle.rdl_bodies.specs.Sited.{AreRound, AreValued, def_at, values_over};
    ghost use Rattle.rdl_bodies.specs.declared.bodies.Site.{Site as SiteOf};

    // Which site to try.
    fn site_hint(&self, key: &SiteKey<'a>) -> Option<usize> {
        if key.values.is_empty() {
            self.plain.get(key.outer, key.upto)
        } else {
            self.known.get(key).copied()
        }
    }

    // Notes which site to try.
    fn note_site(&mut self, key: SiteKey<'a>, number: usize) -> Result<(), NoMemory>
        ensures tables { self.new.tables ≡ self.old.tables }
        ensures components { self.new.components ≡ self.old.components }
        ensures list { self.new.list ≡ self.old.list }
        ensures sites { self.new.sites ≡ self.old.sites }
        ensures texts { self.new.texts ≡ self.old.texts }
    {
        if key.values.is_empty() {
            self.plain.note(key.outer, key.upto, number)?;
        } else {
            self.known.insert(key, number)?;
        }
        Ok(())
    }

    // The site of a key, where it is this one.
    fn find_site(
        &self,
        key: &SiteKey<'a>,
        outer: &[usize],
        uptos: &[usize],
        touched: &[Bound<'a>],
    ) -> Option<usize>
        ensures { IfSome result (λ k. (s : SiteOf) × (slice_get self.now.sites.items k ≡ Some s) × IsSame s outer.now uptos.now (map bound_of touched.now)) }
    {
        let number = self.site_hint(key)?;
        match self.sites.get(number) {
            Some(site)
                if are_equal(site.outer, outer)
                    && are_equal(site.uptos, uptos)
                    && are_same(site.touched, touched) => { Some(number) }
            _ => None,
        }
    }

    // Puts a site behind the others.
    fn push_site(&mut self, site: Site<'s, 'a>, key: SiteKey<'a>) -> Result<(), NoMemory>
        ensures tables { self.new.tables ≡ self.old.tables }
        ensures components { self.new.components ≡ self.old.components }
        ensures list { self.new.list ≡ self.old.list }
        ensures sites { OnOk result (self.new.sites.items ≡ self.old.sites.items ++ (site.entry ∷ [])) }
        ensures texts { self.new.texts ≡ self.old.texts }
    {
        let number = self.sites.len();
        push_sparing(&mut self.sites, site)?;
        self.note_site(key, number)
    }

    /// The number of the site of a definition in these bodies, behind so many items of each, with these values put over those that its
    /// parameters have at all uses: one that is listed, or else a new one.
    pub fn list(
        &mut self,
        alloc: Global,
        arena: &'a Bump,
        def: &'a Def<'a>,
        outer: &'s [usize],
        uptos: &[usize],
        touched: &[Bound<'a>],
    ) -> Result<usize, NoMemory>
        requires below { AreBelow (length self.old.tables.items) outer.now }
        requires defined { def_at self.old.components.items outer.now uptos.now ≡ Some def.now }
        requires apart { AreApart (plain_of def.now.params.now) }
        requires valued { AreValued def.now.params.now touched.now }
        ensures { IfOk result (λ k. (held : List AnyFault) (c : Closure) (b : BoundOf) → AreKept self.old held → c.def ≡ def.now → AreRound self.old outer.now uptos.now c.scope → b ≡ values_over def.now.params.now touched.now → IsListed self.old self.new held k c b) }
    {
        let key = key_of(alloc, outer, uptos, touched)?;
        if let Some(number) = self.find_site(&key, outer, uptos, touched) {
            return Ok(number);
        }
        let number = self.sites.len();
        let site = Site {
            def,
            outer,
            uptos: numbers_in(self.scratch, uptos)?,
            touched: bound_in(arena, touched)?,
        };
        self.push_site(site, key)?;
        Ok(number)
    }
}
