//! Bodies that are opened.

ghost use Rattle.std.specs.Prelude.{◌≡◌, ◌∷◌, [], IfOk, OnOk, slice_get};
ghost use Rattle.rdl_tree.specs.InOrder.{IsInOrder};
ghost use Rattle.rdl_values.specs.Bodies.{Body as BodyOf, around};
ghost use Rattle.rdl_values.specs.Chained.{chained};
ghost use Rattle.rdl_values.specs.Kept.{AreDefaultsOf};
ghost use Rattle.rdl_values.specs.Overlaid.{AreApart, plain_of};
ghost use Rattle.rdl_values.specs.Phase3.{twice_defined};
ghost use Rattle.rdl_failures.specs.Noted.{Holds, with_all};
ghost use Rattle.rdl_failures.specs.Shown.{IsAlike};
ghost use Rattle.rdl_scopes.specs.Closed.{AreClosedOf};
ghost use Rattle.rdl_scopes.specs.Opened as names;
ghost use Rattle.rdl_bodies.specs.Kept.{of_names};
ghost use Rattle.rdl_bodies.specs.Opened.{IsBodyOf};
ghost use Rattle.rdl_bodies.specs.Sited.{values_over};

use crate::bodies::{Bodies, Body, Site, TextPlace};
use crate::sparing::push_sparing;
use bumpalo::Bump;
use bumpalo::collections::into_bump_slice;
use rb_base::NoMemory;
use rdl_failures::Failures;
use rdl_scopes::{ClosedEnums, Components, Found, Opened, Outer, defaults_of, open_names};
use rdl_tree::{Bound, Item, Kind, Param};
use rdl_values::{Defaults, Parameters, Table};
use std::alloc::Global;
use std::rc::Rc;

/// The text of a body, with the values of its parameters, in the bodies round it.
#[derive(Clone, Copy)]
pub(crate) struct BodyText<'s, 'a> {
    pub site: Option<usize>,
    pub items: &'a [Item<'a>],
    pub kind: Option<Kind>,
    pub outer: &'s [usize],
    pub uptos: &'s [usize],
    pub params: &'a [Param<'a>],
    pub touched: &'a [Bound<'a>],
}

// A table of a definition's parameters, with these values put over those that its text has at all uses.
fn table_over<'a>(
    alloc: Global,
    params: &[Param<'a>],
    defaults: &Rc<Defaults<'a>>,
    touched: &[Bound<'a>],
) -> Result<Table<'a>, NoMemory>
    requires defaults { AreDefaultsOf defaults.now.value params.now }
    requires apart { AreApart (plain_of params.now) }
    ensures { IfOk result (λ t. t ≡ (record { bound = values_over params.now touched.now; enums = [] })) }
{
    if params.is_empty() {
        return Ok(Table::new(alloc));
    }
    let parameters = Parameters::of(alloc, defaults.clone()?, touched)?;
    Table::over(alloc, parameters)
}

// The names of a body, the failures of which are put in. Those of names that are defined twice are held.
fn names_of<'a>(
    alloc: Global,
    arena: &'a Bump,
    tables: &[Table<'a>],
    text: &BodyText<'_, 'a>,
    defaults: &Rc<Defaults<'a>>,
    closed: &ClosedEnums<'a>,
    failures: &mut Failures,
) -> Result<Opened<'a>, NoMemory>
    requires defaults { AreDefaultsOf defaults.now.value text.now.params.now }
    requires apart { AreApart (plain_of text.now.params.now) }
    requires in_order { IsInOrder text.now.items.now }
    requires closed { AreClosedOf closed.now text.now.items.now failures.old }
    requires twice { (b : BodyOf) → b.items ≡ text.now.items.now → Holds failures.old (twice_defined b) }
    ensures opened { IfOk result (names.IsOpened (values_over text.now.params.now text.now.touched.now) text.now.items.now (record { tables = tables.entry; numbers = text.now.outer })) }
    ensures noted { OnOk result ((b : BodyOf) → b.items ≡ text.now.items.now → b.names.bound ≡ values_over text.now.params.now text.now.touched.now → IsAlike (chained tables.now text.now.outer.now) (around b.outer)
        → failures.new ≡ with_all (of_names b) failures.old) }
{
    let table = table_over(alloc, text.params, defaults, text.touched)?;
    let outer = Outer {
        tables,
        numbers: text.outer,
    };
    let opened = open_names(alloc, arena, table, text.items, closed, &outer, failures)?;
    Ok(opened)
}

/// The first of some numbers.
pub(crate) fn first_of(numbers: &[usize]) -> Option<usize>
    ensures { result ≡ slice_get numbers.now 0 }
{
    numbers.first().copied()
}

// The number of a body, and those of the bodies round it.
fn numbers_in<'s>(
    scratch: &'s Bump,
    number: usize,
    outer: &[usize],
) -> Result<&'s [usize], NoMemory>
    ensures { IfOk result (λ r. r.now ≡ number ∷ outer.now) }
{
    let mut numbers = Vec::with_capacity(scratch, outer.len().saturating_add(1))?;
    numbers.push(number)?;
    for round in outer {
        numbers.push(*round)?;
    }
    Ok(into_bump_slice(numbers))
}

// The body of a text of this number.
fn body_of<'s, 'a>(
    scratch: &'s Bump,
    number: usize,
    of: usize,
    text: &BodyText<'s, 'a>,
    opened: &Opened<'a>,
) -> Result<Body<'s, 'a>, NoMemory>
    ensures { IfOk result (IsBodyOf number of text.now opened.now) }
{
    let numbers = numbers_in(scratch, number, text.outer)?;
    Ok(Body {
        site: text.site,
        text: of,
        items: text.items,
        kind: text.kind,
        numbers,
        uptos: text.uptos,
        params: text.params,
        touched: text.touched,
        enums: opened.enums,
    })
}

impl<'s, 'a> Bodies<'s, 'a> {
    ghost use Rattle.std.specs.Prelude.{◌≡◌, ◌∷◌, ◌++◌, [], ℕ, length, map, IfOk, IfSome, OnOk, Some, slice_get};
    ghost use Rattle.rdl_base.specs.declared.fault.Fault.{Fault as AnyFault};
    ghost use Rattle.rdl_tree.specs.InOrder.{IsInOrder};
    ghost use Rattle.rdl_values.specs.Bodies.{Body as BodyOf};
    ghost use Rattle.rdl_values.specs.Instances.{Instance, body};
    ghost use Rattle.rdl_values.specs.Kept.{AreDefaultsOf};
    ghost use Rattle.rdl_values.specs.Overlaid.{AreApart, plain_of};
    ghost use Rattle.rdl_scopes.specs.Scopes.{AreOpen};
    ghost use Rattle.rdl_bodies.specs.Kept.{AreBelow, AreKept, IsTextOf, StandsIn};
    ghost use Rattle.rdl_bodies.specs.Opened.{CanOpen, IsOpened, IsText, IsTextFor};
    ghost use Rattle.rdl_bodies.specs.Sited.{AreValued, IsAt, def_at};
    ghost use Rattle.rdl_bodies.specs.Texts.{IsPlaced};
    ghost use Rattle.rdl_bodies.specs.declared.bodies.Body.{Body as OpenBody};
    ghost use Rattle.rdl_bodies.specs.declared.bodies.Site.{Site as SiteOf};

    // Puts a body behind the others.
    fn push(
        &mut self,
        table: Table<'a>,
        components: Components<'a>,
        body: Body<'s, 'a>,
    ) -> Result<(), NoMemory>
        ensures tables { OnOk result (self.new.tables.items ≡ self.old.tables.items ++ (table.entry ∷ [])) }
        ensures components { OnOk result (self.new.components.items ≡ self.old.components.items ++ (components.entry ∷ [])) }
        ensures list { OnOk result (self.new.list.items ≡ self.old.list.items ++ (body.entry ∷ [])) }
        ensures sites { self.new.sites.items ≡ self.old.sites.items }
        ensures texts { self.new.texts.items ≡ self.old.texts.items }
    {
        push_sparing(&mut self.tables, table)?;
        push_sparing(&mut self.components, components)?;
        push_sparing(&mut self.list, body)?;
        Ok(())
    }

    // Opens the body of a text of this number.
    fn add_body(
        &mut self,
        alloc: Global,
        arena: &'a Bump,
        of: usize,
        text: &BodyText<'s, 'a>,
        defaults: &Rc<Defaults<'a>>,
        failures: &mut Failures,
    ) -> Result<usize, NoMemory>
        requires kept { AreKept self.old failures.old }
        requires known { IsTextOf self.old.list.items self.old.texts.items of text.now.outer.now text.now.items.now text.now.params.now }
        requires defaults { AreDefaultsOf defaults.now.value text.now.params.now }
        requires apart { AreApart (plain_of text.now.params.now) }
        requires valued { AreValued text.now.params.now text.now.touched.now }
        requires in_order { IsInOrder text.now.items.now }
        requires below { AreBelow (length self.old.tables.items) text.now.outer.now }
        requires of_site { IsTextFor self.old text.now text.now.site }
        requires some { (b : BodyOf) × IsText self.old text.now b }
        ensures number { IfOk result (λ k. k ≡ length self.old.tables.items) }
        ensures opened { IfOk result (λ k. (b : BodyOf) → IsText self.old text.now b → IsOpened self.old self.new failures.old failures.new k b) }
    {
        let closed = &self.texts[of].closed;
        let opened = names_of(alloc, arena, &self.tables, text, defaults, closed, failures)?;
        let number = self.tables.len();
        let body = body_of(self.scratch, number, of, text, &opened)?;
        let components = self.texts[of].components.again()?;
        self.push(opened.table, components, body)?;
        Ok(number)
    }

    // Opens the body of the text at a place.
    pub(crate) fn add(
        &mut self,
        alloc: Global,
        arena: &'a Bump,
        place: Option<TextPlace>,
        text: &BodyText<'s, 'a>,
        defaults: &Rc<Defaults<'a>>,
        failures: &mut Failures,
    ) -> Result<usize, NoMemory>
        requires kept { AreKept self.old failures.old }
        requires placed { IsPlaced self.old place text.now.items.now text.now.params.now }
        requires stands { StandsIn self.old.list.items text.now.outer.now place }
        requires defaults { AreDefaultsOf defaults.now.value text.now.params.now }
        requires apart { AreApart (plain_of text.now.params.now) }
        requires valued { AreValued text.now.params.now text.now.touched.now }
        requires in_order { IsInOrder text.now.items.now }
        requires below { AreBelow (length self.old.tables.items) text.now.outer.now }
        requires of_site { IsTextFor self.old text.now text.now.site }
        requires some { (b : BodyOf) × IsText self.old text.now b }
        ensures number { IfOk result (λ k. k ≡ length self.old.tables.items) }
        ensures opened { IfOk result (λ k. (b : BodyOf) → IsText self.old text.now b → IsOpened self.old self.new failures.old failures.new k b) }
    {
        let of = self.text_at(alloc, arena, place, text.items, text.params, failures)?;
        self.add_body(alloc, arena, of, text, defaults, failures)
    }

    // The body that is open for a site, if there is one.
    fn find_open(&self, site: usize) -> Option<usize>
        ensures { IfSome result (λ k. (x : OpenBody) × (slice_get self.now.list.items k ≡ Some x) × (x.site ≡ Some site)) }
    {
        let number = self.opened.get(site).copied()?;
        match self.list.get(number) {
            Some(body) if body.site == Some(site) => Some(number),
            _ => None,
        }
    }

    // Notes which body to try for a site.
    fn note_open(&mut self, site: usize, number: usize) -> Result<(), NoMemory>
        ensures tables { self.new.tables ≡ self.old.tables }
        ensures components { self.new.components ≡ self.old.components }
        ensures list { self.new.list ≡ self.old.list }
        ensures sites { self.new.sites ≡ self.old.sites }
        ensures texts { self.new.texts ≡ self.old.texts }
    {
        if self.opened.len() <= site {
            self.opened.resize(site.saturating_add(1), 0)?;
        }
        if let Some(place) = self.opened.get_mut(site) {
            *place = number;
        }
        Ok(())
    }

    // What the parameters of a site's definition have at all uses.
    fn defaults_for(&self, alloc: Global, of: &Site<'_, 'a>) -> Result<Rc<Defaults<'a>>, NoMemory>
        requires open { AreOpen self.now.components.items }
        requires defined { def_at self.now.components.items of.now.outer.now of.now.uptos.now ≡ Some of.now.def.now }
        ensures { IfOk result (λ d. AreDefaultsOf d.value of.now.def.now.params.now) }
    {
        let found = Found {
            level: 0,
            position: first_of(of.uptos).unwrap_or(0),
            def: of.def,
        };
        defaults_of(alloc, &self.components, of.outer, &found)
    }

    /// The body of a site, which is opened where it isn't yet. The failures of its names are put in: E2, and those of its
    /// enumerations. Enumerations that are the same in all bodies of a text are judged with the first.
    pub fn open(
        &mut self,
        alloc: Global,
        arena: &'a Bump,
        site: usize,
        failures: &mut Failures,
    ) -> Result<usize, NoMemory>
        requires kept { AreKept self.old failures.old }
        requires some { CanOpen self.old site }
        ensures { IfOk result (λ k. (s : SiteOf) (n : Instance) → slice_get self.old.sites.items site ≡ Some s → IsAt self.old s n.closure n.bound → IsOpened self.old self.new failures.old failures.new k (body n)) }
    {
        if let Some(number) = self.find_open(site) {
            return Ok(number);
        }
        let Some(of) = self.site(site) else {
            return Ok(0);
        };
        let text = BodyText {
            site: Some(site),
            items: of.def.items,
            kind: Some(of.def.kind),
            outer: of.outer,
            uptos: of.uptos,
            params: of.def.params,
            touched: of.touched,
        };
        let defaults = self.defaults_for(alloc, &of)?;
        let place = self.text_place(of.outer, of.uptos);
        let number = self.add(alloc, arena, place, &text, &defaults, failures)?;
        self.note_open(site, number)?;
        Ok(number)
    }
}
