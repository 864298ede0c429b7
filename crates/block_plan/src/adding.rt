//! Items that are wanted, with those that fields and items refer to.

ghost use Rattle.std.specs.Prelude.{◌≡◌, [], ◌∷◌, if◌then◌else◌, None};
ghost use Rattle.std.specs.Option.{option_map_or};
ghost use Rattle.rb_model.specs.Kept.{of_field};
ghost use Rattle.rb_model.specs.References.{amount_refs, class_refs, count_refs, feed_refs, gate_refs, level_refs, mask_refs, part_refs, refs};
ghost use Rattle.block_plan.specs.Plan.{IsPlanOf};
ghost use Rattle.block_plan.specs.Needs.{hardware_refs, limit_refs, limits_refs, line_item, listed, member_refs};
ghost use Rattle.block_plan.specs.Wanted.{Adds};

use crate::lines::{has_line, line_mask, members_in};
use crate::plan::Plan;
use crate::table::item_place;
use rb_model::{Amount, Block, Class, Count, Feed, Field, Gate, Level, Mask, Part, RefItem};

/// The item that a feed refers to.
fn feed_item(from: Feed) -> Option<RefItem>
    ensures { listed result ≡ feed_refs from }
{
    match from {
        Feed::Off => None,
        Feed::Pin => None,
        Feed::Item(item) => Some(item),
    }
}

/// The item that a gate refers to.
pub(crate) fn gate_item(gate: Gate) -> Option<RefItem>
    ensures { listed result ≡ gate_refs gate }
{
    match gate {
        Gate::Always => None,
        Gate::High(from) => feed_item(from),
        Gate::Low(from) => feed_item(from),
    }
}

/// The item that a mask refers to.
fn mask_item(mask: Mask) -> Option<RefItem>
    ensures { listed result ≡ mask_refs mask }
{
    match mask {
        Mask::Off => None,
        Mask::Enable(item) => Some(item),
        Mask::Mask(item) => Some(item),
    }
}

/// The item that a level refers to.
fn level_item(level: Level) -> Option<RefItem>
    ensures { listed result ≡ level_refs level }
{
    match level {
        Level::Number(_) => None,
        Level::Item(item) => Some(item),
    }
}

/// The item that a limit refers to, if there is one.
fn limit_item(limit: Option<Level>) -> Option<RefItem>
    ensures { listed result ≡ limit_refs limit }
{
    match limit {
        Some(level) => level_item(level),
        None => None,
    }
}

/// The item that an amount refers to.
fn amount_item(amount: Amount) -> Option<RefItem>
    ensures { listed result ≡ amount_refs amount }
{
    match amount {
        Amount::Number(_) => None,
        Amount::Item(item) => Some(item),
        Amount::Pin(_) => None,
    }
}

/// The item that the value of a field refers to.
fn source_item(field: &Field) -> Option<RefItem>
    ensures { listed result ≡ class_refs field.now.class field.now.source }
{
    match field.class {
        Class::Storage => None,
        Class::Wire => feed_item(field.source),
        Class::Constant => None,
    }
}

/// The counter of the field of a number.
fn count_of(block: &Block, number: u32) -> Option<Count>
    ensures { result ≡ of_field block.now number None (λ f. f.count) }
{
    match block.fields.items.get(number as usize) {
        Some(field) => field.count,
        None => None,
    }
}

/// The item that the value of the field of a number refers to.
fn value_item(block: &Block, number: u32) -> Option<RefItem>
    ensures { listed result ≡ of_field block.now number [] (λ f. class_refs f.class f.source) }
{
    match block.fields.items.get(number as usize) {
        Some(field) => source_item(field),
        None => None,
    }
}

/// The item that a threshold of the field of a number refers to, the upper or the lower one.
fn threshold_item(block: &Block, number: u32, upper: bool) -> Option<RefItem>
    ensures { listed result ≡ of_field block.now number [] (λ f. option_map_or (λ c. level_refs (if upper then c.above else c.below)) f.count []) }
{
    match count_of(block, number) {
        Some(count) => level_item(if upper { count.above } else { count.below }),
        None => None,
    }
}

/// Wants an item, if there is one.
pub(crate) fn want(wanted: &mut [bool], item: Option<RefItem>)
    ensures { Adds wanted.old wanted.new (listed item) }
{
    if let Some(item) = item {
        let place = item_place(item);
        if place < wanted.len() {
            wanted[place] = true;
        }
    }
}

/// Wants what a direction of a counter refers to.
fn want_part(wanted: &mut [bool], part: Option<Part>)
    ensures { Adds wanted.old wanted.new (part_refs part) }
{
    if let Some(part) = part {
        want(wanted, feed_item(part.pulse));
        want(wanted, amount_item(part.amount));
    }
}

/// Wants what both directions of a counter refer to.
fn want_count(wanted: &mut [bool], count: Option<Count>)
    ensures { Adds wanted.old wanted.new (count_refs count) }
{
    if let Some(count) = count {
        want_part(wanted, count.up);
        want_part(wanted, count.down);
    }
}

/// Wants the levels at which a counter saturates.
fn want_limits(wanted: &mut [bool], count: Option<Count>)
    ensures { Adds wanted.old wanted.new (limits_refs count) }
{
    if let Some(count) = count {
        want(wanted, limit_item(count.high));
        want(wanted, limit_item(count.low));
    }
}

/// Wants what hardware's steps on a field refer to.
pub(crate) fn want_hardware(wanted: &mut [bool], field: &Field)
    ensures { Adds wanted.old wanted.new (hardware_refs field.now) }
{
    want(wanted, feed_item(field.source));
    want(wanted, gate_item(field.gate));
    want_count(wanted, field.count);
    want_limits(wanted, field.count);
    want(wanted, feed_item(field.set));
    want(wanted, feed_item(field.clear));
    want(wanted, mask_item(field.keep));
}

/// Wants an interrupt and its mask for its register's line, if it counts for it.
fn want_member(wanted: &mut [bool], number: u32, field: &Field, halt: bool)
    ensures { Adds wanted.old wanted.new (member_refs halt (number, field.now)) }
{
    if !has_line(halt, field) {
        return;
    }
    want(wanted, Some(RefItem::Field(number)));
    want(wanted, mask_item(line_mask(halt, field)));
}

/// Wants the interrupt of a number for its register's line.
fn want_numbered(wanted: &mut [bool], block: &Block, number: u32, halt: bool)
    ensures { Adds wanted.old wanted.new (of_field block.now number [] (λ f. member_refs halt (number, f))) }
{
    match block.fields.items.get(number as usize) {
        Some(field) => want_member(wanted, number, field, halt),
        None => {}
    }
}

/// Wants what a line of a register refers to.
fn want_members(wanted: &mut [bool], block: &Block, plan: &Plan, reg: u32, halt: bool)
    requires planned { IsPlanOf block.now plan.now }
    ensures { Adds wanted.old wanted.new (refs block.now (line_item halt reg)) }
{
    for number in members_in(plan, reg) {
        want_numbered(wanted, block, *number, halt);
    }
}

/// Wants what an item refers to.
pub(crate) fn want_refs(wanted: &mut [bool], block: &Block, plan: &Plan, item: RefItem)
    requires planned { IsPlanOf block.now plan.now }
    ensures { Adds wanted.old wanted.new (refs block.now item) }
{
    match item {
        RefItem::Field(number) => want(wanted, value_item(block, number)),
        RefItem::Signal(_) | RefItem::SwMod(_) | RefItem::SwAcc(_) => {}
        RefItem::Anded(number) | RefItem::Ored(number) | RefItem::Xored(number) => {
            want(wanted, Some(RefItem::Field(number)));
        }
        RefItem::IncrThreshold(number) => {
            want(wanted, Some(RefItem::Field(number)));
            want(wanted, threshold_item(block, number, true));
        }
        RefItem::DecrThreshold(number) => {
            want(wanted, Some(RefItem::Field(number)));
            want(wanted, threshold_item(block, number, false));
        }
        RefItem::Overflow(number) | RefItem::Underflow(number) => {
            want_count(wanted, count_of(block, number));
        }
        RefItem::Intr(reg) => want_members(wanted, block, plan, reg, false),
        RefItem::Halt(reg) => want_members(wanted, block, plan, reg, true),
    }
}
