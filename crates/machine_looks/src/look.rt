ghost use Rattle.std.specs.Prelude.{◌≡◌, Ok, Some, IfSome, slice_get};
ghost use Rattle.flow.specs.Words.{seen_truth, seen_order, seen_sign, object_at, number_at, partner_number, seen_pair, seen_by, sees_now};
ghost use Rattle.flow.specs.declared.site.Slot.TheVariants as slot;
ghost use Rattle.cbi_base.specs.Scalars.{truth_of, sign_of};
ghost use Rattle.machine_rows.specs.Data.{data_of};

use c_store::Word;
use cbi_base::{Kind, Scalar, Seen, Trap, Want};
use flow::{Partner, Program, SiteKind, Slot};
use machine_rows::Now;
use std::cmp::Ordering;

#[inline(always)]
fn seen_order(order: Ordering) -> Seen
    ensures { result ≡ seen_order order }
{
    match order {
        Ordering::Less => Seen::First,
        Ordering::Equal => Seen::Second,
        Ordering::Greater => Seen::Third,
    }
}

/// The number in a local's first cell, where it is an `int` that is found without a search. None tells nothing.
#[inline(always)]
#[tactic(auto, using(crate::proofs::LookLemmas::local_there))]
fn local_number(now: &Now<'_>, index: u32) -> Option<i64>
    ensures { IfSome result (λ n. number_at (slot.Local index) (data_of now.now).locals (data_of now.now).objects ≡ Some n) }
{
    let object = now.locals.get(index)?;
    let word = now
        .objects
        .local_value(object, Want::Number { kind: Kind::Int })?;
    word.int()
}

/// The number in a global's first cell, where it is an `int` that is found without a search. None tells nothing.
#[inline(always)]
fn global_number(now: &Now<'_>, index: u32) -> Option<i64>
    ensures { IfSome result (λ n. number_at (slot.Global index) (data_of now.now).locals (data_of now.now).objects ≡ Some n) }
{
    let place = Word::start(u64::from(index));
    let word = now
        .objects
        .quick_load(place, Want::Number { kind: Kind::Int })?;
    word.int()
}

/// The number in a variable's first cell, where it is an `int` that is found without a search. None tells nothing.
#[inline(always)]
fn quick_number(now: &Now<'_>, slot: Slot) -> Option<i64>
    ensures { IfSome result (λ n. number_at slot (data_of now.now).locals (data_of now.now).objects ≡ Some n) }
{
    match slot {
        Slot::Local { index } => local_number(now, index),
        Slot::Global { index } => global_number(now, index),
    }
}

/// The number that a variable's new value is compared with, where it is at hand. None tells nothing.
#[inline(always)]
fn quick_partner(now: &Now<'_>, partner: &Partner) -> Option<i64>
    ensures { IfSome result (λ n. partner_number partner.now (data_of now.now).locals (data_of now.now).objects ≡ Some n) }
{
    match partner {
        Partner::Variable { slot, .. } => quick_number(now, *slot),
        Partner::Constant { value } => Some(*value),
    }
}

/// How a variable's new value stands to its partner, where both are at hand. None tells nothing.
#[inline(always)]
fn quick_pair(now: &Now<'_>, slot: Slot, partner: &Partner) -> Option<Seen>
    ensures { IfSome result (λ seen. seen_pair (number_at slot (data_of now.now).locals (data_of now.now).objects)
        (partner_number partner.now (data_of now.now).locals (data_of now.now).objects) ≡ Ok seen) }
{
    let value = quick_number(now, slot)?;
    let other = quick_partner(now, partner)?;
    Some(seen_order(value.cmp(&other)))
}

/// How a returned number stands to zero. None tells nothing.
#[inline(always)]
#[tactic(auto, using(crate::proofs::LookLemmas::sign_there))]
fn quick_sign(value: Word) -> Option<Seen>
    ensures { IfSome result (λ seen. seen_sign (sign_of value) ≡ seen) }
{
    let number = value.number_value()?;
    Some(seen_order(number.cmp(&0)))
}

/// What a site of this kind sees, where it is at hand. None tells nothing.
#[inline(always)]
fn quick_seen(now: &Now<'_>, kind: &SiteKind) -> Option<Seen>
    ensures { IfSome result (λ seen. seen_by kind.now (slice_get (data_of now.now).operands 0) (data_of now.now).locals (data_of now.now).objects
        ≡ Ok seen) }
{
    match kind {
        SiteKind::Branch { .. } => {
            let value = now.operands.peek()?;
            match seen_truth(value) {
                Ok(seen) => Some(seen),
                Err(_) => None,
            }
        }
        SiteKind::Return { .. } => quick_sign(now.operands.peek()?),
        SiteKind::Pair { slot, partner, .. } => quick_pair(now, *slot, partner),
    }
}

/// The object of a variable.
fn object_at(now: &Now<'_>, slot: Slot) -> Option<u64>
    ensures { result ≡ object_at slot (data_of now.now).locals }
{
    match slot {
        Slot::Local { index } => now.locals.get(index),
        Slot::Global { index } => Some(u64::from(index)),
    }
}

/// The number in a variable's first cell, where it holds one.
fn number_at(now: &Now<'_>, slot: Slot) -> Option<i64>
    ensures { result ≡ number_at slot (data_of now.now).locals (data_of now.now).objects }
{
    let number = object_at(now, slot)?;
    let cells = now.objects.cells(number)?;
    cells.first()?.number_value()
}

/// The number that a variable's new value is compared with, where there is one.
fn partner_number(now: &Now<'_>, partner: &Partner) -> Option<i64>
    ensures { result ≡ partner_number partner.now (data_of now.now).locals (data_of now.now).objects }
{
    match partner {
        Partner::Variable { slot, .. } => number_at(now, *slot),
        Partner::Constant { value } => Some(*value),
    }
}

/// How a variable's new value stands to its partner.
fn seen_pair(now: &Now<'_>, slot: Slot, partner: &Partner) -> Result<Seen, Trap>
    ensures { result ≡ seen_pair (number_at slot (data_of now.now).locals (data_of now.now).objects)
        (partner_number partner.now (data_of now.now).locals (data_of now.now).objects) }
{
    let value = number_at(now, slot).ok_or(Trap::Internal)?;
    match partner_number(now, partner) {
        None => Ok(Seen::Nothing),
        Some(other) => Ok(seen_order(value.cmp(&other))),
    }
}

/// Whether a condition is true.
#[inline(always)]
fn seen_truth(value: Word) -> Result<Seen, Trap>
    ensures { result ≡ seen_truth (truth_of value) }
{
    if value.truth()? {
        Ok(Seen::First)
    } else {
        Ok(Seen::Second)
    }
}

/// How a returned value stands to zero.
fn seen_sign(value: Word) -> Seen
    ensures { result ≡ seen_sign (sign_of value) }
{
    match value.scalar() {
        Scalar::Number { value, .. } => seen_order(value.cmp(&0)),
        Scalar::Place { .. } => Seen::Third,
        Scalar::Null => Seen::Second,
        Scalar::Undefined => Seen::Nothing,
    }
}

/// What a site of this kind sees.
#[inline(never)]
fn seen_by(now: &Now<'_>, kind: &SiteKind) -> Result<Seen, Trap>
    ensures { result ≡ seen_by kind.now (slice_get (data_of now.now).operands 0) (data_of now.now).locals (data_of now.now).objects }
{
    match kind {
        SiteKind::Branch { .. } => match now.operands.peek() {
            None => Err(Trap::Internal),
            Some(value) => seen_truth(value),
        },
        SiteKind::Return { .. } => match now.operands.peek() {
            None => Err(Trap::Internal),
            Some(value) => Ok(seen_sign(value)),
        },
        SiteKind::Pair { slot, partner, .. } => seen_pair(now, *slot, partner),
    }
}

/// What a site sees.
#[inline(always)]
#[tactic(auto, unfolding(flow::specs::Truths::seen_at_site))]
pub fn look(program: &Program, now: &Now<'_>, site: u32) -> Result<Seen, Trap>
    ensures { result ≡ sees_now (slice_get program.now.sites site) (data_of now.now) }
{
    match program.table().sites().get(site as usize) {
        None => Err(Trap::Internal),
        Some(site) => match quick_seen(now, &site.kind) {
            Some(seen) => Ok(seen),
            None => seen_by(now, &site.kind),
        },
    }
}
