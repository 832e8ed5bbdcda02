//! The places of a call's arguments, as its row has them.
ghost use Rattle.std.specs.Prelude.{◌≡◌, ◌≤◌, ◌-◌, ◌++◌, length, replicate, is_some, option_map, IfOk};
ghost use Rattle.sql_builtins.specs.Choices as choices;
ghost use Rattle.sql_builtins.specs.Seen.{seen};
ghost use Rattle.resolved_ast.specs.Signatures as signatures;

use sql_builtins::{Repeats, Row, Slot};
use std::alloc::{AllocError, Global};

/// The places of so many arguments, where the row takes so many.
pub fn places(alloc: Global, row: &Row, count: usize) -> Result<Option<Vec<Slot>>, AllocError>
    ensures { IfOk result (λ answer. option_map (λ slots. slots.items) answer ≡ choices.places row.now.repeats row.now.takes.now count) }
{
    let takes = row.takes;
    match row.repeats {
        Repeats::Exactly => exact_places(alloc, takes, count),
        Repeats::LastOptional => optional_places(alloc, takes, count),
        Repeats::LastRepeats => repeated_places(alloc, takes, count),
    }
}

/// All of the places.
fn exact_places(
    alloc: Global,
    takes: &[Slot],
    count: usize,
) -> Result<Option<Vec<Slot>>, AllocError>
    ensures { IfOk result (λ answer. option_map (λ slots. slots.items) answer ≡ choices.places Repeats.Exactly takes.now count) }
{
    if takes.len() == count {
        Ok(Some(Vec::from_slice(alloc, takes)?))
    } else {
        Ok(None)
    }
}

/// All of the places, or all but the last.
fn optional_places(
    alloc: Global,
    takes: &[Slot],
    count: usize,
) -> Result<Option<Vec<Slot>>, AllocError>
    ensures { IfOk result (λ answer. option_map (λ slots. slots.items) answer ≡ choices.places Repeats.LastOptional takes.now count) }
{
    if takes.len() == count {
        Ok(Some(Vec::from_slice(alloc, takes)?))
    } else if count < takes.len() && takes.len() - count == 1 {
        Ok(Some(Vec::from_slice(alloc, &takes[..count])?))
    } else {
        Ok(None)
    }
}

/// The places, of which the last stands again and again.
fn repeated_places(
    alloc: Global,
    takes: &[Slot],
    count: usize,
) -> Result<Option<Vec<Slot>>, AllocError>
    ensures { IfOk result (λ answer. option_map (λ slots. slots.items) answer ≡ choices.places Repeats.LastRepeats takes.now count) }
{
    if count < takes.len() {
        return Ok(None);
    }
    match takes.last() {
        Some(last) => Ok(Some(filled(alloc, takes, *last, count)?)),
        None => Ok(None),
    }
}

/// The slots, and then one of them again and again up to this length.
fn filled(alloc: Global, slots: &[Slot], last: Slot, count: usize) -> Result<Vec<Slot>, AllocError>
    requires { length slots.now ≤ count }
    ensures { IfOk result (λ places. places.items ≡ slots.now ++ replicate (count - length slots.now) last) }
{
    let mut places = Vec::from_slice(alloc, slots)?;
    while places.len() < count {
        places.push(last)?;
    }
    Ok(places)
}

/// The places of a row, or all of its places where it doesn't take so many arguments.
pub fn slots_of(alloc: Global, row: &Row, count: usize) -> Result<Vec<Slot>, AllocError>
    ensures { IfOk result (λ slots. slots.items ≡ signatures.slots_of (seen row.now) count) }
{
    match places(alloc, row, count)? {
        None => Vec::from_slice(alloc, row.takes),
        Some(slots) => Ok(slots),
    }
}

/// Whether a row takes so many arguments.
pub fn takes(alloc: Global, row: &Row, count: usize) -> Result<bool, AllocError>
    ensures { IfOk result (λ taken. taken ≡ is_some (choices.places row.now.repeats row.now.takes.now count)) }
{
    match places(alloc, row, count)? {
        None => Ok(false),
        Some(_) => Ok(true),
    }
}
