//! The times of a load file that are no whole number of ticks, in the order of the file. The only error of each call is out
//! of memory.

ghost use Rattle.std.specs.Prelude.{◌≡◌, ◌++◌, flat_map, map, IfOk, OnOk};
ghost use Rattle.toml.specs.View.{view, table_view};
ghost use Rattle.cbsrun_toml_tables.specs.Fields.{items_at};
ghost use Rattle.cbsrun_roundings.specs.Roundings.{at_key, in_entry, in_text, in_value, of_entries, of_entry, of_source, of_table, owner_at, place_view, rounded_to, rounded_view, roundings_of};

use crate::place::{Kind, Place};
use crate::rounded::Rounded;
use cbsrun_times::{Rounding, ticks_of};
use cbsrun_toml_tables::{items, items_at, members, optional, text, text_at};
use std::alloc::{AllocError, Global};
use toml::{Table, Value};

/// Returns the number of ticks as which a text is taken, if it tells a time that is no whole number of ticks of so many
/// nanoseconds, or else `None`.
fn rounded_to(tick: u64, rounding: Rounding, text: &str) -> Option<u64>
    ensures { result ≡ rounded_to tick rounding text.now }
{
    match ticks_of(tick, Rounding::Whole, text) {
        Some(_) => None,
        None => ticks_of(tick, rounding, text),
    }
}

/// Adds the time that a text tells at a place, if it is rounded there.
#[tactic(auto, unfolding(crate::specs::Roundings::in_text))]
fn add_text<'a>(
    rows: &mut Vec<Rounded<'a>>,
    tick: u64,
    place: Place<'a>,
    text: &'a str,
) -> Result<(), AllocError>
    ensures { OnOk result (map rounded_view rows.new.items ≡ map rounded_view rows.old.items
        ++ in_text tick (place_view place.entry) text.now) }
{
    let Some(ticks) = rounded_to(tick, place.rounding, text) else {
        return Ok(());
    };
    rows.push(Rounded {
        owner: place.owner,
        key: place.key,
        text,
        ticks,
    })?;
    Ok(())
}

/// Adds the time that a value tells at a place, if it is a text, and if the time is rounded there.
fn add_entry<'a>(
    rows: &mut Vec<Rounded<'a>>,
    tick: u64,
    place: Place<'a>,
    value: &'a Value,
) -> Result<(), AllocError>
    ensures { OnOk result (map rounded_view rows.new.items ≡ map rounded_view rows.old.items
        ++ in_entry tick (place_view place.entry) (view value.now)) }
{
    match text(value) {
        Ok(text) => add_text(rows, tick, place, text),
        Err(_) => Ok(()),
    }
}

/// Adds the times that these values tell at a place, if they are texts, and if the times are rounded there.
fn add_all<'a>(
    rows: &mut Vec<Rounded<'a>>,
    tick: u64,
    place: Place<'a>,
    values: &'a [Value],
) -> Result<(), AllocError>
    ensures { OnOk result (map rounded_view rows.new.items ≡ map rounded_view rows.old.items
        ++ flat_map (in_entry tick (place_view place.entry)) (map view values.now)) }
{
    for value in values {
        add_entry(rows, tick, place, value)?;
    }
    Ok(())
}

/// Adds the times of a value at a place that are rounded there: of a text, or of each text of an array.
fn add_value<'a>(
    rows: &mut Vec<Rounded<'a>>,
    tick: u64,
    place: Place<'a>,
    value: &'a Value,
) -> Result<(), AllocError>
    ensures { OnOk result (map rounded_view rows.new.items ≡ map rounded_view rows.old.items
        ++ in_value tick (place_view place.entry) (view value.now)) }
{
    match items(value) {
        Ok(values) => add_all(rows, tick, place, values),
        Err(_) => add_entry(rows, tick, place, value),
    }
}

/// Adds the times at a place of a table that are rounded there.
#[tactic(auto, unfolding(crate::specs::Roundings::at_place))]
fn add_at<'a>(
    rows: &mut Vec<Rounded<'a>>,
    tick: u64,
    table: &'a Table,
    owner: &'a str,
    key: &'a str,
    rounding: Rounding,
) -> Result<(), AllocError>
    ensures { OnOk result (map rounded_view rows.new.items ≡ map rounded_view rows.old.items
        ++ at_key tick (table_view table.now) owner.now key.now rounding) }
{
    let place = Place {
        owner,
        key,
        rounding,
    };
    match optional(table, key) {
        Some(value) => add_value(rows, tick, place, value),
        None => Ok(()),
    }
}

/// Returns the text at a key, or nothing if there is none.
fn owner_at<'a>(table: &'a Table, key: &str) -> &'a str
    ensures { result.now ≡ owner_at key.now (table_view table.now) }
{
    match text_at(table, key) {
        Ok(text) => text,
        Err(_) => "",
    }
}

/// Adds the times of a source that are rounded, for the server of this name.
#[tactic(auto, unfolding(crate::specs::Roundings::of_source))]
fn add_source<'a>(
    rows: &mut Vec<Rounded<'a>>,
    tick: u64,
    table: &'a Table,
    name: &'a str,
) -> Result<(), AllocError>
    ensures { OnOk result (map rounded_view rows.new.items ≡ map rounded_view rows.old.items
        ++ of_source tick (table_view table.now) name.now) }
{
    add_at(rows, tick, table, name, "first", Rounding::Down)?;
    add_at(rows, tick, table, name, "every", Rounding::Down)?;
    add_at(rows, tick, table, name, "at", Rounding::Down)?;
    add_at(rows, tick, table, name, "units", Rounding::Up)?;
    add_at(rows, tick, table, name, "within", Rounding::Down)?;
    add_at(rows, tick, table, name, "overrun", Rounding::Up)?;
    add_at(rows, tick, table, name, "jitter", Rounding::Up)
}

/// Adds the times of a table of this kind that are rounded.
#[tactic(auto, unfolding(crate::specs::Roundings::of_server))]
fn add_table<'a>(
    rows: &mut Vec<Rounded<'a>>,
    tick: u64,
    kind: Kind,
    table: &'a Table,
) -> Result<(), AllocError>
    ensures { OnOk result (map rounded_view rows.new.items ≡ map rounded_view rows.old.items
        ++ of_table kind tick (table_view table.now)) }
{
    match kind {
        Kind::Server => add_at(
            rows,
            tick,
            table,
            owner_at(table, "name"),
            "budget",
            Rounding::Up,
        ),
        Kind::Source => add_source(rows, tick, table, owner_at(table, "server")),
    }
}

/// Adds the times of a value that are rounded, if it is a table of this kind.
fn add_table_of<'a>(
    rows: &mut Vec<Rounded<'a>>,
    tick: u64,
    kind: Kind,
    value: &'a Value,
) -> Result<(), AllocError>
    ensures { OnOk result (map rounded_view rows.new.items ≡ map rounded_view rows.old.items
        ++ of_entry kind tick (view value.now)) }
{
    match members(value) {
        Ok(table) => add_table(rows, tick, kind, table),
        Err(_) => Ok(()),
    }
}

/// Adds the times of all these tables of one kind that are rounded.
fn add_tables<'a>(
    rows: &mut Vec<Rounded<'a>>,
    tick: u64,
    kind: Kind,
    values: &'a [Value],
) -> Result<(), AllocError>
    ensures { OnOk result (map rounded_view rows.new.items ≡ map rounded_view rows.old.items
        ++ flat_map (of_entry kind tick) (map view values.now)) }
{
    for value in values {
        add_table_of(rows, tick, kind, value)?;
    }
    Ok(())
}

/// Adds the times of the tables at a key that are rounded, if there is an array.
fn add_entries<'a>(
    rows: &mut Vec<Rounded<'a>>,
    tick: u64,
    kind: Kind,
    table: &'a Table,
    key: &str,
) -> Result<(), AllocError>
    ensures { OnOk result (map rounded_view rows.new.items ≡ map rounded_view rows.old.items
        ++ of_entries kind tick (items_at key.now (table_view table.now))) }
{
    match items_at(table, key) {
        Ok(values) => add_tables(rows, tick, kind, values),
        Err(_) => Ok(()),
    }
}

/// Returns the times of a load that are no whole number of ticks, by its top table, in the order of the file: of the end, of
/// the servers, and of the sources. `tick` is the length of a tick in nanoseconds.
///
/// A period is whole, so it is none of them. A table of a load with a fault has those that can be read. The only error is
/// out of memory.
#[tactic(auto, unfolding(crate::specs::Roundings::roundings_of))]
pub(crate) fn roundings_of<'a>(
    alloc: Global,
    tick: u64,
    table: &'a Table,
) -> Result<Vec<Rounded<'a>>, AllocError>
    ensures { IfOk result (λ rows. map rounded_view rows.items
        ≡ roundings_of tick (table_view table.now)) }
{
    let mut rows = Vec::new(alloc);
    add_at(&mut rows, tick, table, "top", "until", Rounding::Up)?;
    add_entries(&mut rows, tick, Kind::Server, table, "server")?;
    add_entries(&mut rows, tick, Kind::Source, table, "source")?;
    Ok(rows)
}
