//! The lines of a file in which tables and their keys stand. They are known of files in a plain spelling: each key alone
//! and with no dots, and each table of an array under a header in double brackets.

use crate::broken::line_number;
use crate::spot::Spot;
use cbsrun_toml::{Room, Stop, array_header, key_equals, pairs, skip_bom, value};
use cbsrun_toml_tables::Place;
use std::alloc::{AllocError, Global};
use toml_parser::text::skip_blank;

/// How deep the values of a file may be.
const DEPTH: usize = 80;

/// The line of a key in its file.
#[derive(Clone, Copy)]
pub struct Line<'a> {
    /// Its number, from 1.
    pub number: usize,
    /// The value of the key, as it is spelt.
    pub value: &'a str,
}

/// Returns the part of a text before its end `rest`.
fn before<'a>(text: &'a str, rest: &str) -> &'a str {
    let count = text.len().saturating_sub(rest.len());
    text.get(..count).unwrap_or("")
}

/// Returns the text below the header of an array's table, of which there are `earlier` before it.
fn below_header<'a>(
    alloc: Global,
    text: &'a str,
    array: &str,
    earlier: u64,
) -> Result<&'a str, Stop> {
    let mut rest = text;
    let mut left = earlier;
    loop {
        let (_table, after) = pairs(alloc, &mut Room::new(), rest)?;
        let (key, below) = array_header(alloc, skip_blank(after, true))?;
        if key.as_str() == array {
            match left.checked_sub(1) {
                Some(fewer) => left = fewer,
                None => return Ok(below),
            }
        }
        rest = below;
    }
}

/// Returns the text from the first pair of the table at a place on.
fn table_at<'a>(alloc: Global, text: &'a str, place: Place) -> Result<&'a str, Stop> {
    match place {
        Place::Top => Ok(skip_bom(text)),
        Place::Server(number) => below_header(alloc, skip_bom(text), "server", number),
        Place::Source(number) => below_header(alloc, skip_bom(text), "source", number),
        Place::Step(number) => below_header(alloc, skip_bom(text), "step", number),
    }
}

/// Returns the line of a key among the pairs at the end `table` of a text.
fn line_among<'a>(
    alloc: Global,
    text: &'a str,
    table: &'a str,
    name: &str,
) -> Result<Line<'a>, Stop> {
    let mut room = Room::new();
    let mut rest = table;
    loop {
        let start = skip_blank(rest, true);
        let (key, at_value) = key_equals(alloc, start)?;
        let (_value, after) = value(alloc, &mut room, at_value, DEPTH)?;
        if key.path.is_empty() && key.last.as_str() == name {
            return Ok(Line {
                number: line_number(before(text, start)),
                value: before(at_value, after),
            });
        }
        rest = after;
    }
}

/// Returns what was found, or `None` if the file has no plain spelling. The only error is out of memory.
fn if_plain<T: Drop>(found: Result<T, Stop>) -> Result<Option<T>, AllocError> {
    match found {
        Ok(found) => Ok(Some(found)),
        Err(Stop::OutOfMemory) => Err(AllocError),
        Err(_) => Ok(None),
    }
}

/// Returns the line of a key of the table at a place of a text.
fn line_in<'a>(alloc: Global, text: &'a str, place: Place, name: &str) -> Result<Line<'a>, Stop> {
    let table = table_at(alloc, text, place)?;
    line_among(alloc, text, table, name)
}

/// Returns the line of a key of the table of a spot, or `None` if it is not known. The only error is out of memory.
pub fn line_of<'a>(
    alloc: Global,
    spot: &Spot<'a>,
    name: &str,
) -> Result<Option<Line<'a>>, AllocError> {
    if_plain(line_in(alloc, spot.document.text, spot.place, name))
}

/// Returns the number of the line with the header of the table of a spot, or `None` if there is none or it is not
/// known. The only error is out of memory.
pub fn header_line(alloc: Global, spot: &Spot<'_>) -> Result<Option<usize>, AllocError> {
    if spot.place == Place::Top {
        return Ok(None);
    }
    let text = spot.document.text;
    match if_plain(table_at(alloc, text, spot.place))? {
        Some(below) => Ok(Some(line_number(before(text, below)))),
        None => Ok(None),
    }
}
