//! The word that a misspelt word may stand for.

use crate::spot::Spot;
use cbsrun_toml_tables::optional;
use std::alloc::{AllocError, Global};
use strsim::levenshtein;
use toml::Table;

/// The greatest distance at which one word may be another, misspelt.
const FARTHEST: usize = 2;

/// The longest word that is compared, in bytes.
const LONGEST: usize = 64;

/// Returns the nearest of some words, if it is near enough. Of equally near words, returns the first. The only error is
/// out of memory.
pub fn nearest_word<'a>(
    alloc: Global,
    word: &str,
    among: &[&'a str],
) -> Result<Option<&'a str>, AllocError> {
    let mut found = None;
    let mut least = FARTHEST + 1;
    if word.len() > LONGEST {
        return Ok(None);
    }
    for candidate in among {
        let distance = levenshtein(alloc, word, candidate)?;
        if distance < least {
            least = distance;
            found = Some(*candidate);
        }
    }
    Ok(found)
}

/// Returns those keys of a kind of table that this table does not have. The only error is out of memory.
fn absent_keys(
    alloc: Global,
    spot: &Spot<'_>,
    table: &Table,
) -> Result<Vec<&'static str>, AllocError> {
    let mut absent = Vec::new(alloc);
    for key in spot.subject.keys() {
        if optional(table, key.name).is_none() {
            absent.push(key.name)?;
        }
    }
    Ok(absent)
}

/// Returns the key that may be meant by a key which the table may not have. That is the nearest of the keys which the
/// table lacks, if it is near enough. The only error is out of memory.
pub(crate) fn nearest_key(
    alloc: Global,
    spot: &Spot<'_>,
    key: &str,
) -> Result<Option<&'static str>, AllocError> {
    match spot.table {
        Some(table) => nearest_word(alloc, key, &absent_keys(alloc, spot, table)?),
        None => Ok(None),
    }
}
