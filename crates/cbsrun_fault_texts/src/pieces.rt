//! Pieces of which explanations are put together, beside those that a page has.

use cbsrun_faults::Spot;
use cbsrun_refusal_texts::Page;

/// What a tab is shown as.
const TAB: &str = "    ";

/// Appends a part of a line of a file, with each tab as blanks.
pub(crate) fn append_part(page: &mut Page, part: &str) {
    for (place, piece) in part.split('\t').enumerate() {
        page.push(if place > 0 { TAB } else { "" });
        page.push_printable(piece);
    }
}

/// Appends words one after another, each between two marks, with the word `last` before the last one.
pub(crate) fn append_list(page: &mut Page, words: &[&str], mark: &str, last: &str) {
    for (place, word) in words.iter().enumerate() {
        let separator = match place {
            0 => "",
            _ if place + 1 == words.len() => last,
            _ => ", ",
        };
        page.push_all(&[separator, mark]);
        page.push_printable(word);
        page.push(mark);
    }
}

/// Appends the end of a line, and the line of the place of a fault, with the number of its line if that is known.
pub(crate) fn append_spot_at(page: &mut Page, spot: &Spot<'_>, number: Option<usize>) {
    let Some(number) = number else {
        return page.push_spot(spot);
    };
    let place = spot.place;
    let label = spot.label(page.alloc());
    let Some(label) = page.accept(label) else {
        return;
    };
    page.push("\n  --> ");
    page.push_printable(spot.document.name);
    write!(page, ":{number}: {place}");
    page.push_all(&[&label, "\n"]);
}
