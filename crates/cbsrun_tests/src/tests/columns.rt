//! Tables that are made by hand.

use crate::tests::same;
use cbsrun_text::{Cell, append_columns};
use std::alloc::{AllocError, Global};
use std::process::Abort;

/// Returns a row of cells. The cells with a `!` at their end are marked.
fn row(rt: &impl Abort, alloc: Global, words: &[&str]) -> Vec<Cell> {
    let mut cells = Vec::new(alloc);
    for word in words {
        let marked = word.ends_with('!');
        let text = String::from_str(alloc, word.trim_end_matches('!'))
            .ok()
            .expect(rt, "memory");
        cells
            .push(Cell::new(text).marked_if(marked))
            .ok()
            .expect(rt, "memory");
    }
    cells
}

#[test]
fn columns_are_as_wide_as_their_widest_cell(rt: HostRuntime) {
    let alloc = rt.alloc();
    let mut rows = Vec::new(alloc);
    for words in [
        &["JOBS", "released", "late", "backlog"][..],
        &["control", "40", "0", "1 of 4"],
        &["log", "24!", "10!", "4 of 4!"],
        &["all", "64"],
        &["end"],
    ] {
        rows.push(row(&rt, alloc, words)).ok().expect(&rt, "memory");
    }
    let mut text = String::new(alloc);
    append_columns(alloc, &mut text, &rows)
        .ok()
        .expect(&rt, "memory");
    same(
        &rt,
        "rows",
        text.as_str(),
        "\
JOBS     released  late  backlog
control        40     0   1 of 4
log            24!   10!  4 of 4!
all            64
end
",
    );
}

/// Returns a line with a name, and a number that is marked.
fn line(alloc: Global) -> Result<String, AllocError> {
    let name = Cell::new(String::from_str(alloc, "jobs")?);
    let number = Cell::new(12u64.to_string(alloc)?).marked_if(true);
    let row = vec![in alloc; name, number]?;
    let mut text = String::new(alloc);
    append_columns(alloc, &mut text, &vec![in alloc; row]?)?;
    Ok(text)
}

#[test]
fn the_last_cell_may_be_marked(rt: HostRuntime) {
    let text = line(rt.alloc()).ok().expect(&rt, "memory");
    same(&rt, "a row", text.as_str(), "jobs  12!\n");
}
