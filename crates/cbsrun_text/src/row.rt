//! Rows of cells.

ghost use Rattle.std.specs.Prelude.{◌≡◌, ◌++◌, IfOk, OnOk, map};
ghost use Rattle.cbsrun_text.specs.Columns.{CellText, plain};

use crate::cell::Cell;
use std::alloc::{AllocError, Global};

/// What a cell of a table can show.
pub trait ToCell: Copy {
    // The cell that shows it.
    ghost shown: { Self → CellText };

    /// Returns the cell. The only error is out of memory.
    fn to_cell(self, alloc: Global) -> Result<Cell, AllocError>
        ensures { IfOk result (λ cell. cell ≡ shown self) };
}

impl ToCell for &str {
    ghost shown = { λ word. plain word.now };

    fn to_cell(self, alloc: Global) -> Result<Cell, AllocError> {
        Ok(Cell::new(String::from_str(alloc, self)?))
    }
}

/// Adds cells that show this to a row. The only error is out of memory.
pub fn add_cells<S: ToCell>(
    alloc: Global,
    row: &mut Vec<Cell>,
    shown: &[S],
) -> Result<(), AllocError>
    ensures { OnOk result (row.new.items ≡ row.old.items ++ map S.shown shown.now) }
{
    for &one in shown {
        row.push(one.to_cell(alloc)?)?;
    }
    Ok(())
}

/// Returns a row of cells that show this. The only error is out of memory.
pub fn cells<S: ToCell>(alloc: Global, shown: &[S]) -> Result<Vec<Cell>, AllocError>
    ensures { IfOk result (λ row. row.items ≡ map S.shown shown.now) }
{
    let mut row = Vec::with_capacity(alloc, shown.len())?;
    add_cells(alloc, &mut row, shown)?;
    Ok(row)
}
