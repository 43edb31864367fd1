//! The places of the parts of a row, from its top.

ghost use Rattle.std.specs.Prelude.{◌∷◌, [], ◌&&◌, IsTrue, nat_le};
ghost use Rattle.std.specs.List.{list_all};

use crate::axis::Axis;

/// The places of the parts of a row, in hundredths of a pixel from its top.
#[derive(Clone, Copy)]
pub struct Layout {
    /// Whether there are more than eight rows.
    pub compact: bool,
    /// Whether a cell has several ticks, so that columns are drawn.
    pub dense: bool,
    /// Whether budgets are drawn.
    pub budgets: bool,
    /// Where the arrows of arrivals end.
    pub top: u64,
    /// Where the bars begin.
    pub bar: u64,
    /// The height of a bar.
    pub height: u64,
    /// The height of the lane for late jobs.
    pub lane: u64,
    /// Where the line of the row is.
    pub line: u64,
    /// Where the arrows of deadlines end.
    pub tip: u64,
    /// The height of a row.
    pub row: u64,
    ghost within: { IsTrue (nat_le 500 bar && nat_le 200 height
        && list_all (λ y. nat_le y 10000) (top ∷ bar ∷ height ∷ lane ∷ line ∷ tip ∷ row ∷ [])) },
}

/// The layout of up to eight servers, without budgets.
const ROOMY: Layout = Layout {
    compact: false,
    dense: false,
    budgets: false,
    top: 300,
    bar: 1400,
    height: 1800,
    lane: 400,
    line: 3600,
    tip: 4700,
    row: 6100,
};

/// The layout of up to eight servers, with budgets.
const WITH_BUDGETS: Layout = Layout {
    compact: false,
    dense: false,
    budgets: true,
    top: 300,
    bar: 1400,
    height: 1800,
    lane: 400,
    line: 3600,
    tip: 4700,
    row: 7700,
};

/// The layout of up to eight servers that are drawn in columns.
const ROOMY_COLUMNS: Layout = Layout {
    compact: false,
    dense: true,
    budgets: false,
    top: 300,
    bar: 1400,
    height: 2900,
    lane: 400,
    line: 4700,
    tip: 4700,
    row: 6100,
};

/// The layout of more than eight servers.
const COMPACT: Layout = Layout {
    compact: true,
    dense: false,
    budgets: false,
    top: 100,
    bar: 600,
    height: 900,
    lane: 200,
    line: 1700,
    tip: 2200,
    row: 2600,
};

/// The layout of more than eight servers that are drawn in columns.
const COMPACT_COLUMNS: Layout = Layout {
    compact: true,
    dense: true,
    budgets: false,
    top: 100,
    bar: 600,
    height: 1400,
    lane: 200,
    line: 2200,
    tip: 2200,
    row: 2600,
};

impl Layout {
    ghost use Rattle.std.specs.Prelude.{◌≡◌};
    ghost use Rattle.cbsrun_svg_shapes.specs.Layouts.{layout_of};

    /// Returns the layout for this many servers.
    pub fn of(servers: usize, axis: &Axis) -> Layout
        ensures { result ≡ layout_of servers axis.now }
    {
        match (servers > 8, axis.cell() > 1) {
            (true, true) => COMPACT_COLUMNS,
            (true, false) => COMPACT,
            (false, true) => ROOMY_COLUMNS,
            (false, false) if axis.width() >= 250 => WITH_BUDGETS,
            (false, false) => ROOMY,
        }
    }
}
