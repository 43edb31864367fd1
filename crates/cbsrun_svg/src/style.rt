//! The style sheet and the legends.

/// The style sheet, and the pattern of throttled ticks.
pub(crate) const STYLE: &str = r##"<style>
.page{fill:#fff}
text{fill:#1b1f24;font-family:system-ui,"Segoe UI","Helvetica Neue",Arial,sans-serif;font-size:1200px}
.h{font-size:1700px;font-weight:600}
.n{font-size:1300px;font-weight:600}
.k{font-weight:600}
.m{fill:#59626d;font-size:1100px}
.r,.u{text-anchor:end}
.c{text-anchor:middle}
.grid{stroke:#1b1f24;stroke-opacity:.13;stroke-width:60;fill:none}
.axis{stroke:#1b1f24;stroke-width:100;fill:none}
.line{stroke:#1b1f24;stroke-opacity:.55;stroke-width:60;fill:none}
.wait{fill:#1b1f24;fill-opacity:.11}
.hatch{fill:url(#hatch)}
.hatchline{stroke:#1b1f24;stroke-opacity:.62;stroke-width:90}
.s0{fill:#0072b2}.s1{fill:#56b4e9}
.t0{fill:#007a5a}.t1{fill:#53bd99}
.j{font-size:1000px;text-anchor:middle;fill:#000}
.s0+.j,.t0+.j{fill:#fff}
.charged{fill:#fff;stroke:#1b1f24;stroke-width:120;stroke-dasharray:240 160}
.mark{stroke:#1b1f24;fill:none}
.edge{stroke:none;fill:none}
.late{fill:#d55e00}
.fee{fill:#8b95a1}
.band{fill:#d55e00;stroke:#d55e00;stroke-width:50}
.no{stroke:#d55e00;fill:none}
.budget{fill:#e69f00;fill-opacity:.28;stroke:#a06c00;stroke-width:70}
.idle{fill:#1b1f24;fill-opacity:.28}
@media (prefers-color-scheme:dark){
.page{fill:#14181d}
text{fill:#e8ebee}.m{fill:#a3adb8}
.grid,.axis,.line,.mark,.hatchline,.charged{stroke:#e8ebee}
.charged{fill:#14181d}
.edge{stroke:#14181d}
.grid{stroke-opacity:.16}
.wait{fill:#e8ebee;fill-opacity:.15}
.s0{fill:#2f8fd0}.s1{fill:#9ad4f5}
.t0{fill:#1fa77f}.t1{fill:#8fdcc3}
.s0+.j,.t0+.j{fill:#000}
.late{fill:#ff7f2a}.no{stroke:#ff7f2a}
.fee{fill:#626c77}
.band{fill:#ff7f2a;stroke:#ff7f2a}
.budget{stroke:#e6b34d}
.idle{fill:#e8ebee;fill-opacity:.35}
}
</style>
<pattern id="hatch" width="500" height="500" patternUnits="userSpaceOnUse" patternTransform="rotate(45)"><path class="hatchline" d="M0 0v500"/></pattern>
"##;

/// The legend of a picture that is drawn tick by tick.
pub(crate) const LEGEND: &str = r##"<g class="legend">
<g transform="translate(1600 7500)"><path class="s0" d="M0-700h600v1400h-600z"/><path class="s1" d="M600-700h600v1400h-600z"/><path class="t0" d="M1200-700h600v1400h-600z"/><path class="t1" d="M1800-700h600v1400h-600z"/><text class="m" x="3000" y="400">runs: soft, throttled</text></g>
<g transform="translate(16600 7500)"><path class="wait" d="M0-700h2400v1400h-2400z"/><text class="m" x="3000" y="400">has a job, waits</text></g>
<g transform="translate(29600 7500)"><path class="hatch" d="M0-700h2400v1400h-2400z"/><text class="m" x="3000" y="400">throttled</text></g>
<g transform="translate(38600 7500)"><path class="mark" stroke-width="120" d="M1800 700V-700m-300 400l300-400l300 400"/><text class="m" x="3000" y="400">job comes</text></g>
<g transform="translate(48000 7500)"><path class="no" stroke-width="160" d="M1800 700V-400M1550-650l500 500M1550-150l500-500"/><text class="m" x="3000" y="400">refused</text></g>
<g transform="translate(56200 7500)"><path class="mark" stroke-width="120" d="M1800-700V700m-300-400l300 400l300-400"/><text class="m" x="3000" y="400">deadline</text></g>
<g transform="translate(65000 7500)"><path class="mark" stroke-width="180" d="M1800-900V700"/><text class="m" x="3000" y="400">job finished</text></g>
<g transform="translate(75400 7500)"><path class="late" d="M0-200h2400v400h-2400z"/><text class="m" x="3000" y="400">late, for so long</text></g>
</g>
"##;

/// The legend of charged ticks, as boxes with an outline.
pub(crate) const CHARGED_LEGEND: &str =
    r##"<g class="legend" transform="translate(88600 7500)"><path class="charged" d="M0-700h2400v1400h-2400z"/><text class="m" x="3000" y="400">charged</text></g>
"##;

/// The legend of charged ticks, as filled boxes.
pub(crate) const CHARGED_FILL_LEGEND: &str =
    r##"<g class="legend" transform="translate(88600 7500)"><path class="fee" d="M0-700h2400v1400h-2400z"/><text class="m" x="3000" y="400">charged</text></g>
"##;

/// The legend of the course of budgets, if they are drawn.
pub(crate) const BUDGET_LEGEND: &str =
    r##"<g class="legend" transform="translate(97000 7500)"><path class="budget" d="M0 650V-650H800L1600 650V-650H2400V650z"/><text class="m" x="3000" y="400">budget c</text></g>
"##;

/// The legend of a picture that is drawn in columns.
pub(crate) const COLUMN_LEGEND: &str = r##"<g class="legend">
<g transform="translate(1600 7500)"><path class="s0" d="M0 700V300H600V-300H1200V700z"/><path class="t0" d="M1200 700V100H1800V400H2400V700z"/><text class="m" x="3000" y="400">runs (soft, throttled), in so many ticks of the column</text></g>
<g transform="translate(35600 7500)"><path class="fee" d="M0-700h2400v1400h-2400z"/><text class="m" x="3000" y="400">charged</text></g>
<g transform="translate(43800 7500)"><path class="hatch" d="M0-700h2400v1400h-2400z"/><text class="m" x="3000" y="400">throttled, with a job</text></g>
<g transform="translate(59800 7500)"><path class="wait" d="M0-700h2400v1400h-2400z"/><text class="m" x="3000" y="400">has a job, waits</text></g>
<g transform="translate(72800 7500)"><path class="band" d="M0-700h2400v300h-2400z"/><text class="m" x="3000" y="400">above: refused</text></g>
<g transform="translate(85000 7500)"><path class="band" d="M0 300h2400v400h-2400z"/><text class="m" x="3000" y="400">below: late</text></g>
</g>
"##;
