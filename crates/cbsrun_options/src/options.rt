//! The options of a command, and what they ask for.

ghost use Rattle.std.specs.Prelude.{◌≡◌, codes, option_map, None, Some};
ghost use Rattle.cbsrun_options.specs.Actions.{drawing_name, form_name, listing_name, sweep_form_name};
ghost use Rattle.cbsrun_options.specs.Fits.{most_ticks};
ghost use Rattle.cbsrun_options.specs.Options.{AnswersFit, AsksChanges, AsksDrawing, AsksFor, AsksPlainly, AsksSeeds, AsksTicks, Finds, after_dot, around_dot, IsNumber, IsTick, is_for_drawings, is_given, is_report, are_enough, last_end, said, seeds_in, text_of};

use crate::actions::{
    Action, Changes, Drawing, Form, LAST_END, Listing, LoadReport, LoadSweep, MOST_RUNS, MOST_SEED,
    Seeds, SweepForm, Verb,
};
use crate::run_drawing::RunDrawing;
use cbsrun_window::{MOST_TICKS, Window, WindowError};
use std::alloc::{AllocError, Global};
use std::fmt::Write;

/// The texts of the options of a command. Those of an option that is not there, or that the command does not have, are
/// `None`.
#[derive(Clone, Copy)]
pub struct Options<'a> {
    /// The form of the output.
    pub form: Option<&'a str>,
    /// The first tick to show.
    pub from: Option<&'a str>,
    /// The tick after the last one to show.
    pub to: Option<&'a str>,
    /// The first of the names of the servers to draw.
    pub server: Option<&'a str>,
    /// The seed of a load.
    pub seed: Option<&'a str>,
    /// The tick at which the simulation of a load ends.
    pub until: Option<&'a str>,
    /// The seeds of many runs of a load.
    pub seeds: Option<&'a str>,
    /// Whether the status is to tell the answer: `true` if so.
    pub strict: Option<&'a str>,
    /// Whether each server is to get a reservation: `true` if so.
    pub all: Option<&'a str>,
}

/// Returns the tick that an option gives, or `otherwise` if the option is not there. Returns `None` if its text is no
/// whole number below 2^64.
fn tick_of(said: Option<&str>, otherwise: u64) -> Option<u64>
    ensures { Finds result (IsTick (text_of said.entry) otherwise) }
{
    match said {
        None => Some(otherwise),
        Some(text) => text.parse::<u64>().ok(),
    }
}

/// Returns how many ticks a drawing can show at a time.
fn most_ticks(drawing: Drawing) -> u64
    ensures { result ≡ most_ticks drawing }
{
    match drawing {
        Drawing::Svg | Drawing::Text => MOST_TICKS,
        Drawing::Trace => u64::MAX,
    }
}

/// Returns where the ticks of a drawing end whose first tick is `first`, if no option says so: as late as the drawing can
/// show.
fn last_end(drawing: Drawing, first: u64) -> u64
    ensures { result ≡ last_end drawing first }
{
    first.saturating_add(most_ticks(drawing))
}

/// Returns the window of the ticks from `first` up to `end`, or why a drawing cannot show them.
fn window_in(drawing: Drawing, first: u64, end: u64) -> Result<Window, WindowError>
    ensures { AnswersFit drawing first end result }
{
    match drawing {
        Drawing::Trace => Window::long(first, end),
        Drawing::Svg | Drawing::Text => Window::new(first, end),
    }
}

/// Returns the ticks that the options `--from` and `--to` ask for. Returns `None` if they ask for no ticks, or for more
/// than the drawing can show.
fn ticks_of(drawing: Drawing, from: Option<&str>, to: Option<&str>) -> Option<Window>
    ensures { Finds result (AsksTicks drawing (text_of from.entry) (text_of to.entry)) }
{
    let first = tick_of(from, 0)?;
    let end = tick_of(to, last_end(drawing, first))?;
    window_in(drawing, first, end).ok()
}

/// Returns the drawing that the options ask for in this form. Returns `None` if they ask for no ticks, or for more than the
/// drawing can show.
fn drawing_with(drawing: Drawing, from: Option<&str>, to: Option<&str>) -> Option<RunDrawing>
    ensures { Finds result (AsksDrawing (Some (drawing_name drawing)) (text_of from.entry)
        (text_of to.entry)) }
{
    let ticks = ticks_of(drawing, from, to)?;
    Some(RunDrawing {
        drawing,
        ticks,
        bounded: to.is_some(),
    })
}

/// Returns the number that an option gives, or `Some(None)` if the option is not there. Returns `None` if its text is no
/// whole number from `least` to `greatest`.
fn number_of(said: Option<&str>, least: u64, greatest: u64) -> Option<Option<u64>>
    ensures { Finds result (IsNumber least greatest (text_of said.entry)) }
{
    let Some(text) = said else {
        return Some(None);
    };
    match text.parse::<u64>() {
        Ok(number) if least <= number && number <= greatest => Some(Some(number)),
        _ => None,
    }
}

/// Returns what the options `--seed` and `--until` ask for in the place of what a load says. Returns `None` if a number
/// is out of its range.
fn changes_of(seed: Option<&str>, until: Option<&str>) -> Option<Changes>
    ensures { Finds result (AsksChanges (text_of seed.entry) (text_of until.entry)) }
{
    let seed = number_of(seed, 0, MOST_SEED)?;
    let until = number_of(until, 1, LAST_END)?;
    Some(Changes { seed, until })
}

/// Returns what stands before the first dot of a text, and what stands after it, or `None` if it has none.
fn around_dot(text: &str) -> Option<(&str, &str)>
    ensures { option_map (λ two. (two.0.now, two.1.now)) result ≡ around_dot text.now }
{
    text.split_once('.')
}

/// Returns what stands after the dot that a text begins with, or `None` if it begins with none.
fn after_dot(text: &str) -> Option<&str>
    ensures { option_map (λ rest. rest.now) result ≡ after_dot text.now }
{
    text.strip_prefix('.')
}

/// Returns the two texts of `A..B`, or `None` if a text is none such.
fn seeds_in(text: &str) -> Option<(&str, &str)>
    ensures { option_map (λ two. (two.0.now, two.1.now)) result ≡ seeds_in text.now }
{
    let (first, rest) = around_dot(text)?;
    let last = after_dot(rest)?;
    Some((first, last))
}

/// Returns the seeds that a text asks for, as `1..1000`. Returns `None` if it asks for none, or for more than
/// [`MOST_RUNS`].
fn seeds_of(text: &str) -> Option<Seeds>
    ensures { Finds result (AsksSeeds text.now) }
{
    let (first, last) = seeds_in(text)?;
    let first = first.parse::<u64>().ok()?;
    let last = last.parse::<u64>().ok()?;
    if last > MOST_SEED || last < first || last - first >= MOST_RUNS {
        return None;
    }
    Some(Seeds { first, last })
}

/// Returns whether an option without a value is given.
fn is_given(said: Option<&str>) -> bool
    ensures { result ≡ is_given (text_of said.entry) }
{
    match said {
        Some(text) => text == "true",
        None => false,
    }
}

/// Returns the form of a report with this name, or `None` if there is none.
fn form_of(name: &str) -> Option<Form>
    ensures { Finds result (λ form. name.now ≡ form_name form) }
{
    match name {
        "report" => Some(Form::Report),
        "json" => Some(Form::Json),
        _ => None,
    }
}

/// Returns the listing with this name, or `None` if there is none.
fn listing_of(form: Option<&str>) -> Option<Listing>
    ensures { Finds result (λ listing. text_of form.entry ≡ Some (listing_name listing)) }
{
    match form {
        Some("lines") => Some(Listing::Lines),
        Some("csv") => Some(Listing::Csv),
        Some("record") => Some(Listing::Record),
        Some("tape") => Some(Listing::Tape),
        _ => None,
    }
}

/// Returns the form of what many runs tell with this name, or `None` if there is none.
fn sweep_form_of(name: &str) -> Option<SweepForm>
    ensures { Finds result (λ form. name.now ≡ sweep_form_name form) }
{
    match name {
        "report" => Some(SweepForm::Report),
        "json" => Some(SweepForm::Json),
        "csv" => Some(SweepForm::Csv),
        _ => None,
    }
}

/// Returns the drawing with this name, or `None` if there is none.
fn drawing_of(form: Option<&str>) -> Option<Drawing>
    ensures { Finds result (λ drawing. text_of form.entry ≡ Some (drawing_name drawing)) }
{
    match form {
        Some("svg") => Some(Drawing::Svg),
        Some("text") => Some(Drawing::Text),
        Some("trace") => Some(Drawing::Trace),
        _ => None,
    }
}

/// Returns whether an option is given that goes with drawings alone.
fn is_for_drawings(options: Options<'_>) -> bool
    ensures { result ≡ is_for_drawings (said options.entry) }
{
    options.from.is_some() || options.to.is_some() || options.server.is_some()
}

/// Returns the action of `simulate` with these options for this listing. Returns `None` if a number is out of its range,
/// or if the listing is to be strict.
fn listed_as(listing: Listing, options: Options<'_>) -> Option<Action>
    requires form { text_of options.form ≡ Some (listing_name listing) }
    requires once { text_of options.seeds ≡ None }
    ensures { Finds result (AsksPlainly (codes "simulate") (said options.entry)) }
{
    let changes = changes_of(options.seed, options.until)?;
    (!is_given(options.strict)).then_some(Action::ListLoad(listing, changes))
}

/// Returns the action of `simulate` with these options for a form that shows no ticks. Without a form, this is the report
/// as text. Returns `None` if no such form has this name, if a number is out of its range, or if a listing is to be strict.
fn simulated_as(options: Options<'_>) -> Option<Action>
    requires { text_of options.seeds ≡ None }
    ensures { Finds result (AsksPlainly (codes "simulate") (said options.entry)) }
{
    if let Some(listing) = listing_of(options.form) {
        return listed_as(listing, options);
    }
    let changes = changes_of(options.seed, options.until)?;
    let strict = is_given(options.strict);
    let form = match options.form {
        None => Form::Report,
        Some(name) => form_of(name)?,
    };
    Some(Action::ReportLoad(LoadReport {
        form,
        changes,
        strict,
    }))
}

/// Returns the action of `replay` with these options for a form that shows no ticks. Without a form, this is the line for
/// each step. Returns `None` if no such form has this name.
fn replayed_as(options: Options<'_>) -> Option<Action>
    ensures { Finds result (AsksPlainly (codes "replay") (said options.entry)) }
{
    match options.form {
        None | Some("lines") => Some(Action::Run(Verb::Replay)),
        Some("record") => Some(Action::RecordTasks { taped: false }),
        Some("tape") => Some(Action::RecordTasks { taped: true }),
        Some(name) => form_of(name).map(Action::ReportTasks),
    }
}

/// Returns the drawing of a load that these options ask for. Returns `None` if they ask for no ticks, if a number is out
/// of its range, or if the drawing is to be strict.
fn drawn_load(drawing: Drawing, options: Options<'_>) -> Option<Action>
    requires form { text_of options.form ≡ Some (drawing_name drawing) }
    requires once { text_of options.seeds ≡ None }
    ensures { Finds result (AsksFor (codes "simulate") (said options.entry)) }
{
    let changes = changes_of(options.seed, options.until)?;
    if is_given(options.strict) {
        return None;
    }
    let drawn = drawing_with(drawing, options.from, options.to)?;
    Some(Action::DrawLoad(drawn, changes))
}

/// Returns the action of `simulate` with these options for one run. Returns `None` if they ask for none.
fn simulated_once(options: Options<'_>) -> Option<Action>
    requires { text_of options.seeds ≡ None }
    ensures { Finds result (AsksFor (codes "simulate") (said options.entry)) }
{
    if let Some(drawing) = drawing_of(options.form) {
        return drawn_load(drawing, options);
    }
    if is_for_drawings(options) {
        return None;
    }
    simulated_as(options)
}

/// Returns the action of `simulate` with these options for many runs, with these seeds. Without a form, this is the text.
/// Returns `None` if no such form has this name, if a number is out of its range, or if one seed is given, too, or ticks to
/// show.
fn swept_as(options: Options<'_>, seeds: &str) -> Option<Action>
    requires { text_of options.seeds ≡ Some seeds.now }
    ensures { Finds result (AsksFor (codes "simulate") (said options.entry)) }
{
    if options.seed.is_some() || is_for_drawings(options) {
        return None;
    }
    let seeds = seeds_of(seeds)?;
    let changes = changes_of(options.seed, options.until)?;
    let form = match options.form {
        None => SweepForm::Report,
        Some(name) => sweep_form_of(name)?,
    };
    Some(Action::SweepLoad(LoadSweep {
        form,
        seeds,
        changes,
        strict: is_given(options.strict),
    }))
}

/// Returns the action of `simulate` with these options, or `None` if they ask for none.
fn simulated_with(options: Options<'_>) -> Option<Action>
    ensures { Finds result (AsksFor (codes "simulate") (said options.entry)) }
{
    match options.seeds {
        Some(seeds) => swept_as(options, seeds),
        None => simulated_once(options),
    }
}

/// Returns the action of `replay` with these options, or `None` if they ask for none.
fn replayed_with(options: Options<'_>) -> Option<Action>
    ensures { Finds result (AsksFor (codes "replay") (said options.entry)) }
{
    if let Some(drawing) = drawing_of(options.form) {
        let drawn = drawing_with(drawing, options.from, options.to)?;
        return Some(Action::DrawTasks(drawn));
    }
    if is_for_drawings(options) {
        return None;
    }
    replayed_as(options)
}

/// Returns the action of `check` with these options. Without a form, this is the text. Returns `None` if no such form has
/// this name.
fn checked_with(options: Options<'_>) -> Option<Action>
    ensures { Finds result (AsksFor (codes "check") (said options.entry)) }
{
    let strict = is_given(options.strict);
    let form = match options.form {
        None => Form::Report,
        Some(name) => form_of(name)?,
    };
    Some(Action::Check { form, strict })
}

/// Returns the action of the command with this name and these options, or `None` if there is none.
pub fn action_of(name: &str, options: Options<'_>) -> Option<Action>
    ensures { Finds result (AsksFor name.now (said options.entry)) }
{
    match name {
        "check" => checked_with(options),
        "size" => Some(Action::Size {
            all: is_given(options.all),
        }),
        "simulate" => simulated_with(options),
        "replay" => replayed_with(options),
        "serve" => Some(Action::Run(Verb::Serve)),
        _ => None,
    }
}

/// Appends that the text of an option is no whole number from `least` to `greatest`.
fn append_no_number(
    text: &mut String,
    option: &str,
    said: Option<&str>,
    least: u64,
    greatest: u64,
) -> Result<(), AllocError> {
    let said = said.unwrap_or("");
    writeln!(
        text,
        "error: invalid value '{said}' for '{option}'\n  [a whole number from {least} to {greatest} is wanted]"
    )
}

/// Appends that the text of an option is no tick.
fn append_no_tick(text: &mut String, option: &str, said: Option<&str>) -> Result<(), AllocError> {
    let said = said.unwrap_or("");
    writeln!(
        text,
        "error: invalid value '{said}' for '--{option} <TICK>'\n  [a whole number below 2^64 is wanted]"
    )
}

/// Appends why the two options ask for no ticks that a drawing can show.
fn append_no_ticks(
    text: &mut String,
    drawing: Drawing,
    from: Option<&str>,
    to: Option<&str>,
) -> Result<(), AllocError> {
    let Some(first) = tick_of(from, 0) else {
        return append_no_tick(text, "from", from);
    };
    let Some(end) = tick_of(to, last_end(drawing, first)) else {
        return append_no_tick(text, "to", to);
    };
    match window_in(drawing, first, end) {
        Ok(_) => Ok(()),
        Err(WindowError::Empty) => writeln!(
            text,
            "error: there is no tick from {first} up to {end}\n  [--from has to be before --to]"
        ),
        Err(WindowError::TooLong) => writeln!(
            text,
            "error: too many ticks from {first} up to {end}\n  [at most {MOST_TICKS} are shown at a time; '--as trace' has no such limit]"
        ),
    }
}

/// Returns the names of the forms of a command.
fn forms_of(verb: &str) -> &'static str {
    match verb {
        "check" => "report, json",
        "simulate" => "report, json, text, svg, trace, lines, csv, record, tape",
        _ => "lines, report, json, text, svg, trace, record, tape",
    }
}

/// Appends that no form of a command has this name.
fn append_no_form(text: &mut String, verb: &str, form: Option<&str>) -> Result<(), AllocError> {
    let form = form.unwrap_or("");
    let forms = forms_of(verb);
    writeln!(
        text,
        "error: invalid value '{form}' for '--as <FORMAT>'\n  [possible values: {forms}]"
    )
}

/// Appends why a command has no action with these options, whose numbers for a load are in their ranges.
fn append_wrong_form(
    text: &mut String,
    verb: &str,
    options: Options<'_>,
) -> Result<(), AllocError> {
    let unlimited = Options {
        from: None,
        to: None,
        server: None,
        strict: None,
        ..options
    };
    if action_of(verb, unlimited).is_none() {
        return append_no_form(text, verb, options.form);
    }
    if is_given(options.strict) {
        return writeln!(
            text,
            "error: --strict goes with '--as report' and '--as json' alone"
        );
    }
    if let Some(drawing) = drawing_of(options.form) {
        return append_no_ticks(text, drawing, options.from, options.to);
    }
    if options.from.is_none() && options.to.is_none() {
        return writeln!(
            text,
            "error: --server goes with '--as text', '--as svg' and '--as trace' alone"
        );
    }
    writeln!(
        text,
        "error: --from and --to go with '--as text', '--as svg' and '--as trace' alone"
    )
}

/// Appends why options ask for no many runs.
fn append_wrong_sweep(
    text: &mut String,
    seeds: &str,
    options: Options<'_>,
) -> Result<(), AllocError> {
    if seeds_of(seeds).is_none() {
        return writeln!(
            text,
            "error: invalid value '{seeds}' for '--seeds <FIRST..LAST>'\n  [two whole numbers from 0 to {MOST_SEED} are wanted, as 1..1000, and at most {MOST_RUNS} seeds]"
        );
    }
    if number_of(options.until, 1, LAST_END).is_none() {
        return append_no_number(text, "--until <TICK>", options.until, 1, LAST_END);
    }
    writeln!(
        text,
        "error: --seeds goes with '--as report', '--as json', '--as csv', --until and --strict alone"
    )
}

/// Returns whether the output in this form is a report, as text or as JSON. Without a form, it is the text.
fn is_report(form: Option<&str>) -> bool
    ensures { result ≡ is_report (text_of form.entry) }
{
    match form {
        None => true,
        Some(name) => name == "report" || name == "json",
    }
}

/// Returns whether there is a file, and several only if the output is a report.
pub fn are_enough(options: Options<'_>, files: usize) -> bool
    ensures { result ≡ are_enough (said options.entry) files }
{
    files == 1 || files > 1 && is_report(options.form)
}

/// Returns why several files make no request: the output can tell of one alone. The only error is out of memory.
pub fn several_files_text(alloc: Global) -> Result<String, AllocError> {
    String::from_str(
        alloc,
        "error: several files go with '--as report' and '--as json' alone\n",
    )
}

/// Returns why these options ask for no action of a command. The only error is out of memory.
pub fn wrong_options_text(
    alloc: Global,
    verb: &str,
    options: Options<'_>,
) -> Result<String, AllocError> {
    let mut text = String::new(alloc);
    if let Some(seeds) = options.seeds {
        append_wrong_sweep(&mut text, seeds, options)?;
    } else if number_of(options.seed, 0, MOST_SEED).is_none() {
        append_no_number(&mut text, "--seed <SEED>", options.seed, 0, MOST_SEED)?;
    } else if number_of(options.until, 1, LAST_END).is_none() {
        append_no_number(&mut text, "--until <TICK>", options.until, 1, LAST_END)?;
    } else {
        append_wrong_form(&mut text, verb, options)?;
    }
    Ok(text)
}
