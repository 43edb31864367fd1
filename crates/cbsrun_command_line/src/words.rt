//! The words of a command line, as `clap` sees them.

ghost use Rattle.std.specs.Prelude.{◌≡◌, ◌≢◌, codes, IfOk, IfErr, IsOkAnd, false, map, string_bytes};
ghost use Rattle.clap.specs.Words.{app_of, found_of, kind_of, rows_of, subcommand_rows_of};
ghost use Rattle.clap.specs.declared.builder.command.Command.TheViews.{out-Command};
ghost use Rattle.cbsrun_command_line.specs.Faults.{number_of, words_fault_number};
ghost use Rattle.cbsrun_options.specs.Options.{said};
ghost use Rattle.cbsrun_command_line.specs.Words.{command_line, checking, texts_in, said_in, simulating, sizing, replaying, on_file, on_files, in_a_form, with_changes, with_option, with_options, with_flag, with_verb, bare_program, IsAsked, Names, AreTaken, TellsOf};
ghost use Rattle.cbsrun_command_line.specs.declared.fault.WordsFault.TheVariants.{OutOfMemory};

use crate::fault::WordsFault;
use crate::texts::{
    ABOUT, ALL, CHECK, CHECKS, FILES, FROM, GUIDE, IN_TIME, PROMISED, REPLAY, REPORTS, SEED, SEEDS,
    SERVE, SERVER, SIMULATE, SIZE, TO, TRACES, UNTIL, VERSION,
};
use cbsrun_options::{
    Asked, Options, action_of, are_enough, several_files_text, wrong_options_text,
};
use clap::error::ErrorKind;
use clap::{Arg, ArgAction, ArgMatches, Command, Error};
use std::alloc::{AllocError, Global};
use std::fmt::Write;

/// Returns the verb of this name, which takes one file or several.
fn on_files<'a>(alloc: Global, name: &'a str, about: &'a str) -> Result<Command<'a>, AllocError>
    ensures app { IfOk result (λ c. app_of c ≡ on_files name.now) }
    ensures local { IfOk result (λ c. (out-Command c).has_globals ≡ false) }
{
    let files = Arg::new(alloc, "FILE")
        .help("The files; - is standard input")
        .required(true);
    Command::new(alloc, name)
        .about(about)
        .arg(files.action(ArgAction::Append))
}

/// Returns the verb of this name, which takes a file.
fn on_file<'a>(alloc: Global, name: &'a str, about: &'a str) -> Result<Command<'a>, AllocError>
    ensures app { IfOk result (λ c. app_of c ≡ on_file name.now) }
    ensures local { IfOk result (λ c. (out-Command c).has_globals ≡ false) }
{
    let file = Arg::new(alloc, "FILE")
        .help("The file; - is standard input")
        .required(true);
    Command::new(alloc, name).about(about).arg(file)
}

/// Returns a verb with one more option, whose value is called so.
fn with_option<'a>(
    alloc: Global,
    verb: Command<'a>,
    name: &'a str,
    value: &'a str,
    help: &'a str,
) -> Result<Command<'a>, AllocError>
    ensures app { IfOk result (λ c. app_of c ≡ with_option (app_of verb.entry) name.now) }
    ensures local { (out-Command verb.entry).has_globals ≡ false
        → IfOk result (λ c. (out-Command c).has_globals ≡ false) }
{
    let option = Arg::new(alloc, name).long(name).help(help);
    verb.arg(option.value_name(value))
}

/// Returns a verb with one more option, which may be given several times, and whose value is called so.
fn with_options<'a>(
    alloc: Global,
    verb: Command<'a>,
    name: &'a str,
    value: &'a str,
    help: &'a str,
) -> Result<Command<'a>, AllocError>
    ensures app { IfOk result (λ c. app_of c ≡ with_options (app_of verb.entry) name.now) }
    ensures local { (out-Command verb.entry).has_globals ≡ false
        → IfOk result (λ c. (out-Command c).has_globals ≡ false) }
{
    let option = Arg::new(alloc, name).long(name).help(help);
    verb.arg(option.value_name(value).action(ArgAction::Append))
}

/// Returns a verb with one more option, which has no value.
fn with_flag<'a>(
    alloc: Global,
    verb: Command<'a>,
    name: &'a str,
    help: &'a str,
) -> Result<Command<'a>, AllocError>
    ensures app { IfOk result (λ c. app_of c ≡ with_flag (app_of verb.entry) name.now) }
    ensures local { (out-Command verb.entry).has_globals ≡ false
        → IfOk result (λ c. (out-Command c).has_globals ≡ false) }
{
    let option = Arg::new(alloc, name).long(name).help(help);
    verb.arg(option.action(ArgAction::SetTrue))
}

/// Returns a verb that also takes the form of its output, the ticks to show, and the servers to draw.
fn in_a_form<'a>(
    alloc: Global,
    verb: Command<'a>,
    forms: &'a str,
) -> Result<Command<'a>, AllocError>
    requires { (out-Command verb).has_globals ≡ false }
    ensures app { IfOk result (λ c. app_of c ≡ in_a_form (app_of verb.entry)) }
    ensures local { IfOk result (λ c. (out-Command c).has_globals ≡ false) }
{
    let verb = with_option(alloc, verb, "as", "FORMAT", forms)?;
    let verb = with_option(alloc, verb, "from", "TICK", FROM)?;
    let verb = with_option(alloc, verb, "to", "TICK", TO)?;
    with_options(alloc, verb, "server", "NAME", SERVER)
}

/// Returns the verb that checks files.
fn checking<'a>(alloc: Global) -> Result<Command<'a>, AllocError>
    ensures app { IfOk result (λ c. app_of c ≡ checking) }
    ensures local { IfOk result (λ c. (out-Command c).has_globals ≡ false) }
{
    let verb = on_files(alloc, "check", CHECK)?;
    let verb = with_option(alloc, verb, "as", "FORMAT", CHECKS)?;
    with_flag(alloc, verb, "strict", PROMISED)
}

/// Returns the verb that sizes a sketch.
fn sizing<'a>(alloc: Global) -> Result<Command<'a>, AllocError>
    ensures app { IfOk result (λ c. app_of c ≡ sizing) }
    ensures local { IfOk result (λ c. (out-Command c).has_globals ≡ false) }
{
    let verb = on_file(alloc, "size", SIZE)?;
    with_flag(alloc, verb, "all", ALL)
}

/// Returns a verb that also takes what changes a load: its seed, its end, and the seeds of many runs.
fn with_changes<'a>(alloc: Global, verb: Command<'a>) -> Result<Command<'a>, AllocError>
    requires { (out-Command verb).has_globals ≡ false }
    ensures app { IfOk result (λ c. app_of c ≡ with_changes (app_of verb.entry)) }
    ensures local { IfOk result (λ c. (out-Command c).has_globals ≡ false) }
{
    let verb = with_option(alloc, verb, "seed", "SEED", SEED)?;
    let verb = with_option(alloc, verb, "until", "TICK", UNTIL)?;
    with_option(alloc, verb, "seeds", "FIRST..LAST", SEEDS)
}

/// Returns the verb that simulates loads.
fn simulating<'a>(alloc: Global) -> Result<Command<'a>, AllocError>
    ensures app { IfOk result (λ c. app_of c ≡ simulating) }
    ensures local { IfOk result (λ c. (out-Command c).has_globals ≡ false) }
{
    let verb = on_files(alloc, "simulate", SIMULATE)?;
    let verb = in_a_form(alloc, verb, REPORTS)?;
    let verb = with_changes(alloc, verb)?;
    with_flag(alloc, verb, "strict", IN_TIME)
}

/// Returns the verb that replays a task file.
fn replaying<'a>(alloc: Global) -> Result<Command<'a>, AllocError>
    ensures app { IfOk result (λ c. app_of c ≡ replaying) }
    ensures local { IfOk result (λ c. (out-Command c).has_globals ≡ false) }
{
    in_a_form(alloc, on_file(alloc, "replay", REPLAY)?, TRACES)
}

/// Returns the program with one more verb, if that could be made. The only error is out of memory.
fn with_verb<'a>(
    program: Command<'a>,
    verb: Result<Command<'a>, AllocError>,
) -> Result<Command<'a>, AllocError>
    requires { IfOk verb (λ v. (out-Command v).has_globals ≡ false) }
    ensures { IfOk result (λ c. IsOkAnd verb.entry
        (λ v. app_of c ≡ with_verb (app_of program.entry) (app_of v))) }
{
    program.subcommand(verb?)
}

/// Returns the program, with no verb yet.
fn bare_program<'a>(alloc: Global) -> Command<'a>
    ensures { app_of result ≡ bare_program }
{
    Command::new(alloc, "cbsrun")
        .about(ABOUT)
        .version(VERSION)
        .after_help(FILES)
        .after_long_help(GUIDE)
        .subcommand_required(true)
}

/// Returns the command line of the program: a verb, and its file.
fn command_line<'a>(alloc: Global) -> Result<Command<'a>, AllocError>
    ensures { IfOk result (λ c. app_of c ≡ command_line) }
{
    let program = with_verb(bare_program(alloc), checking(alloc))?;
    let program = with_verb(program, sizing(alloc))?;
    let program = with_verb(program, simulating(alloc))?;
    let program = with_verb(program, replaying(alloc))?;
    with_verb(program, on_file(alloc, "serve", SERVE))
}

/// Returns the text of an error of `clap`, without its tip to pass an option that there is not as a file.
fn told(alloc: Global, error: &Error) -> Result<String, AllocError> {
    let text = error.to_string(alloc)?;
    let Some((before, rest)) = text.split_once("\n\n  tip: to pass '") else {
        return Ok(text);
    };
    let Some((_, after)) = rest.split_once("\n\n") else {
        return Ok(text);
    };
    format!(in alloc; "{before}\n\n{after}")
}

/// Returns the fault of a command line that `clap` refused.
fn refused(alloc: Global, error: &Error) -> Result<WordsFault, AllocError>
    ensures memory { kind_of error.now ≡ ErrorKind.OutOfMemory
        → IfOk result (λ w. w ≡ OutOfMemory) }
    ensures kind { IfOk result (λ w. words_fault_number w ≡ number_of (kind_of error.now)) }
{
    let text = told(alloc, error)?;
    Ok(match error.kind() {
        ErrorKind::OutOfMemory => WordsFault::OutOfMemory,
        ErrorKind::DisplayHelp | ErrorKind::DisplayVersion => WordsFault::Help(text),
        _ => WordsFault::Usage(text),
    })
}

/// Returns the fault of a command line with no verb or no file. `clap` itself refuses such a command line before this.
fn incomplete(alloc: Global) -> Result<WordsFault, AllocError>
    ensures { IfOk result (λ w. words_fault_number w ≡ 1) }
{
    let wanted = String::from_str(alloc, "cbsrun: a verb and a file are wanted\n")?;
    Ok(WordsFault::Usage(wanted))
}

/// Returns the fault with this text, and below it how more is told of a command.
fn usage(mut text: String, verb: &str) -> Result<WordsFault, AllocError>
    ensures { IfOk result (λ w. words_fault_number w ≡ 1) }
{
    writeln!(text, "\nFor more information, try 'cbsrun {verb} --help'.")?;
    Ok(WordsFault::Usage(text))
}

/// Returns the fault of a command line with so many files, which its output cannot tell of.
fn wrong_files(alloc: Global, verb: &str, files: usize) -> Result<WordsFault, AllocError>
    ensures { IfOk result (λ w. words_fault_number w ≡ 1) }
{
    if files == 0 {
        incomplete(alloc)
    } else {
        usage(several_files_text(alloc)?, verb)
    }
}

/// Returns the fault of a command line whose options ask for no action.
fn wrong_options(alloc: Global, verb: &str, options: Options<'_>) -> Result<WordsFault, AllocError>
    ensures { IfOk result (λ w. words_fault_number w ≡ 1) }
{
    usage(wrong_options_text(alloc, verb, options)?, verb)
}

/// Returns copies of texts. The only error is out of memory.
fn copies_of(alloc: Global, texts: &[&str]) -> Result<Vec<String>, AllocError>
    ensures { IfOk result (λ copies. map string_bytes copies.items
        ≡ map (λ text. text.now) texts.now) }
{
    let mut copies = Vec::with_capacity(alloc, texts.len())?;
    for text in texts {
        copies.push(String::from_str(alloc, text)?)?;
    }
    Ok(copies)
}

/// Returns the texts of an option that may be given several times, in order. The only error is out of memory.
fn texts_of(alloc: Global, matches: &ArgMatches, name: &str) -> Result<Vec<String>, AllocError>
    ensures { IfOk result (λ texts. map string_bytes texts.items
        ≡ texts_in (rows_of (found_of matches.now)) name.now) }
{
    match matches.get_strs(name) {
        Some(texts) => copies_of(alloc, texts),
        None => Ok(Vec::new(alloc)),
    }
}

/// Returns the texts of the options that a subcommand has.
fn options_in<'a>(matches: &'a ArgMatches) -> Options<'a>
    ensures { said result ≡ said_in (rows_of (found_of matches.now)) }
{
    Options {
        form: matches.get_str("as"),
        from: matches.get_str("from"),
        to: matches.get_str("to"),
        server: matches.get_str("server"),
        seed: matches.get_str("seed"),
        until: matches.get_str("until"),
        seeds: matches.get_str("seeds"),
        strict: matches.get_str("strict"),
        all: matches.get_str("all"),
    }
}

/// Returns the request of the subcommand that `clap` found. Refuses if its options ask for no action, if there are
/// several files for an output that tells of one, or if out of memory.
fn asked_in(alloc: Global, matches: &ArgMatches) -> Result<Asked, WordsFault>
    ensures ok { IfOk result (IsAsked (subcommand_rows_of matches.now)) }
    ensures refused { IfErr result (λ e. (asked : Asked)
        → IsAsked (subcommand_rows_of matches.now) asked → e ≡ OutOfMemory) }
    ensures no_help { IfErr result (λ e. words_fault_number e ≢ 2) }
{
    let Some((name, inner)) = matches.subcommand() else {
        return Err(incomplete(alloc)?);
    };
    let options = options_in(inner);
    let Some(action) = action_of(name, options) else {
        return Err(wrong_options(alloc, name, options)?);
    };
    let files = texts_of(alloc, inner, "FILE")?;
    if !are_enough(options, files.len()) {
        return Err(wrong_files(alloc, name, files.len())?);
    }
    let servers = texts_of(alloc, inner, "server")?;
    Ok(Asked {
        action,
        files,
        servers,
    })
}

/// Returns the request of the words. The program's name is the first word.
fn asked_by(alloc: Global, words: &[String]) -> Result<Asked, WordsFault>
    ensures ok { IfOk result (Names (map string_bytes words.now)) }
    ensures refused { IfErr result (λ e. AreTaken (map string_bytes words.now) → e ≡ OutOfMemory) }
    ensures told { IfErr result (TellsOf (map string_bytes words.now)) }
{
    let command = command_line(alloc)?;
    match command.try_get_matches_from(words) {
        Ok(matches) => asked_in(alloc, &matches),
        Err(error) => Err(refused(alloc, &error)?),
    }
}

/// Returns the request of the words of a command line: first the program's name, then a verb and a file, or several.
///
/// Refuses with [`WordsFault::Usage`] if the words are wrong, and with [`WordsFault::OutOfMemory`] if out of memory.
/// Refuses with [`WordsFault::Help`] if the words ask for the help or the version.
pub fn read_words(alloc: Global, words: Vec<String>) -> Result<Asked, WordsFault>
    ensures ok { IfOk result (Names (map string_bytes words.items)) }
    // Words that name a verb and a file are refused only if out of memory.
    ensures refused { IfErr result (λ e. AreTaken (map string_bytes words.items)
        → e ≡ OutOfMemory) }
    // Others are told as what `clap` has for them: the help or the version, or wrong words.
    ensures told { IfErr result (TellsOf (map string_bytes words.items)) }
{
    asked_by(alloc, words.as_slice())
}
