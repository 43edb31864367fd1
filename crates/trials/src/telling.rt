//! The lines that are printed. Nothing is done about a line that cannot be written: a reader of the output misses it.

use std::fmt::Debug;

/// Prints that the call under test comes next. From this line to the next one, the script that runs the program may
/// refuse memory.
pub fn begin(rt: &impl Print) {
    let _written = print!(rt; "call\n");
}

/// Prints a result.
pub fn tell<T: Debug + Drop>(rt: &impl Print, what: &str, answer: T) {
    let _written = println!(rt; "{what}: {answer:?}");
}

/// Prints the title of what is tried next.
pub fn title(rt: &impl Print, name: &str) {
    let _written = println!(rt; "== {name}");
}
