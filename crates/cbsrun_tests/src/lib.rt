//! Tests of what the program is made of, as far as it cannot show it itself: what is read of loads and task files, what
//! loads guarantee, how both are run, what is printed and drawn of them, and the words of a command line. What the
//! program writes of a file is in the cases of `tests/`, at the top of the repository.
#![tactic(auto)]

#[cfg(test)]
mod tests;
