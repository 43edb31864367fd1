//! The explanation of a fault. Those of many broken files are in `tests/explanations.txt`, at the top of the
//! repository.

use super::same;
use cbsrun_fault_texts::explain;
use cbsrun_loads::read_load;
use cbsrun_other_faults::explain_others;

const COMMA_LEFT_OUT: &str = "load = 1\n\nbound = [1 1]\n";

const EXPLAINED: &str = "error: missing comma between the entries of an array
  --> LOAD.toml:3:12
  |
3 | bound = [1 1]
  |            ^
";

#[test]
fn a_comma_left_out(rt: HostRuntime) {
    let alloc = rt.alloc();
    let bytes = COMMA_LEFT_OUT.as_bytes();
    let fault = read_load(alloc, bytes).err().expect(&rt, "a fault");
    let text = explain(alloc, "LOAD.toml", bytes, fault)
        .ok()
        .expect(&rt, "memory");
    same(&rt, "explanation", text.as_str(), EXPLAINED);
}

const EXPLAINED_ELSEWHERE: &str = "error: missing comma between the entries of an array
  --> a\\u{1b}[31m.toml:3:12
  |
3 | bound = [1 1]
  |            ^
";

#[test]
fn a_file_whose_name_controls_a_terminal(rt: HostRuntime) {
    let alloc = rt.alloc();
    let bytes = COMMA_LEFT_OUT.as_bytes();
    let fault = read_load(alloc, bytes).err().expect(&rt, "a fault");
    let text = explain(alloc, "a\u{1b}[31m.toml", bytes, fault)
        .ok()
        .expect(&rt, "memory");
    same(&rt, "explanation", text.as_str(), EXPLAINED_ELSEWHERE);
}

/// A load with two faulty sources.
const TWO_FAULTS: &str = "load = 1
bound = [1, 1]
backlog = 4
until = 200
[[server]]
name = \"a\"
mode = \"soft\"
budget = 1
period = 5
[[source]]
server = \"a\"
every = 0
units = 1
[[source]]
server = \"a\"
every = 5
units = 1
jobs = 0
";

/// What is told of the second fault.
const SECOND: &str = "
error: `jobs` is 0, and has to be a number from 1 to 1000000000000
  --> LOAD.toml:18: source 1, of \"a\"
   |
18 | jobs = 0
   |        ^ 1 to 1000000000000
";

#[test]
fn the_faults_after_the_first(rt: HostRuntime) {
    let alloc = rt.alloc();
    for (file, most, told) in &[
        (TWO_FAULTS, 10, SECOND),
        (TWO_FAULTS, 2, SECOND),
        (TWO_FAULTS, 1, "\nand 1 more\n"),
        (COMMA_LEFT_OUT, 10, ""),
        ("format = 3\n", 10, ""),
    ] {
        let text = explain_others(alloc, "LOAD.toml", file.as_bytes(), *most)
            .ok()
            .expect(&rt, "memory");
        same(&rt, told, text.as_str(), *told);
    }
}
