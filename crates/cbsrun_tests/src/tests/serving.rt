//! A file that is served. More of them are in `tests/services.txt`, at the top of the repository.

use super::FIRST;
use super::fakes::ran;
use cbsrun_commands::Verb;

#[test]
fn the_first_example_has_one_result(rt: HostRuntime) {
    let served = ran(&rt, rt.alloc(), Verb::Serve, FIRST.as_bytes());
    served.leaves(&rt, "served", 0, "server 0: 6\n", "");
}
