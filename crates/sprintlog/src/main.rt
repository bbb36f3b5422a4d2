// The program sprintlog: the log on standard input, its page on standard output. Where it cannot read the log, or make or write the page, it says so
// on standard error.
#![tactic(auto)]

use reader::{LONGEST, REPORT};

fn main(rt: HostRuntime) {
    // One byte more than a log may have, so that one which is too long is seen.
    let mut log = [0u8; LONGEST + 1];
    let mut page = [0u8; REPORT];
    console::print_page(
        &rt,
        &mut rt.stdin(),
        "sprintlog",
        &mut log,
        &mut page,
        reader::report,
    );
}
