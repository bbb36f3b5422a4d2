// The program sprintsets: the log on standard input, its short page on standard output, which has the sets and the bytes that were read for them.
// Where it cannot read the log, or make or write the page, it says so on standard error.
#![tactic(auto)]

use reader::LONGEST;
use summary::SHORT;

fn main(rt: HostRuntime) {
    // One byte more than a log may have, so that one which is too long is seen.
    let mut log = [0u8; LONGEST + 1];
    let mut page = [0u8; SHORT];
    console::print_page(
        &rt,
        &mut rt.stdin(),
        "sprintsets",
        &mut log,
        &mut page,
        summary::report,
    );
}
