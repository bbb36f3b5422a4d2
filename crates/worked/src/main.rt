// Prints cases A to L of document 01, each on a line that begins with its letter: what the run replies to the records of the case, one number each, or what the
// arithmetic gives; then document 02's: the worked log with a shift, committees of 33 and more, a key that is the identity, a run that waits for more dealers; last the replies to records that are none.
#![tactic(auto)]

use Share::{Right, Wrong};
use console::{end_line, print_bytes, print_number, print_test};
use field::{Element, Scalar};
use replies::give;
use rows::Row;
use run::Run;
use std::io::Print;

// HOLD, QUAL and BAD as masks; R and φ of (1,1), (2,1) and (3,1), the last outside the batch; the stage.
fn say(rt: &impl Print, run: Run) {
    replies::print_sets(rt, run);
    replies::print_signature(rt, run, 1, 1);
    replies::print_signature(rt, run, 2, 1);
    replies::print_signature(rt, run, 3, 1);
    replies::print_stage(rt, run);
    end_line(rt);
}

// A run of 4, 1, 1 with the keys of the worked log.
fn set_up(rt: &impl Print) -> Run {
    give(
        rt,
        Run::fresh(),
        b"SU\x04\x01\x01\x00\x00\x00\x00\x04\x00\x00\x00\x10",
    )
}

// A dealer's share for holder 2: as it should be, or greater by 1.
#[derive(Clone, Copy, Debug, PartialEq, Eq)]
enum Share {
    Right,
    Wrong,
}

// The bytes of a dealing, and the last byte of its share for holder 2.
const DEALING: usize = 28;

const SHARE_BYTE: usize = 19;

// A dealing, given as right or with that share wrong.
fn deal_one(rt: &impl Print, run: Run, right: &[u8; DEALING], share: Share) -> Run {
    let mut bytes = *right;
    if share == Wrong {
        bytes[SHARE_BYTE] = bytes[SHARE_BYTE].wrapping_add(1);
    }
    give(rt, run, &bytes)
}

// The three dealings of the worked log.
fn deal_three(rt: &impl Print, begun: Run, second: Share, third: Share) -> Run {
    let one = give(
        rt,
        begun,
        b"DE\x01\x00\x00\x00\x00\x01\x00\x00\x00\x04\x00\x00\x00\x01\x00\x00\x00\x02\x00\x00\x00\x03\x00\x00\x00\x04",
    );
    let two = deal_one(
        rt,
        one,
        b"DE\x02\x00\x00\x00\x00\x04\x00\x00\x00\x04\x00\x00\x00\x01\x00\x00\x00\x01\x00\x00\x00\x01\x00\x00\x00\x01",
        second,
    );
    deal_one(
        rt,
        two,
        b"DE\x03\x00\x00\x00\x00\x10\x00\x00\x00\x40\x00\x00\x00\x03\x00\x00\x00\x04\x00\x00\x00\x05\x00\x00\x00\x06",
        third,
    )
}

// The worked log up to the dealings.
fn deal(rt: &impl Print, second: Share, third: Share) -> Run {
    deal_three(rt, set_up(rt), second, third)
}

// Up to the complaint rows, with one from holder 2.
fn hold(rt: &impl Print, dealt: Run, row: &[u8]) -> Run {
    let held = give(rt, dealt, row);
    let more = give(rt, held, b"VE\x03\x00\x00\x00\x00\x00");
    give(rt, more, b"VE\x04\x00\x00\x00\x00\x00")
}

// Up to the challenges.
fn challenge(rt: &impl Print, dealt: Run, row: &[u8]) -> Run {
    give(
        rt,
        hold(rt, dealt, row),
        b"CH\x00\x00\x00\x00\x00\x01\x00\x00\x00\x02",
    )
}

// The response rows of holders 2 and 3 in the worked log.
fn respond(rt: &impl Print, run: Run) -> Run {
    let one = give(rt, run, b"RE\x02\x00\x00\x00\x00\x0a\x00\x00\x00\x16");
    give(rt, one, b"RE\x03\x00\x00\x00\x00\x0d\x00\x00\x00\x1c")
}

// (A) the worked log; (B), (C): rows that are refused right after its challenges.
fn worked(rt: &impl Print) {
    print_bytes(rt, b"A ");
    let run = challenge(rt, deal(rt, Right, Right), b"VE\x02\x00\x00\x00\x00\x00");
    say(rt, respond(rt, run));
    print_bytes(rt, b"B ");
    give(rt, run, b"RE\x01\x00\x00\x00\x00\x00\x00\x00\x00\x00");
    end_line(rt);
    print_bytes(rt, b"C ");
    give(rt, run, b"RE\x02\x00\x00\x00\x00\x0b\x00\x00\x00\x16");
    end_line(rt);
}

// (D): dealer 3's share for 2 is wrong and blamed.
fn blamed(rt: &impl Print) {
    print_bytes(rt, b"D ");
    let run = challenge(rt, deal(rt, Right, Wrong), b"VE\x02\x00\x00\x00\x00\x04");
    let one = give(rt, run, b"RE\x02\x00\x00\x00\x00\x06\x00\x00\x00\x0a");
    say(
        rt,
        give(rt, one, b"RE\x03\x00\x00\x00\x00\x08\x00\x00\x00\x0d"),
    );
}

// (E): a false blame.
fn false_blame(rt: &impl Print) {
    print_bytes(rt, b"E ");
    give(rt, deal(rt, Right, Right), b"VE\x02\x00\x00\x00\x00\x04");
    end_line(rt);
}

// (F), (G): parameters within the bounds, and outside.
fn bounds(rt: &impl Print) {
    let fresh = Run::fresh();
    print_bytes(rt, b"F ");
    set_up(rt);
    give(
        rt,
        fresh,
        b"SU\x20\x01\x0f\x00\x00\x00\x00\x04\x00\x00\x00\x10",
    );
    end_line(rt);
    print_bytes(rt, b"G ");
    give(
        rt,
        fresh,
        b"SU\x03\x01\x01\x00\x00\x00\x00\x04\x00\x00\x00\x10",
    );
    give(
        rt,
        fresh,
        b"SU\x20\x01\x10\x00\x00\x00\x00\x04\x00\x00\x00\x10",
    );
    end_line(rt);
}

// (H): the greatest scalar as a share, and q.
fn scalars(rt: &impl Print) {
    print_bytes(rt, b"H ");
    let begun = set_up(rt);
    give(
        rt,
        begun,
        b"DE\x01\x00\x00\x00\x00\x01\x00\x00\x00\x04\x1d\xcd\x65\x02\x00\x00\x00\x02\x00\x00\x00\x03\x00\x00\x00\x04",
    );
    give(
        rt,
        begun,
        b"DE\x01\x00\x00\x00\x00\x01\x00\x00\x00\x04\x1d\xcd\x65\x03\x00\x00\x00\x02\x00\x00\x00\x03\x00\x00\x00\x04",
    );
    end_line(rt);
}

// (I): 4 and P-1 as elements; (J): the inverse of 2; (K): the weights of the points 2 and 3 at 0.
fn arithmetic(rt: &impl Print) {
    print_bytes(rt, b"I ");
    print_test(rt, Element::read(4).is_element());
    print_test(rt, Element::read(Element::MODULUS - 1).is_element());
    end_line(rt);
    print_bytes(rt, b"J ");
    print_number(rt, Scalar(2).inverse().0 as u64);
    end_line(rt);
    print_bytes(rt, b"K ");
    let mut points = [Scalar::ZERO; 64];
    points[0] = Scalar(2);
    points[1] = Scalar(3);
    let weights = Row {
        at: points,
        count: 2,
    }
    .weights(Scalar::ZERO);
    print_number(rt, weights.at[0].0 as u64);
    print_number(rt, weights.at[1].0 as u64);
    end_line(rt);
}

// (L): more than t blamed, so that nothing is taken after.
fn too_many_blamed(rt: &impl Print) {
    print_bytes(rt, b"L ");
    say(
        rt,
        challenge(rt, deal(rt, Wrong, Wrong), b"VE\x02\x00\x00\x00\x00\x06"),
    );
}

// The worked log with CS in place of CH, and a shift of 5: R and φ of (1,1) before the challenges and after them, and all at the end.
fn shifted(rt: &impl Print) {
    print_bytes(rt, b"shift ");
    let held = hold(rt, deal(rt, Right, Right), b"VE\x02\x00\x00\x00\x00\x00");
    replies::print_signature(rt, held, 1, 1);
    let run = give(
        rt,
        held,
        b"CS\x00\x00\x00\x00\x00\x05\x00\x00\x00\x01\x00\x00\x00\x02",
    );
    replies::print_signature(rt, run, 1, 1);
    say(rt, respond(rt, run));
}

// Committees of 33 and 64 parties within the bounds, of 65 and 64 outside, and of four parties a complaint row as long as those of 33.
fn wide(rt: &impl Print) {
    let fresh = Run::fresh();
    print_bytes(rt, b"wide ");
    give(
        rt,
        fresh,
        b"SU\x21\x01\x0f\x00\x00\x00\x00\x04\x00\x00\x00\x10",
    );
    give(
        rt,
        fresh,
        b"SU\x40\x01\x1f\x00\x00\x00\x00\x04\x00\x00\x00\x10",
    );
    give(
        rt,
        fresh,
        b"SU\x41\x01\x01\x00\x00\x00\x00\x04\x00\x00\x00\x10",
    );
    give(
        rt,
        fresh,
        b"SU\x40\x01\x20\x00\x00\x00\x00\x04\x00\x00\x00\x10",
    );
    let dealt = deal(rt, Right, Right);
    give(rt, dealt, b"VE\x02\x00\x00\x00\x00\x00\x00\x00\x00\x00");
    end_line(rt);
}

// Setups with S = 1: refused; with an S_1 that is none, and outside the bounds, refused for that. With S = 4 an S_1 of 1 is taken, and then a dealing that
// commits to 1 everywhere.
fn identity(rt: &impl Print) {
    let fresh = Run::fresh();
    print_bytes(rt, b"identity ");
    give(
        rt,
        fresh,
        b"SU\x04\x01\x01\x00\x00\x00\x00\x01\x00\x00\x00\x10",
    );
    give(
        rt,
        fresh,
        b"SU\x04\x01\x01\x00\x00\x00\x00\x01\x00\x00\x00\x00",
    );
    give(
        rt,
        fresh,
        b"SU\x03\x01\x01\x00\x00\x00\x00\x01\x00\x00\x00\x10",
    );
    let begun = give(
        rt,
        fresh,
        b"SU\x04\x01\x01\x00\x00\x00\x00\x04\x00\x00\x00\x01",
    );
    give(
        rt,
        begun,
        b"DE\x01\x00\x00\x00\x00\x01\x00\x00\x00\x01\x00\x00\x00\x00\x00\x00\x00\x00\x00\x00\x00\x00\x00\x00\x00\x00",
    );
    end_line(rt);
}

// Dealer 4 deals 1 + 2x.
fn deal_fourth(rt: &impl Print, run: Run) -> Run {
    give(
        rt,
        run,
        b"DE\x04\x00\x00\x00\x00\x04\x00\x00\x00\x40\x00\x00\x00\x03\x00\x00\x00\x05\x00\x00\x00\x07\x00\x00\x00\x09",
    )
}

// The worked log begun by SX, with a fourth dealing, so that there is a third signature. GO is refused in a run begun by SU, before n-t dealings, with a
// byte behind it, and a second time; the dealing of dealer 4 a second time.
fn waited(rt: &impl Print) {
    print_bytes(rt, b"wait ");
    give(rt, set_up(rt), b"GO\x00");
    let begun = give(
        rt,
        Run::fresh(),
        b"SX\x04\x01\x01\x00\x00\x00\x00\x04\x00\x00\x00\x10",
    );
    give(rt, begun, b"GO");
    give(rt, begun, b"GO\x00");
    let four = deal_fourth(rt, deal_three(rt, begun, Right, Right));
    deal_fourth(rt, four);
    let gone = give(rt, four, b"GO");
    give(rt, gone, b"GO");
    let run = give(
        rt,
        hold(rt, gone, b"VE\x02\x00\x00\x00\x00\x00"),
        b"CH\x00\x00\x00\x00\x00\x01\x00\x00\x00\x02\x00\x00\x00\x03",
    );
    let one = give(
        rt,
        run,
        b"RE\x02\x00\x00\x00\x00\x0f\x00\x00\x00\x2a\x00\x00\x00\x83",
    );
    say(
        rt,
        give(
            rt,
            one,
            b"RE\x03\x00\x00\x00\x00\x14\x00\x00\x00\x38\x00\x00\x00\xb0",
        ),
    );
}

// Records that are none: no byte, one byte, a tag alone, no tag, and a setup that is late.
fn senseless(rt: &impl Print) {
    print_bytes(rt, b"none ");
    let begun = set_up(rt);
    give(rt, begun, b"");
    give(rt, begun, b"D");
    give(rt, begun, b"DE");
    give(rt, begun, b"XX");
    give(rt, begun, b"SU");
    end_line(rt);
}

fn main(rt: HostRuntime) {
    worked(&rt);
    blamed(&rt);
    false_blame(&rt);
    bounds(&rt);
    scalars(&rt);
    arithmetic(&rt);
    too_many_blamed(&rt);
    shifted(&rt);
    wide(&rt);
    identity(&rt);
    waited(&rt);
    senseless(&rt);
}
