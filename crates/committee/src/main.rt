// Makes a complete log with the writers and gives it to a run: a committee of 6 with threshold 1 and packing 2, in which dealer 4 sends a wrong
// share to holder 1 and is blamed. Prints each reply, the sets as masks and the stage, then every R and φ.
#![tactic(auto)]

use console::{end_line, print_number};
use field::Scalar;
use replies::give;
use rows::ROW;
use run::Run;
use std::io::Print;

// n, t and a.
const PARTIES: u8 = 6;

const THRESHOLD: u8 = 1;

const PACKING: u8 = 2;

// b, which is n-2t.
const BATCH: u8 = 4;

// The value at party j of the polynomial that has these values at the first points from 1-a on.
fn value_at(values: &[Scalar], j: u8) -> u32 {
    let mut row = [Scalar::ZERO; ROW];
    for (place, &value) in row.iter_mut().zip(values) {
        *place = value;
    }
    points::committed_points(PACKING, values.len().min(ROW) as u8)
        .weights(points::point(j, 0))
        .sum(row)
        .0
}

// s and F(1).
const SECRET: u32 = 123456789;

const FIRST_SHARE: u32 = 222222222;

// F(j), from s at the packed slots and F(1).
fn key_share(j: u8) -> u32 {
    let values = [Scalar(SECRET), Scalar(SECRET), Scalar(FIRST_SHARE)];
    value_at(&values, j)
}

// The value of H_i at committed point v: a polynomial in v of degree 2.
fn dealt_value(i: u8, v: u8) -> Scalar {
    let dealer = Scalar(i as u32);
    let point = Scalar(v as u32 + 1);
    let square = point.mul(point);
    let second = square.mul(Scalar(7654321)).mul(dealer);
    dealer.mul(Scalar(10000019)).add(second).add(Scalar(17))
}

// The committed points of a dealing, t+2a-1 of them.
const COMMITTED: usize = 4;

// The values of H_i there.
fn dealt_values(i: u8) -> [Scalar; COMMITTED] {
    [0, 1, 2, 3].map(|v| dealt_value(i, v))
}

// H_i(j), from those.
fn dealt_share(i: u8, j: u8) -> u32 {
    value_at(&dealt_values(i), j)
}

// The length of the record SU; DEALING, COMPLAINT and RESPONSE are those of the others.
const SETUP: usize = 14;

fn set_up(rt: &impl Print, run: Run) -> Run {
    let shares = [FIRST_SHARE];
    let mut out = [0u8; SETUP];
    if dealer::write_setup(PARTIES, THRESHOLD, PACKING, SECRET, &shares, &mut out).is_err() {
        return run;
    }
    give(rt, run, &out)
}

const DEALING: usize = 44;

// The dealer of a wrong share, and the last byte of the share for holder 1.
const WRONG_DEALER: u8 = 4;

const WRONG_BYTE: usize = 23;

fn deal(rt: &impl Print, run: Run, i: u8) -> Run {
    let values = dealt_values(i).map(|value| value.0);
    let mut out = [0u8; DEALING];
    if dealer::write_dealing(PARTIES, THRESHOLD, PACKING, i, &values, &mut out).is_err() {
        return run;
    }
    if i == WRONG_DEALER {
        out[WRONG_BYTE] ^= 1;
    }
    give(rt, run, &out)
}

const COMPLAINT: usize = 8;

fn complain(rt: &impl Print, run: Run, j: u8) -> Run {
    let mut out = [0u8; COMPLAINT];
    if writers::write_complaint(run, j, &mut out).is_err() {
        return run;
    }
    give(rt, run, &out)
}

const RESPONSE: usize = 20;

// The shares of dealers outside QUAL are not read: they are no scalars here.
fn respond(rt: &impl Print, run: Run, j: u8) -> Run {
    let shares = [
        u32::MAX,
        dealt_share(2, j),
        dealt_share(3, j),
        u32::MAX,
        dealt_share(5, j),
        dealt_share(6, j),
    ];
    let mut out = [0u8; RESPONSE];
    if writers::write_response(run, j, key_share(j), &shares, &mut out).is_err() {
        return run;
    }
    give(rt, run, &out)
}

// Dealers 2 to 6.
fn deal_all(rt: &impl Print, begun: Run) -> Run {
    let mut run = begun;
    for i in 2..=PARTIES {
        run = deal(rt, run, i);
    }
    run
}

fn complain_all(rt: &impl Print, dealt: Run) -> Run {
    let mut run = dealt;
    for holder in [1, 2, 3, 5, 6] {
        run = complain(rt, run, holder);
    }
    run
}

fn respond_all(rt: &impl Print, challenged: Run) -> Run {
    let mut run = challenged;
    for holder in [6, 1, 3, 5] {
        run = respond(rt, run, holder);
    }
    run
}

fn say(rt: &impl Print, run: Run, u: u8, k: u8) {
    print_number(rt, u as u64);
    print_number(rt, k as u64);
    replies::print_signature(rt, run, u, k);
    end_line(rt);
}

fn say_all(rt: &impl Print, run: Run) {
    for u in 1..=BATCH {
        for k in 1..=PACKING {
            say(rt, run, u, k);
        }
    }
}

fn main(rt: HostRuntime) {
    let held = complain_all(&rt, deal_all(&rt, set_up(&rt, Run::fresh())));
    let challenged = give(
        &rt,
        held,
        b"CH\x00\x00\x00\xa7\xd8\xe1\x00\xb7\x1b\x24\x01\x40o\x7f\x01O\xb1\xc2\x01\xd9\x06\x1d\x01\xe8H\x60\x02q\x9c\xbb\x02\x80\xde\xfe",
    );
    let run = respond_all(&rt, challenged);
    end_line(&rt);
    replies::print_sets(&rt, run);
    replies::print_stage(&rt, run);
    end_line(&rt);
    say_all(&rt, run);
}
