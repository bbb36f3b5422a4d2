// Prints the arithmetic at the edges of its ranges: a line for each number, then a line for each two.
#![tactic(auto)]

use console::word;
use field::{Element, Reading, Scalar};
use std::io::Print;

const EDGES: [u32; 9] = [
    0,
    1,
    2,
    4,
    Scalar::MODULUS - 1,
    Scalar::MODULUS,
    Element::MODULUS - 1,
    Element::MODULUS,
    u32::MAX,
];

// A word for what a number is as an element.
fn reading_word(reading: Reading) -> &'static str {
    match reading {
        Reading::NoElement => "none",
        Reading::Identity => "identity",
        Reading::Other => "other",
    }
}

// The number; whether it is a scalar; what it is as an element; its remainder, its inverse; its power 3; 4 to it.
fn print_single(rt: &impl Print, x: u32) {
    let scalar = Scalar(x);
    let _ = println!(rt;
        "{x} {} {} {} {} {} {} ",
        word(Scalar::accepts(x)),
        reading_word(Element::read(x)),
        Scalar::new(x).0,
        scalar.inverse().0,
        scalar.power(3).0,
        Element::GENERATOR.pow(scalar).0
    );
}

// Two numbers; sum, difference and product of scalars; product and power of elements.
fn print_pair(rt: &impl Print, x: u32, y: u32) {
    let (a, b) = (Scalar(x), Scalar(y));
    let (v, w) = (Element(x), Element(y));
    let _ = println!(rt;
        "{x} {y} {} {} {} {} {} ",
        a.add(b).0,
        a.sub(b).0,
        a.mul(b).0,
        v.mul(w).0,
        v.pow(b).0
    );
}

fn main(rt: HostRuntime) {
    for x in EDGES {
        print_single(&rt, x);
    }
    for x in EDGES {
        for y in EDGES {
            print_pair(&rt, x, y);
        }
    }
}
