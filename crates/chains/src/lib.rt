// Products of powers, factor by factor, with one chain of squarings for all of them.
#![tactic(auto)]

ghost use Rattle.std.specs.Prelude.{◌≡◌};
ghost use Rattle.field.specs.Definitions.{identity, product, raise};
ghost use Rattle.chains.specs.Definitions.{chain_value};

use field::{Element, Scalar};

// How many digits of base 4 an exponent of 32 bits has.
pub const DIGITS: usize = 16;

// A product of powers so far: at place d the product of each value to digit d, base 4, of its exponent.
#[derive(Clone, Copy)]
pub struct Chain {
    pub digits: [Element; DIGITS],
}

impl Chain {
    // The empty product.
    pub fn none() -> Chain
        ensures { chain_value result ≡ identity }
    {
        Chain {
            digits: [Element::ONE; DIGITS],
        }
    }

    // With one factor more: value^exponent.
    pub fn with(self, value: Element, exponent: Scalar) -> Chain
        ensures { chain_value result ≡ product (chain_value self) (raise value exponent) }
    {
        let one = Element::ONE.mul(value);
        let two = one.mul(value);
        let three = two.mul(value);
        let powers = [Element::ONE, one, two, three];
        let mut digits = self.digits;
        let mut left = exponent.0;
        for place in digits.iter_mut() {
            let digit = (left % 4) as usize;
            *place = place.mul(powers[digit]);
            left /= 4;
        }
        Chain { digits }
    }

    // What it comes to: from the highest digit down, to the fourth power and times the next.
    pub fn value(self) -> Element
        ensures { result ≡ chain_value self }
    {
        let mut value = Element::ONE;
        for digit in self.digits.iter().rev() {
            let square = value.mul(value);
            value = square.mul(square).mul(*digit);
        }
        value
    }
}
