// Scalars modulo q and group elements modulo P, two kinds of number that are never taken for one another.
#![tactic(auto)]

ghost use Rattle.std.specs.Prelude.{◌≡◌, ◌<◌};
ghost use Rattle.field.specs.Definitions.{scalar, identity, generator, power_of, reduced, plus, minus, times, inverse, power, is_scalar, same_element, product, powered, raise, reading_of, read_element, some_element};

// A number from 0 to q - 1, counted modulo q.
#[derive(Clone, Copy, Debug, PartialEq, Eq)]
pub struct Scalar(pub u32);

// A number V from 1 to P - 1 with V^q = 1 modulo P. Two structs and no type over the modulus: document 01 names the form.
#[derive(Clone, Copy, Debug, PartialEq, Eq)]
pub struct Element(pub u32);

// What a number is, read as one of the group.
#[derive(Clone, Copy, Debug, PartialEq, Eq)]
pub enum Reading {
    NoElement,
    Identity,
    Other,
}

// base^exponent modulo the modulus, by square and multiply.
#[tactic(auto, using(crate::proofs::Fits::product_fits))]
fn power_of(modulus: u32, base: u32, exponent: u32) -> u32
    requires { 1 < modulus }
    ensures { result ≡ power_of modulus base exponent }
{
    let m = modulus as u64;
    let mut product: u64 = 1;
    let mut square = base as u64;
    let mut left = exponent;
    // by what is left of the exponent, and not over a list
    while 1 < left {
        if left % 2 == 1 {
            product = product * square % m;
        }
        square = square * square % m;
        left /= 2;
    }
    let last = if left == 1 { square } else { 1 };
    (product * last % m) as u32
}

impl Scalar {
    // q, a prime
    pub const MODULUS: u32 = 500000003;

    const WIDE: u64 = Scalar::MODULUS as u64;

    pub const ZERO: Scalar = Scalar(0);

    pub const ONE: Scalar = Scalar(1);

    // What the constant ZERO is.
    pub fn zero() -> Scalar
        ensures { result ≡ scalar 0 }
    {
        Scalar::ZERO
    }

    // What the constant ONE is.
    pub fn one() -> Scalar
        ensures { result ≡ scalar 1 }
    {
        Scalar::ONE
    }

    // The scalar that a number comes to modulo q. No `From`, which would lose nothing.
    #[tactic(auto, unfolding(crate::specs::Definitions::reduced, crate::specs::Definitions::q))]
    pub fn new(x: u32) -> Scalar
        ensures { result ≡ reduced x }
    {
        Scalar(x % Scalar::MODULUS)
    }

    // Whether a number is a scalar as it stands. No `TryFrom`: who asks keeps the number.
    #[tactic(auto, unfolding(crate::specs::Definitions::is_scalar, crate::specs::Definitions::q))]
    pub fn accepts(x: u32) -> bool
        ensures { result ≡ is_scalar x }
    {
        x < Scalar::MODULUS
    }

    #[tactic(auto, unfolding(crate::specs::Definitions::plus, crate::specs::Definitions::q))]
    pub fn add(self, other: Scalar) -> Scalar
        ensures { result ≡ plus self other }
    {
        let sum = self.0 as u64 + other.0 as u64;
        Scalar((sum % Scalar::WIDE) as u32)
    }

    #[tactic(auto, unfolding(crate::specs::Definitions::minus, crate::specs::Definitions::q))]
    pub fn sub(self, other: Scalar) -> Scalar
        ensures { result ≡ minus self other }
    {
        let lack = Scalar::MODULUS - other.0 % Scalar::MODULUS;
        let total = self.0 as u64 + lack as u64;
        Scalar((total % Scalar::WIDE) as u32)
    }

    #[tactic(auto, using(crate::proofs::Fits::product_fits), unfolding(crate::specs::Definitions::times, crate::specs::Definitions::q))]
    pub fn mul(self, other: Scalar) -> Scalar
        ensures { result ≡ times self other }
    {
        let whole = self.0 as u64 * other.0 as u64;
        Scalar((whole % Scalar::WIDE) as u32)
    }

    // The scalar whose product with this one is 1, and 0 for 0. With q = c x + r, the inverse of x is -c times that of r.
    pub fn inverse(self) -> Scalar
        ensures { result ≡ inverse self }
    {
        let mut factor = Scalar::ONE;
        let mut left = self.0 % Scalar::MODULUS;
        // by remainders, and not over a list
        while 1 < left {
            let minus_quotient = Scalar(Scalar::MODULUS - Scalar::MODULUS / left);
            factor = factor.mul(minus_quotient);
            left = Scalar::MODULUS % left;
        }
        factor.mul(Scalar(left))
    }

    // This scalar to the power of a whole number.
    #[tactic(auto, unfolding(crate::specs::Definitions::power, crate::specs::Definitions::q))]
    pub fn power(self, exponent: u32) -> Scalar
        ensures { result ≡ power self exponent }
    {
        Scalar(power_of(Scalar::MODULUS, self.0, exponent))
    }
}

impl Reading {
    // The reading of a number: whether it is of the group, and whether it is 1.
    #[tactic(auto, unfolding(crate::specs::Definitions::reading_of))]
    fn of(of_group: bool, one: bool) -> Reading
        ensures { result ≡ reading_of of_group one }
    {
        match (of_group, one) {
            (false, _) => Reading::NoElement,
            (true, true) => Reading::Identity,
            (true, false) => Reading::Other,
        }
    }

    // Whether it is an element, the identity or another.
    #[tactic(auto, unfolding(crate::specs::Definitions::some_element))]
    pub fn is_element(self) -> bool
        ensures { result ≡ some_element self }
    {
        self != Reading::NoElement
    }
}

impl Element {
    // P = 2 q + 1
    pub const MODULUS: u32 = 1000000007;

    const WIDE: u64 = Element::MODULUS as u64;

    pub const ONE: Element = Element(1);

    pub const GENERATOR: Element = Element(4);

    // What the constant ONE is.
    pub fn one() -> Element
        ensures { result ≡ identity }
    {
        Element::ONE
    }

    // What the constant GENERATOR is.
    pub fn generator() -> Element
        ensures { result ≡ generator }
    {
        Element::GENERATOR
    }

    // What a number is as it stands: by its order, and not by range alone. Of 1 no power is needed.
    #[tactic(auto, using(crate::proofs::Readings::one_raised), unfolding(crate::specs::Definitions::read_element, crate::specs::Definitions::P, crate::specs::Definitions::q))]
    pub fn read(x: u32) -> Reading
        ensures { result ≡ read_element x }
    {
        let of_group = 0 < x
            && x < Element::MODULUS
            && (x == 1 || power_of(Element::MODULUS, x, Scalar::MODULUS) == 1);
        Reading::of(of_group, x == 1)
    }

    // Whether both are one element.
    #[tactic(auto, unfolding(crate::specs::Definitions::same_element))]
    pub fn same(self, other: Element) -> bool
        ensures { result ≡ same_element self other }
    {
        self == other
    }

    #[tactic(auto, using(crate::proofs::Fits::product_fits), unfolding(crate::specs::Definitions::product, crate::specs::Definitions::P))]
    pub fn mul(self, other: Element) -> Element
        ensures { result ≡ product self other }
    {
        let full = self.0 as u64 * other.0 as u64;
        Element((full % Element::WIDE) as u32)
    }

    // This element to the power of a whole number.
    #[tactic(auto, unfolding(crate::specs::Definitions::powered, crate::specs::Definitions::P))]
    pub fn power(self, exponent: u32) -> Element
        ensures { result ≡ powered self exponent }
    {
        Element(power_of(Element::MODULUS, self.0, exponent))
    }

    // To the power of a scalar.
    #[tactic(auto, unfolding(crate::specs::Definitions::raise))]
    pub fn pow(self, exponent: Scalar) -> Element
        ensures { result ≡ raise self exponent }
    {
        self.power(exponent.0)
    }
}
