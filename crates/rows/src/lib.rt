// Lists of scalars with their count: the weights of points, and what they make of scalars and of elements.
#![tactic(auto)]

ghost use Rattle.std.specs.Prelude.{◌≡◌};
ghost use Rattle.rows.specs.Definitions.{size, nth, weights_of, scale, basis_of, weights_by, sum_of, product_of};
ghost use Rattle.rows.specs.BasisLaws.{partial_products, reversed};

use chains::Chain;
use field::{Element, Scalar};

// The most scalars of a row, and its places.
pub const MOST_SCALARS: u8 = 64;

pub const ROW: usize = MOST_SCALARS as usize;

// A list of at most 64 scalars, points or weights, with its count, by value: document 01 names the form. A count above 64 counts as 64.
#[derive(Clone, Copy)]
pub struct Row {
    pub at: [Scalar; ROW],
    pub count: u8,
}

// Points, and for each the inverse of the product of its differences from the others: what the weights at any x rest on.
#[derive(Clone, Copy)]
pub struct Basis {
    pub points: Row,
    pub scales: Row,
}

impl Row {
    // The count, at most 64.
    #[tactic(auto, unfolding(crate::specs::Definitions::size))]
    pub fn len(self) -> u8
        ensures { result ≡ size self }
    {
        self.count.min(MOST_SCALARS)
    }

    // Scalar i, and 0 past the array's end.
    #[tactic(auto, unfolding(crate::specs::Definitions::nth))]
    fn item(self, i: u8) -> Scalar
        ensures { result ≡ nth self i }
    {
        self.at.get(i as usize).copied().unwrap_or(Scalar::ZERO)
    }

    // The inverse of the product of point i's differences from the others.
    #[tactic(auto, using(crate::proofs::RowLaws::size_max))]
    fn scale(self, i: u8) -> Scalar
        ensures { result ≡ scale (nth self) (size self) i }
    {
        let m = self.len();
        let own = self.item(i);
        let mut below = Scalar::ONE;
        for (l, &other) in self.at[..m as usize].iter().enumerate() {
            let apart = l != i as usize;
            if apart {
                below = below.mul(own.sub(other));
            }
        }
        below.inverse()
    }

    // The basis of these points, with one inverse a point.
    #[tactic(auto, using(crate::proofs::RowLaws::size_max))]
    pub fn basis(self) -> Basis
        ensures { result ≡ basis_of self }
    {
        let m = self.len();
        let mut scales = [Scalar::ZERO; ROW];
        for (i, scale) in scales[..m as usize].iter_mut().enumerate() {
            *scale = self.scale(i as u8);
        }
        Basis {
            points: self,
            scales: Row {
                at: scales,
                count: m,
            },
        }
    }

    // For each i the product of x's differences from the first i points.
    #[tactic(auto, using(crate::proofs::RowLaws::size_max))]
    fn partial_products(self, x: Scalar) -> Row
        ensures { result ≡ partial_products self x }
    {
        let m = self.len();
        let mut products = [Scalar::ZERO; ROW];
        let mut product = Scalar::ONE;
        for (i, &other) in self.at[..m as usize].iter().enumerate() {
            products[i] = product;
            product = product.mul(x.sub(other));
        }
        Row {
            at: products,
            count: m,
        }
    }

    // The points in the other order.
    #[tactic(auto, using(crate::proofs::RowLaws::size_max))]
    fn reversed(self) -> Row
        ensures { result ≡ reversed self }
    {
        let m = self.len();
        let mut at = [Scalar::ZERO; ROW];
        for (i, place) in at[..m as usize].iter_mut().enumerate() {
            let from = m as usize - 1 - i;
            *place = self.at[from];
        }
        Row { at, count: m }
    }

    // The weights of these points at x. At many x, take the basis once.
    #[tactic(auto, using(crate::proofs::BasisLaws::weights_by_is))]
    pub fn weights(self, x: Scalar) -> Row
        ensures { result ≡ weights_of self x }
    {
        self.basis().weights(x)
    }

    // The sum of weight × value, of these weights.
    #[tactic(auto, using(crate::proofs::RowLaws::size_max))]
    pub fn sum(self, values: [Scalar; ROW]) -> Scalar
        ensures { result ≡ sum_of self values }
    {
        let m = self.len() as usize;
        let mut sum = Scalar::ZERO;
        for (&w, &v) in self.at[..m].iter().zip(&values) {
            sum = sum.add(w.mul(v));
        }
        sum
    }

    // The product of value^weight, of these weights, with one chain of squarings for all values.
    #[tactic(auto, using(crate::proofs::RowLaws::size_max))]
    pub fn product(self, values: [Element; ROW]) -> Element
        ensures { result ≡ product_of self values }
    {
        let m = self.len() as usize;
        let mut chain = Chain::none();
        for (&w, &v) in self.at[..m].iter().zip(&values) {
            chain = chain.with(v, w);
        }
        chain.value()
    }
}

impl Basis {
    // The weights of the points at x, each from the products of x's differences from the points before it and after it.
    #[tactic(auto, using(crate::proofs::RowLaws::size_max))]
    pub fn weights(self, x: Scalar) -> Row
        ensures { result ≡ weights_by self x }
    {
        let points = self.points;
        let scales = self.scales;
        let m = points.len();
        let prefix = points.partial_products(x);
        let suffix = points.reversed().partial_products(x);
        let mut weights = [Scalar::ZERO; ROW];
        for (i, weight) in weights[..m as usize].iter_mut().enumerate() {
            let k = m as usize - 1 - i;
            let others = prefix.at[i].mul(suffix.at[k]);
            *weight = others.mul(scales.at[i]);
        }
        Row {
            at: weights,
            count: m,
        }
    }
}
