// Response numbers against what is kept: the test of a row, and C_u(x).
#![tactic(auto)]

ghost use Rattle.std.specs.Prelude.{◌≡◌, true, ◌+◌, ◌≤◌, ◌<◌};
ghost use Rattle.rows.specs.Definitions.{size, product_of};
ghost use Rattle.parameters.specs.Definitions.{most_parties, in_bounds, quorum};
ghost use Rattle.records.specs.Bytes.{sender};
ghost use Rattle.protocol.specs.Transcript.{combined_at};
ghost use Rattle.arrays.specs.Arrays.{commitment_in, elements};
ghost use Rattle.complaint.specs.Definitions.{unblamed};
ghost use Rattle.challenge.specs.declared.Challenges.{Challenges};
ghost use Rattle.verification.specs.Definitions.{transcript, row_passes};
ghost use Rattle.verification.specs.Tests.{holder_of, qual_values, TestedRow};

use chains::Chain;
use challenge::Challenges;
use complaint::Complaints;
use dealing::{Dealings, Setup};
use field::{Element, Scalar};
use parameters::{PLACES, STRIDE};
use rows::Row;

// What the numbers of a row are tested with that depends on its holder j alone: S_j, and the weights at j of the slots and of the committed points.
#[derive(Clone, Copy)]
pub struct Holder {
    pub key: Element,
    pub slots: Row,
    pub points: Row,
}

// What response rows are tested against: what is kept of the records before them. The parameters are within the bounds.
#[derive(Clone, Copy)]
pub struct Kept<'a> {
    pub setup: &'a Setup,
    pub dealings: &'a Dealings,
    pub complaints: &'a Complaints,
    pub challenges: &'a Challenges,
    pub ghost within: { in_bounds setup.now.n setup.now.t setup.now.a ≡ true },
}

impl<'a> Kept<'a> {
    // How many committed points a dealing has.
    fn quorum(&self) -> u8
        ensures { (result ≡ quorum self.now.setup.now.t self.now.setup.now.a) × (result ≤ most_parties) }
    {
        parameters::quorum(self.setup.t, self.setup.a) as u8
    }

    // QUAL.
    fn qual(&self) -> u64
        ensures { result ≡ unblamed self.now.setup.now.n self.now.complaints.now self.now.dealings.now.dealers }
    {
        self.complaints
            .unblamed(self.setup.n, self.dealings.dealers)
    }

    // What the numbers of a row are tested with for its sender.
    pub fn holder_of(&self, bytes: &[u8]) -> Holder
        ensures { result ≡ holder_of self.now.setup.now (sender bytes.now) }
    {
        let a = self.setup.a;
        let x = points::point(records::byte(bytes, 2), 0);
        let key = self.setup.key_at(x);
        let slots = points::slot_points(a).weights(x);
        let points = points::committed_points(a, self.quorum()).weights(x);
        Holder {
            key: key,
            slots: slots,
            points: points,
        }
    }

    // QUAL's committed values, combined for u from 1 to count.
    pub fn qual_values(&self, count: u8) -> [Element; PLACES]
        requires { count ≤ self.now.setup.now.n }
        ensures { result ≡ qual_values self.now.setup.now self.now.dealings.now self.now.complaints.now count }
    {
        let list = self.dealings.commitments;
        combination::table(list, self.setup.n, self.qual(), self.quorum(), count)
    }

    // Whether the first numbers of a row pass, as many as QUAL's committed values are combined for; those that are known to pass are passed over. The
    // first that fails ends the row.
    pub fn test_row(
        &self,
        known: u8,
        count: u8,
        holder: &Holder,
        values: &[Element; PLACES],
        bytes: &[u8],
    ) -> bool
        requires { (known ≤ count) × (count ≤ self.now.setup.now.n) × (holder.now ≡ holder_of self.now.setup.now (sender bytes.now)) }
        ensures { TestedRow known count self.now.setup.now self.now.challenges.now.numbers values.now bytes.now result }
    {
        let m = holder.points.len();
        let mut passed = true;
        // loops by number, left by label: document 01 names the form
        'row: for u in known..count {
            let mut chain = Chain::none();
            for v in 0..m {
                let value = values[u as usize * STRIDE + v as usize];
                let weight = holder.points.at[v as usize];
                chain = chain.with(value, weight);
            }
            let challenges = arrays::challenge_values(self.challenges.numbers, self.setup.a, u + 1);
            let power = holder.key.pow(holder.slots.sum(challenges));
            let wanted = chain.value().mul(power);
            let sent = Element::GENERATOR.pow(Scalar(records::word(bytes, 4, u as u16)));
            if !sent.same(wanted) {
                passed = false;
                break 'row;
            }
        }
        passed
    }

    // Whether each of the b response numbers of a row passes. The committed values are combined for one u more as long as the numbers pass.
    pub fn row_passes(&self, b: u8, bytes: &[u8]) -> bool
        requires { b ≤ self.now.setup.now.n }
        ensures { result ≡ row_passes b self.now.setup.now self.now.dealings.now self.now.complaints.now self.now.challenges.now bytes.now }
    {
        let n = self.setup.n;
        let quorum = self.quorum();
        let qual = self.qual();
        let holder = self.holder_of(bytes);
        let mut powers = self.dealings.commitments;
        let mut values = [Element::ONE; PLACES];
        for u in 0..b {
            if 0 < u {
                let more = combination::raised(powers, n);
                powers = more;
            }
            let next = combination::with_values(values, powers, n, qual, quorum, u);
            values = next;
            if !self.test_row(u, u + 1, &holder, &values, bytes) {
                return false;
            }
        }
        true
    }

    // R(u,k) before the shift at the point 1-k, and C_u(j) at j, whatever the challenges.
    pub fn combined_at(&self, u: u8, x: Scalar) -> Element
        ensures { (challenges : Challenges) → result ≡ combined_at (transcript self.now.setup.now self.now.dealings.now self.now.complaints.now challenges) u x }
    {
        let n = self.setup.n;
        let list = self.dealings.commitments;
        let quorum = self.quorum();
        let qual = self.qual();
        let powers = combination::powers_at(list, n, u);
        let values = combination::combined_values(powers, qual, n, quorum);
        points::committed_points(self.setup.a, quorum)
            .weights(x)
            .product(values)
    }
}
