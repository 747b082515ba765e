// The two units of a position: an instrument is counted in contracts, a group in weighted ten-thousandths. Each is a type with its own
// operators, not one type with the unit as a parameter: the sum of two is all that both have.
ghost use Rattle.std.specs.Prelude.{◌≡◌, ◌+◌, ◌≤◌, pos, neg_ℤ, nat_abs, ◌+ℤ◌, ◌*ℤ◌, ◌≤ℤ◌};

use std::ops::{Add, Mul, Neg, Sub};

// A number of contracts, signed.
#[derive(Clone, Copy, PartialEq, Eq, PartialOrd, Ord)]
pub struct Contracts(pub i64);

// Contracts times a weight in ten-thousandths.
#[derive(Clone, Copy, PartialEq, Eq, PartialOrd, Ord)]
pub struct Weighted(pub i64);

impl Contracts {
    // A number that a record, a cell or a line has. No `From`: it asks for a bound.
    pub fn of(n: u64) -> Contracts
        requires { n ≤ 9000000000000000000 }
        ensures { result.0 ≡ pos n }
    {
        Contracts(n as i64)
    }

    // As a cell has them.
    pub fn number(self) -> u64
        requires { (pos 0 ≤ℤ self.0) × (nat_abs self.0 ≤ 9000000000000000000) }
        ensures { result ≡ nat_abs self.0 }
    {
        self.0 as u64
    }
}

impl Add for Contracts {
    type Output = Contracts;

    ghost can_add = { λ x y. nat_abs x.0 + nat_abs y.0 ≤ 9000000000000000000 };

    ghost add_gives = { λ x y sum. sum.0 ≡ x.0 +ℤ y.0 };

    fn add(self, other: Contracts) -> Contracts {
        Contracts(self.0 + other.0)
    }
}

impl Sub for Contracts {
    type Output = Contracts;

    ghost can_sub = { λ x y. nat_abs x.0 + nat_abs y.0 ≤ 9000000000000000000 };

    ghost sub_gives = { λ x y rest. rest.0 ≡ x.0 +ℤ neg_ℤ y.0 };

    fn sub(self, other: Contracts) -> Contracts {
        Contracts(self.0 - other.0)
    }
}

impl Neg for Contracts {
    type Output = Contracts;

    ghost can_neg = { λ x. nat_abs x.0 ≤ 9000000000000000000 };

    ghost neg_gives = { λ x negated. negated.0 ≡ neg_ℤ x.0 };

    fn neg(self) -> Contracts {
        Contracts(-self.0)
    }
}

// By a weight: the only way from contracts to what is weighted.
impl Mul<i64> for Contracts {
    type Output = Weighted;

    ghost can_mul = { λ x weight. (nat_abs x.0 ≤ 200000000000) × (nat_abs weight ≤ 1000000) };

    ghost mul_gives = { λ x weight weighted. weighted.0 ≡ weight *ℤ x.0 };

    fn mul(self, weight: i64) -> Weighted {
        Weighted(weight * self.0)
    }
}

impl Weighted {
    // Of a group without instruments: a name for what a sum begins with.
    pub fn none() -> Weighted
        ensures { result.0 ≡ pos 0 }
    {
        Weighted(0)
    }
}

impl Add for Weighted {
    type Output = Weighted;

    ghost can_add = { λ x y. nat_abs x.0 + nat_abs y.0 ≤ 9000000000000000000 };

    ghost add_gives = { λ x y sum. sum.0 ≡ x.0 +ℤ y.0 };

    fn add(self, other: Weighted) -> Weighted {
        Weighted(self.0 + other.0)
    }
}
