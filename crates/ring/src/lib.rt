// Ring elements: four whole numbers (a0, a1, a2, a3), meaning a0 + a1ω + a2ω² + a3ω³ with ω⁴ = −1. The real ones among them are
// the numbers of Z[√2].
#![tactic(auto)]

ghost use Rattle.std.specs.Prelude.{pos, ◌^◌, true, ◌↔◌, ◌≡◌};
ghost use Rattle.std.specs.Int.Signed.{lt_z};
ghost use Rattle.algebra.specs.Parity.{odd};
ghost use Rattle.ring.specs.Element.{sum, negation, multiple, turned, product, conjugate, root2};
ghost use Rattle.ring.specs.Bounds.{Small, Multiplied, Factors};
ghost use Rattle.ring.specs.Divided.{Root2Divides, Double};
ghost use Rattle.ring.specs.Real.{negated, over_root2, half_sum, half_difference};

use std::marker::Model;

#[derive(Clone, Copy, PartialEq, Eq)]
pub struct Element {
    pub a0: i64,
    pub a1: i64,
    pub a2: i64,
    pub a3: i64,
}

// Sums and products are methods by value, and not operators: the project fixes this form.
impl Element {
    // Nothing, and the fixed elements one, ω, ω² and √2.
    pub const NOTHING: Element = Element {
        a0: 0,
        a1: 0,
        a2: 0,
        a3: 0,
    };

    pub const ONE: Element = Element {
        a0: 1,
        a1: 0,
        a2: 0,
        a3: 0,
    };

    pub const OMEGA: Element = Element {
        a0: 0,
        a1: 1,
        a2: 0,
        a3: 0,
    };

    pub const OMEGA2: Element = Element {
        a0: 0,
        a1: 0,
        a2: 1,
        a3: 0,
    };

    pub const ROOT2: Element = Element {
        a0: 0,
        a1: 1,
        a2: 0,
        a3: -1,
    };

    // Room stands in the contracts and is no invariant of the type: a sum of two elements that leave room may leave none.
    // The sum, place by place.
    pub fn plus(self, other: Element) -> Element
        requires small { Small (2 ^ 61) self }
        requires small_2 { Small (2 ^ 61) other }
        ensures { result ≡ sum self other }
    {
        Element {
            a0: self.a0 + other.a0,
            a1: self.a1 + other.a1,
            a2: self.a2 + other.a2,
            a3: self.a3 + other.a3,
        }
    }

    pub fn negated(self) -> Element
        requires { Small (2 ^ 61) self }
        ensures { result ≡ negation self }
    {
        Element {
            a0: -self.a0,
            a1: -self.a1,
            a2: -self.a2,
            a3: -self.a3,
        }
    }

    // ω times the element: a3 comes back at a0 with its sign changed.
    fn turned(self) -> Element
        requires { Small (2 ^ 61) self }
        ensures { result ≡ turned self }
    {
        Element {
            a0: -self.a3,
            a1: self.a0,
            a2: self.a1,
            a3: self.a2,
        }
    }

    // The complex conjugate.
    pub fn conjugated(self) -> Element
        requires { Small (2 ^ 61) self }
        ensures { result ≡ conjugate self }
    {
        Element {
            a0: self.a0,
            a1: -self.a3,
            a2: -self.a2,
            a3: -self.a1,
        }
    }

    // A number times the element.
    fn multiple(self, n: i64) -> Element
        requires { Multiplied n self }
        ensures { result ≡ multiple n self }
    {
        Element {
            a0: n * self.a0,
            a1: n * self.a1,
            a2: n * self.a2,
            a3: n * self.a3,
        }
    }

    // The product: a0 times the other element, a1 times ω times it, and so on.
    pub fn times(self, other: Element) -> Element
        requires { Factors self other }
        ensures { result ≡ product self other }
    {
        let once = other.turned();
        let twice = once.turned();
        let thrice = twice.turned();
        let low = other.multiple(self.a0).plus(once.multiple(self.a1));
        let high = twice.multiple(self.a2).plus(thrice.multiple(self.a3));
        low.plus(high)
    }

    // Exact halving: what dividing twice by √2 is.
    pub fn halved(self) -> Element
        requires { Double self }
        ensures { sum result result ≡ self }
    {
        Element {
            a0: self.a0 / 2,
            a1: self.a1 / 2,
            a2: self.a2 / 2,
            a3: self.a3 / 2,
        }
    }

    // Divided by √2: √2 times the element, halved.
    pub fn over_root2(self) -> Element
        requires small { Small (2 ^ 60) self }
        requires root2_divides { Root2Divides self }
        ensures { product root2 result ≡ self }
    {
        Element::ROOT2.times(self).halved()
    }

    // Whether the element can be divided by √2: a0 and a2 agree in parity, and a1 and a3.
    pub fn divides_by_root2(self) -> bool
        ensures { result ≡ true ↔ Root2Divides self }
    {
        odd(self.a0) == odd(self.a2) && odd(self.a1) == odd(self.a3)
    }
}

// A number of Z[√2], whole + root2·√2, whose parts leave room in 64 bits: a sum of two and a change of sign stay exact.
#[derive(Clone, Copy)]
pub struct Real {
    pub whole: i64,
    pub root2: i64,
}

impl Model for Real {
    ghost use Rattle.ring.specs.Number.{Number, RoomyNumber};

    ghost Value = { Number };

    ghost view = { λ r. record { whole = r.whole; root2 = r.root2 } };

    ghost invariant = { λ r. RoomyNumber (record { whole = r.whole; root2 = r.root2 }) };

    ghost inverse = { λ r. record { whole = r.whole; root2 = r.root2 } };
}

impl Real {
    // Whether the whole part is odd.
    pub fn is_odd(self) -> bool
        ensures { result ≡ odd self.whole }
    {
        odd(self.whole)
    }

    // Whether the number's whole part is below zero.
    pub fn is_negative(self) -> bool
        ensures { result ≡ lt_z self.whole (pos 0) }
    {
        self.whole < 0
    }

    pub fn negated(self) -> Real
        ensures { result ≡ negated self }
    {
        Real {
            whole: -self.whole,
            root2: -self.root2,
        }
    }

    // Divided by √2, where the whole part is even.
    pub fn over_root2(self) -> Real
        ensures { result ≡ over_root2 self }
    {
        Real {
            whole: self.root2,
            root2: self.whole >> 1,
        }
    }

    pub fn half_sum(self, other: Real) -> Real
        ensures { result ≡ half_sum self other }
    {
        Real {
            whole: (self.whole + other.whole) >> 1,
            root2: (self.root2 + other.root2) >> 1,
        }
    }

    #[tactic(auto, unfolding(crate::specs::Real::half_difference, crate::specs::Real::half_sum, crate::specs::Real::negated))]
    pub fn half_difference(self, other: Real) -> Real
        ensures { result ≡ half_difference self other }
    {
        self.half_sum(other.negated())
    }
}

// The numerators of a Bloch vector or of a rotation vector, over a power of √2.
#[derive(Clone, Copy)]
pub struct Vector {
    pub x: Real,
    pub y: Real,
    pub z: Real,
}

pub fn odd(n: i64) -> bool
    ensures { result ≡ odd n }
{
    n % 2 != 0
}
