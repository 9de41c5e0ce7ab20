// Which matrix records are accepted: the limits on the exponent and the coefficients, and the test for unitary.
#![tactic(auto)]

ghost use Rattle.std.specs.Prelude.{◌≤◌, ◌^◌, true, ◌↔◌, ◌≡◌, pos};
ghost use Rattle.ring.specs.Bounds.{Small};
ghost use Rattle.matrix.specs.Matrix.{Unitary, column_product};
ghost use Rattle.answer.specs.Limits.{exponent_limit, coefficient_limit};
ghost use Rattle.lists.specs.Found.{Finds};
ghost use Rattle.accept_record.specs.Accept.{in_limit, Inside, Judged};
ghost use Rattle.accept_record.specs.Column.{UnitColumn};

use answer::{COEFFICIENT_LIMIT, EXPONENT_LIMIT, Refusal};
use matrix::Matrix;
use ring::Element;

// Whether a coefficient is inside its limit.
#[tactic(auto, unfolding(crate::specs::Accept::in_limit))]
fn in_limit(n: i64) -> bool
    ensures { result ≡ in_limit n }
{
    (-COEFFICIENT_LIMIT..=COEFFICIENT_LIMIT).contains(&n)
}

// The index of the first coefficient beyond its limit.
// With the search for a bad letter it shares `position`, and nothing else stands in it.
fn first_wide(list: &[i64]) -> Option<usize>
    ensures { Finds in_limit list.now result }
{
    list.iter().position(|n| !in_limit(*n))
}

// 2^k
fn power(k: u32) -> i64
    requires { k ≤ exponent_limit }
    ensures { result ≡ pos (2 ^ k) }
{
    1 << k
}

// A column of a record inside the limits.
#[derive(Clone, Copy)]
struct Column {
    top: Element,
    bottom: Element,
    ghost top_small: { Small coefficient_limit top },
    ghost bottom_small: { Small coefficient_limit bottom },
}

impl Column {
    // The column times the conjugate of another.
    fn product(self, other: Column) -> Element
        ensures { result ≡ column_product self.top self.bottom other.top other.bottom }
    {
        let above = self.top.times(other.top.conjugated());
        let below = self.bottom.times(other.bottom.conjugated());
        above.plus(below)
    }

    // Whether the squared sizes sum to 2^k with no √2 part: they are the column times its own conjugate.
    fn is_unit(self, power: i64) -> bool
        ensures { result ≡ true ↔ UnitColumn self.top self.bottom power }
    {
        let size = self.product(self);
        size.a0 == power && size.a1 == 0
    }
}

// The eight equations.
fn is_unitary(m: Matrix) -> bool
    requires { Inside m }
    ensures { result ≡ true ↔ Unitary m }
{
    let left = Column {
        top: m.top.left,
        bottom: m.bottom.left,
    };
    let right = Column {
        top: m.top.right,
        bottom: m.bottom.right,
    };
    let two_to_k = power(m.exponent);
    left.is_unit(two_to_k) && (right.is_unit(two_to_k) && left.product(right) == Element::NOTHING)
}

// The limits in their order, and then the test for unitary.
#[tactic(auto, using(crate::specs::Accept::high_exponent))]
pub fn judge(m: Matrix) -> Result<(), Refusal>
    ensures { Judged m result }
{
    if EXPONENT_LIMIT < m.exponent {
        return Err(Refusal::HighExponent);
    }
    if let Some(index) = first_wide(&coefficients::coefficients(m)) {
        return Err(Refusal::WideCoefficient { index });
    }
    if !is_unitary(m) {
        return Err(Refusal::NotUnitary);
    }
    Ok(())
}
