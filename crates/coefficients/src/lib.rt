// A matrix record as its exponent and its sixteen coefficients, and back.
#![tactic(auto)]

ghost use Rattle.std.specs.Prelude.{◌≤◌, ◌≡◌, length};
ghost use Rattle.coefficients.specs.Coefficients.{coefficients, element_at, record_of};

use matrix::{Matrix, Row};
use ring::Element;

// The sixteen coefficients, each at its index.
pub fn coefficients(m: Matrix) -> [i64; 16]
    ensures { result ≡ coefficients m }
{
    let a = m.top.left;
    let b = m.top.right;
    let c = m.bottom.left;
    let d = m.bottom.right;
    [
        a.a0, a.a1, a.a2, a.a3, b.a0, b.a1, b.a2, b.a3, c.a0, c.a1, c.a2, c.a3, d.a0, d.a1, d.a2,
        d.a3,
    ]
}

// The element whose coefficients stand first.
fn first_element(list: &[i64]) -> Element
    requires { 4 ≤ length list.now }
    ensures { result ≡ element_at list.now 0 }
{
    Element {
        a0: list[0],
        a1: list[1],
        a2: list[2],
        a3: list[3],
    }
}

// The record of an exponent and sixteen coefficients.
#[tactic(auto, using(crate::proofs::ReadBack::element_after), unfolding(crate::specs::Coefficients::record_of))]
pub fn record_of(exponent: u32, list: &[i64; 16]) -> Matrix
    ensures { result ≡ record_of exponent list.now }
{
    Matrix {
        exponent,
        top: Row {
            left: first_element(list),
            right: first_element(&list[4..]),
        },
        bottom: Row {
            left: first_element(&list[8..]),
            right: first_element(&list[12..]),
        },
    }
}
