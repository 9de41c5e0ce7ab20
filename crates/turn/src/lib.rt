// A letter taken off the left of a record in machine arithmetic, with the vector of its first column: S and T permute and
// negate coefficients, X exchanges the rows, and H adds and subtracts them.
#![tactic(auto)]

ghost use Rattle.std.specs.Prelude.{◌≡◌, ◌^◌};
ghost use Rattle.ring.specs.Bounds.{Small};
ghost use Rattle.complete.specs.Descent.{turned_back, vector_without_S, vector_without_H, vector_without_X, vector_without_T, vector_lowered, record_without_S, record_without_H, record_without_X, record_without_T};
ghost use Rattle.turn.specs.Room.{RoomyRecord};

use matrix::{Matrix, Row};
use ring::{Element, Vector};

#[tactic(auto, unfolding(complete::specs::Descent::vector_without_S))]
pub fn vector_without_s(v: Vector) -> Vector
    ensures { result ≡ vector_without_S v }
{
    Vector {
        x: v.y,
        y: v.x.negated(),
        z: v.z,
    }
}

#[tactic(auto, unfolding(complete::specs::Descent::vector_without_H))]
pub fn vector_without_h(v: Vector) -> Vector
    ensures { result ≡ vector_without_H v }
{
    Vector {
        x: v.z,
        y: v.y.negated(),
        z: v.x,
    }
}

#[tactic(auto, unfolding(complete::specs::Descent::vector_without_X))]
pub fn vector_without_x(v: Vector) -> Vector
    ensures { result ≡ vector_without_X v }
{
    Vector {
        x: v.x,
        y: v.y.negated(),
        z: v.z.negated(),
    }
}

#[tactic(auto, unfolding(complete::specs::Descent::vector_without_T))]
pub fn vector_without_t(v: Vector) -> Vector
    ensures { result ≡ vector_without_T v }
{
    Vector {
        x: v.x.half_sum(v.y),
        y: v.y.half_difference(v.x),
        z: v.z.over_root2(),
    }
}

// Nothing taken off: the vector is over one √2 less.
#[tactic(auto, unfolding(complete::specs::Descent::vector_lowered))]
pub fn vector_lowered(v: Vector) -> Vector
    ensures { result ≡ vector_lowered v }
{
    Vector {
        x: v.x.over_root2(),
        y: v.y.over_root2(),
        z: v.z.over_root2(),
    }
}

// ω⁻¹ times an element.
fn turned_back(x: Element) -> Element
    requires { Small (2 ^ 61) x }
    ensures { result ≡ turned_back x }
{
    Element {
        a0: x.a1,
        a1: x.a2,
        a2: x.a3,
        a3: -x.a0,
    }
}

// Room stands in the contracts and is no invariant of a record: H may double its elements.
#[tactic(auto, unfolding(complete::specs::Descent::record_without_T))]
pub fn record_without_t(m: Matrix) -> Matrix
    requires { RoomyRecord m }
    ensures { result ≡ record_without_T m }
{
    Matrix {
        bottom: Row {
            left: turned_back(m.bottom.left),
            right: turned_back(m.bottom.right),
        },
        ..m
    }
}

// S is T twice.
#[tactic(auto, unfolding(complete::specs::Descent::record_without_S, complete::specs::Descent::record_without_T))]
pub fn record_without_s(m: Matrix) -> Matrix
    requires { RoomyRecord m }
    ensures { result ≡ record_without_S m }
{
    record_without_t(record_without_t(m))
}

#[tactic(auto, unfolding(complete::specs::Descent::record_without_X))]
pub fn record_without_x(m: Matrix) -> Matrix
    ensures { result ≡ record_without_X m }
{
    Matrix {
        top: m.bottom,
        bottom: m.top,
        ..m
    }
}

pub fn record_without_h(m: Matrix) -> Matrix
    requires { RoomyRecord m }
    ensures { result ≡ record_without_H m }
{
    let a = m.top.left;
    let b = m.top.right;
    let c = m.bottom.left;
    let d = m.bottom.right;
    Matrix {
        exponent: m.exponent + 1,
        top: Row {
            left: a.plus(c),
            right: b.plus(d),
        },
        bottom: Row {
            left: a.plus(c.negated()),
            right: b.plus(d.negated()),
        },
    }
}
