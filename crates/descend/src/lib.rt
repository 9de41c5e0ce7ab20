// A unitary record taken down in machine arithmetic: the vector of its first column tells each letter that is taken off.
#![tactic(auto)]

ghost use Rattle.std.specs.Prelude.{pos, false, IsTrue, ◌&&◌, ◌≡◌, ◌^◌, ◌+ℤ◌, ◌-ℤ◌};
ghost use Rattle.std.specs.Int.Signed.{lt_z};
ghost use Rattle.algebra.specs.Parity.{odd};
ghost use Rattle.ring.specs.Element.{size_whole, size_root2};
ghost use Rattle.ring.specs.Bounds.{Small};
ghost use Rattle.ring.specs.Real.{number};
ghost use Rattle.complete.specs.Vector.{vector_of};
ghost use Rattle.complete.specs.Descent.{without_S, without_H, without_X, without_T, lowered, past_S, past_H, past_T, off_y, off_x, downward, turned_up, by_sign, phase};
ghost use Rattle.turn.specs.Room.{RoomyRecord};

use complete::Rest;
use matrix::Matrix;
use ring::{Element, Real, Vector};
use std::cmp::Ordering;

// 2·p = x + iy: x, and y.
fn x_of(p: Element) -> Real
    requires { Small (2 ^ 60) p }
    ensures { result ≡ number (p.a0 +ℤ p.a0) (p.a1 -ℤ p.a3) }
{
    Real {
        whole: p.a0 + p.a0,
        root2: p.a1 - p.a3,
    }
}

fn y_of(p: Element) -> Real
    requires { Small (2 ^ 60) p }
    ensures { result ≡ number (p.a2 +ℤ p.a2) (p.a1 +ℤ p.a3) }
{
    Real {
        whole: p.a2 + p.a2,
        root2: p.a1 + p.a3,
    }
}

// |u|² − |t|²
fn z_of(u: Element, t: Element) -> Real
    requires small { Small (2 ^ 20) u }
    requires small_2 { Small (2 ^ 20) t }
    ensures { result ≡ number (size_whole u -ℤ size_whole t) (size_root2 u -ℤ size_root2 t) }
{
    let up = u.times(u.conjugated());
    let down = t.times(t.conjugated());
    let z = up.plus(down.negated());
    Real {
        whole: z.a0,
        root2: z.a1,
    }
}

// The vector of a record's first column.
pub fn vector_of(m: Matrix) -> Vector
    requires small { Small (2 ^ 20) m.top.left }
    requires small_2 { Small (2 ^ 20) m.bottom.left }
    ensures { result ≡ vector_of m }
{
    let u = m.top.left;
    let t = m.bottom.left;
    let p = t.times(u.conjugated());
    Vector {
        x: x_of(p),
        y: y_of(p),
        z: z_of(u, t),
    }
}

// Whether the whole parts of two numbers are both odd.
pub fn odd_pair(a: Real, b: Real) -> bool
    ensures { result ≡ odd a.whole && odd b.whole }
{
    a.is_odd() && b.is_odd()
}

// A letter taken off a record, and off its vector.
fn without<M: FnOnce(Matrix) -> Matrix, V: FnOnce(Vector) -> Vector>(
    r: Rest,
    record_without: M,
    vector_without: V,
) -> Rest
    requires record_room { M.pre record_without r.matrix }
    requires vector_room { V.pre vector_without r.vector }
    ensures matrix { M.post record_without r.matrix result.matrix }
    ensures vector { V.post vector_without r.vector result.vector }
{
    Rest {
        matrix: record_without(r.matrix),
        vector: vector_without(r.vector),
    }
}

// Room stands in the contracts, as in `turn`: a step may use it up.
fn without_s(r: Rest) -> Rest
    requires { RoomyRecord r.matrix }
    ensures { result ≡ without_S r }
{
    without(r, turn::record_without_s, turn::vector_without_s)
}

fn without_h(r: Rest) -> Rest
    requires { RoomyRecord r.matrix }
    ensures { result ≡ without_H r }
{
    without(r, turn::record_without_h, turn::vector_without_h)
}

fn without_x(r: Rest) -> Rest
    requires { RoomyRecord r.matrix }
    ensures { result ≡ without_X r }
{
    without(r, turn::record_without_x, turn::vector_without_x)
}

fn without_t(r: Rest) -> Rest
    requires { RoomyRecord r.matrix }
    ensures { result ≡ without_T r }
{
    without(r, turn::record_without_t, turn::vector_without_t)
}

fn lowered(r: Rest) -> Rest
    ensures { result ≡ lowered r }
{
    Rest {
        vector: turn::vector_lowered(r.vector),
        ..r
    }
}

// A letter taken off, where a test tells it.
fn past<F: FnOnce(Rest) -> Rest>(taken: bool, r: Rest, without: F) -> Rest
    requires { F.pre without r }
    ensures taken { IsTrue taken → F.post without r result }
    ensures left { taken ≡ false → result ≡ r }
{
    if taken { without(r) } else { r }
}

// Above exponent 0: S taken off where x and z are odd, then H where y and z are, then T where x and y are.
#[tactic(auto, unfolding(complete::specs::Descent::past_S))]
pub fn past_s(r: Rest) -> Rest
    requires { RoomyRecord r.matrix }
    ensures { result ≡ past_S r }
{
    let v = r.vector;
    past(odd_pair(v.x, v.z), r, without_s)
}

#[tactic(auto, unfolding(complete::specs::Descent::past_H))]
pub fn past_h(r: Rest) -> Rest
    requires { RoomyRecord r.matrix }
    ensures { result ≡ past_H r }
{
    let v = r.vector;
    past(odd_pair(v.y, v.z), r, without_h)
}

#[tactic(auto, unfolding(complete::specs::Descent::past_T))]
pub fn past_t(r: Rest) -> Rest
    requires { RoomyRecord r.matrix }
    ensures { result ≡ past_T r }
{
    let v = r.vector;
    if odd_pair(v.x, v.y) {
        without_t(r)
    } else {
        lowered(r)
    }
}

// At exponent 0: S taken off from the y axis, H from the x axis, X from −z.
#[tactic(auto, unfolding(complete::specs::Descent::off_y))]
pub fn off_y(r: Rest) -> Rest
    requires { RoomyRecord r.matrix }
    ensures { result ≡ off_y r }
{
    let v = r.vector;
    past(v.y.is_odd(), r, without_s)
}

#[tactic(auto, unfolding(complete::specs::Descent::off_x))]
pub fn off_x(r: Rest) -> Rest
    requires { RoomyRecord r.matrix }
    ensures { result ≡ off_x r }
{
    let v = r.vector;
    past(v.x.is_odd(), r, without_h)
}

// Whether the vector points below the plane.
pub fn is_downward(v: Vector) -> bool
    ensures { result ≡ lt_z v.z.whole (pos 0) }
{
    v.z.is_negative()
}

#[tactic(auto, unfolding(complete::specs::Descent::turned_up))]
pub fn turned_up(r: Rest) -> Rest
    requires { RoomyRecord r.matrix }
    ensures { result ≡ turned_up r }
{
    let v = r.vector;
    past(is_downward(v), r, without_x)
}

#[tactic(auto, unfolding(complete::specs::Descent::by_sign))]
fn by_sign(z: i64, above: u8, below: u8, at: u8) -> u8
    ensures { result ≡ by_sign z above below at }
{
    match z.cmp(&0) {
        Ordering::Greater => above,
        Ordering::Less => below,
        Ordering::Equal => at,
    }
}

// j, of a positive multiple of ω^j or of √2·ω^j.
pub fn phase(x: Element) -> u8
    ensures { result ≡ phase x }
{
    let above = by_sign(x.a3, 2, 0, 1);
    let below = by_sign(x.a3, 4, 6, 5);
    let sides = by_sign(x.a1, above, below, by_sign(x.a3, 3, 7, 0));
    let right = by_sign(x.a2, 1, 7, 0);
    let left = by_sign(x.a2, 3, 5, 4);
    by_sign(x.a0, right, left, by_sign(x.a2, 2, 6, sides))
}
