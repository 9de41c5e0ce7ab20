// String to matrix: the least record of a string's matrix.
#![tactic(auto)]

ghost use Rattle.std.specs.Prelude.{◌≤◌, ◌≡◌, ◌↔◌, true};
ghost use Rattle.ring.specs.Element.{nothing};
ghost use Rattle.ring.specs.Bounds.{Small};
ghost use Rattle.ring.specs.Divided.{Root2Divides};
ghost use Rattle.matrix.specs.Matrix.{matrix, identity, times, LeastRecord};
ghost use Rattle.matrix.specs.Letter.{gate, matrix_of};
ghost use Rattle.form.specs.Form.{Form, FormLetter};
ghost use Rattle.form.specs.Count.{t_count};
ghost use Rattle.answer.specs.Refusal.{said};
ghost use Rattle.string_to_matrix.specs.Promise.{StringToMatrix};
ghost use Rattle.string_to_matrix.specs.Room.{t_limit, Roomy, Reducible, Reduces, Lowered};

use answer::{EXPONENT_LIMIT, FORM_LIMIT, Refusal};
use matrix::{Matrix, Row};
use ring::Element;

// The T's that the form of a record within the exponent limit holds at most.
const T_LIMIT: usize = 2 * (EXPONENT_LIMIT as usize) + 1;

// A unitary record whose exponent is low enough that its coefficients leave room in 64 bits.
#[derive(Clone, Copy)]
struct RoomyRecord {
    matrix: Matrix,
    ghost roomy: { Roomy matrix },
}

// The matrix of the empty string.
#[tactic(auto, unfolding(matrix::specs::Matrix::identity, ring::specs::Element::nothing, ring::specs::Element::one))]
fn identity() -> Matrix
    ensures { result ≡ identity }
{
    Matrix {
        exponent: 0,
        top: Row {
            left: Element::ONE,
            right: Element::NOTHING,
        },
        bottom: Row {
            left: Element::NOTHING,
            right: Element::ONE,
        },
    }
}

// diag(u, w) times a record.
fn by_diagonal(u: Element, w: Element, roomy: RoomyRecord) -> Matrix
    requires small { Small 1 u }
    requires small_2 { Small 1 w }
    ensures { result ≡ times (matrix 0 u nothing nothing w) (roomy.matrix) }
{
    let m = roomy.matrix;
    Matrix {
        exponent: m.exponent,
        top: Row {
            left: u.times(m.top.left),
            right: u.times(m.top.right),
        },
        bottom: Row {
            left: w.times(m.bottom.left),
            right: w.times(m.bottom.right),
        },
    }
}

// A letter of a form, its matrix times a record. H and X are their own inverses: they come on as they are taken off.
#[tactic(auto, using(crate::proofs::Gates::letter_products))]
fn prefixed(letter: u8, roomy: RoomyRecord) -> Matrix
    requires { FormLetter letter }
    ensures { result ≡ times (gate letter) (roomy.matrix) }
{
    match letter {
        b'H' => turn::record_without_h(roomy.matrix),
        b'S' => by_diagonal(Element::ONE, Element::OMEGA2, roomy),
        b'T' => by_diagonal(Element::ONE, Element::OMEGA, roomy),
        b'W' => by_diagonal(Element::OMEGA, Element::OMEGA, roomy),
        _ => turn::record_without_x(roomy.matrix),
    }
}

// A form's letters multiplied out, from its right end.
fn product_of(form: &[u8]) -> RoomyRecord
    requires form { Form form.now }
    requires form_bound { t_count form.now ≤ t_limit }
    ensures { result.matrix ≡ matrix_of form.now }
{
    let mut product = identity();
    // By place: a must-fail edit can then read a wrong letter, and change nothing else.
    for done in 0..form.len() {
        let letter = form[form.len() - 1 - done];
        product = prefixed(letter, RoomyRecord { matrix: product });
    }
    RoomyRecord { matrix: product }
}

// Whether √2 divides both elements of a row.
fn divides_by_root2(row: Row) -> bool
    ensures { result ≡ true ↔ Root2Divides row.left × Root2Divides row.right }
{
    row.left.divides_by_root2() && row.right.divides_by_root2()
}

// Whether the exponent can fall: √2 divides every element.
fn reducible(m: Matrix) -> bool
    ensures { Reduces m result }
{
    m.exponent != 0 && divides_by_root2(m.top) && divides_by_root2(m.bottom)
}

// The elements divided by √2, at one exponent less.
fn lowered(roomy: RoomyRecord) -> RoomyRecord
    requires { Reducible (roomy.matrix) }
    ensures { Lowered (roomy.matrix) result.matrix }
{
    let m = roomy.matrix;
    let matrix = Matrix {
        exponent: m.exponent - 1,
        top: Row {
            left: m.top.left.over_root2(),
            right: m.top.right.over_root2(),
        },
        bottom: Row {
            left: m.bottom.left.over_root2(),
            right: m.bottom.right.over_root2(),
        },
    };
    RoomyRecord { matrix }
}

// The least record. A `while`, since it counts nothing.
fn least(product: RoomyRecord) -> Matrix
    ensures { LeastRecord product.matrix result }
{
    let mut r = product;
    while reducible(r.matrix) {
        r = lowered(r);
    }
    r.matrix
}

// A form with few T's, multiplied out and reduced.
#[tactic(auto, using(crate::proofs::High::form_refused, crate::proofs::High::form_answered))]
fn of_form(form: &[u8]) -> Result<Matrix, Refusal>
    requires form { Form form.now }
    requires form_bound { t_count form.now ≤ t_limit }
    ensures { StringToMatrix form.now (said result) }
{
    let product = product_of(form);
    let record = least(product);
    if EXPONENT_LIMIT < record.exponent {
        return Err(Refusal::HighLeastExponent);
    }
    Ok(record)
}

// String to matrix. A form with many T's has a least exponent above the limit, which is known without its matrix.
#[tactic(auto, using(crate::proofs::Squeezed::refused_too, crate::proofs::Squeezed::formed_many, crate::proofs::Squeezed::formed_answer))]
pub fn string_to_matrix(text: &[u8]) -> Result<Matrix, Refusal>
    ensures { StringToMatrix text.now (said result) }
{
    let mut form = [0; FORM_LIMIT];
    let figures = string_to_form::string_to_form(text, &mut form)?;
    if T_LIMIT < figures.tcount {
        return Err(Refusal::HighLeastExponent);
    }
    of_form(&form[..figures.length])
}
