// Completeness: every unitary record is, in meaning, the matrix of a letter list. The record is taken down letter by letter,
// led by the Bloch vector of its first column.
#![tactic(auto)]

use matrix::Matrix;
use ring::Vector;

// What is left of a record when letters are taken off its left, with the vector of its first column.
#[derive(Clone, Copy)]
pub struct Rest {
    pub matrix: Matrix,
    pub vector: Vector,
}
