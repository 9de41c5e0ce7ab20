// The calls for C and Rust: numbers and lent slices in, one answer word out.
#![tactic(auto)]

ghost use Rattle.std.specs.Prelude.{◌≡◌, Ok, Err};
ghost use Rattle.answer.specs.Refusal.{number, place, said};
ghost use Rattle.coefficients.specs.Coefficients.{coefficients};
ghost use Rattle.compare.specs.Promise.{verdict};
ghost use Rattle.chorvadhim.specs.Word.{refusal_word, figures_word, reading_word, record_word, verdict_word, packed, Legible, LegibleRefusal, LegibleFigures, LegibleReading, LegibleRecord, LegibleVerdict};
ghost use Rattle.chorvadhim.specs.Promise.{left_in, StringToFormWord, MatrixToFormWord, FrameToFormWord, ReadFormWord, CompareWord, StringToMatrixWord, FrameToMatrixWord, MatrixToFrameWord};

use answer::{Figures, Refusal};
use compare::{Refused, Relation};
use matrix::Matrix;
use read_form::Reading;

// The bits of an answer word at which its values begin.
const BIT_8: u64 = 1 << 8;

const BIT_24: u64 = 1 << 24;

const BIT_40: u64 = 1 << 40;

const BIT_56: u64 = 1 << 56;

// What a comparison says of different strings.
const DIFFERENT: u64 = 8;

fn refusal_word(refusal: Refusal) -> u64
    requires { LegibleRefusal (number refusal) (place refusal) }
    ensures { result ≡ refusal_word (number refusal) (place refusal) }
{
    (refusal.number() as u64) + BIT_8 * (refusal.place() as u64)
}

fn figures_word(figures: Figures) -> u64
    requires { LegibleFigures figures }
    ensures { result ≡ figures_word figures }
{
    let length = figures.length as u64;
    let tcount = figures.tcount as u64;
    let hcount = figures.hcount as u64;
    BIT_8 * length + BIT_24 * tcount + BIT_40 * hcount
}

fn reading_word(reading: Reading) -> u64
    requires { LegibleReading reading }
    ensures { result ≡ reading_word reading }
{
    figures_word(reading.figures) + BIT_56 * (reading.tail as u64)
}

fn relation_word(relation: Relation) -> u64
    requires { LegibleVerdict (verdict (Ok relation)) }
    ensures { result ≡ verdict_word (verdict (Ok relation)) }
{
    match relation {
        Relation::Same => 0,
        Relation::Phase(j) => BIT_8 * (j as u64),
        Relation::Different => BIT_8 * DIFFERENT,
    }
}

fn refused_word(refused: Refused) -> u64
    requires { LegibleVerdict (verdict (Err refused)) }
    ensures { result ≡ verdict_word (verdict (Err refused)) }
{
    refusal_word(refused.refusal) + BIT_40 * (refused.which as u64)
}

// A record's coefficients left in a lent array, and its word.
fn put_record(m: Matrix, lent: &mut [i64; 16]) -> u64
    requires { LegibleRecord m }
    ensures value { result ≡ record_word m }
    ensures lent_after { lent.new ≡ coefficients m }
{
    *lent = coefficients::coefficients(m);
    BIT_8 * (m.exponent as u64)
}

// The word of a call that returns a record, which is left in a lent array; a refusal leaves the array. Tried `map_or_else`: of
// what a closure left in the lent array no contract of the library speaks.
fn returned_word(returned: Result<Matrix, Refusal>, lent: &mut [i64; 16]) -> u64
    requires { Legible LegibleRecord (said returned) }
    ensures value { result ≡ packed record_word (said returned) }
    ensures lent_after { lent.new ≡ left_in (said returned) lent.old }
{
    match returned {
        Ok(m) => put_record(m, lent),
        Err(refusal) => refusal_word(refusal),
    }
}

// The C interface: eight calls by their names, each packing what the library's call answers.

pub fn chorvadhim_string_to_form(text: &[u8], buffer: &mut [u8]) -> u64
    ensures { StringToFormWord text.now buffer.old result buffer.new }
{
    string_to_form::string_to_form(text, buffer).map_or_else(refusal_word, figures_word)
}

pub fn chorvadhim_matrix_to_form(exponent: u32, coefficients: &[i64; 16], buffer: &mut [u8]) -> u64
    ensures { MatrixToFormWord exponent coefficients.now buffer.old result buffer.new }
{
    let m = coefficients::record_of(exponent, coefficients);
    matrix_to_form::matrix_to_form(m, buffer).map_or_else(refusal_word, figures_word)
}

pub fn chorvadhim_frame_to_form(text: &[u8], buffer: &mut [u8]) -> u64
    ensures { FrameToFormWord text.now buffer.old result buffer.new }
{
    frame_to_form::frame_to_form(text, buffer).map_or_else(refusal_word, figures_word)
}

pub fn chorvadhim_read_form(text: &[u8]) -> u64
    ensures { ReadFormWord text.now result }
{
    read_form::read_form(text).map_or_else(refusal_word, reading_word)
}

pub fn chorvadhim_compare(first: &[u8], second: &[u8]) -> u64
    ensures { CompareWord first.now second.now result }
{
    compare::compare(first, second).map_or_else(refused_word, relation_word)
}

pub fn chorvadhim_string_to_matrix(text: &[u8], coefficients: &mut [i64; 16]) -> u64
    ensures { StringToMatrixWord text.now coefficients.old result coefficients.new }
{
    returned_word(string_to_matrix::string_to_matrix(text), coefficients)
}

pub fn chorvadhim_frame_to_matrix(text: &[u8], coefficients: &mut [i64; 16]) -> u64
    ensures { FrameToMatrixWord text.now coefficients.old result coefficients.new }
{
    returned_word(frame::frame_to_matrix(text), coefficients)
}

pub fn chorvadhim_matrix_to_frame(exponent: u32, coefficients: &[i64; 16], buffer: &mut [u8]) -> u64
    ensures { MatrixToFrameWord exponent coefficients.now buffer.old result buffer.new }
{
    let m = coefficients::record_of(exponent, coefficients);
    frame::matrix_to_frame(m, buffer).map_or_else(refusal_word, |()| 0)
}
