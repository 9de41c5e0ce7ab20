// A test program over the calls that the two programs do not make: `read TEXT`, `compare A B`, `matrix TEXT` and
// `frame TEXT`, one line out for each.
#![tactic(auto)]

ghost use Rattle.std.specs.Prelude.{◌≡◌, ◌+◌, ◌≤◌, length};
ghost use Rattle.answer.specs.Limits.{form_limit, frame_length};
ghost use Rattle.arrayvec.specs.ArrayVec.{array_vec_len};

use answer::{FORM_LIMIT, FRAME_LENGTH, Refusal};
use arrayvec::ArrayVec;
use compare::{Refused, Relation, Which};
use lines::{BLOCK, Lines, Output, put};
use matrix::Matrix;
use memchr::memchr;
use read_form::Reading;
use report::{put_field, put_number, put_refusal};
use std::io::{Read, Write};

// `read ` and one byte more than a form may have, so that a longer text is seen to be longer. A comparison's two strings
// need less.
const LINE: usize = FORM_LIMIT + 6;

// The longest answer, that of a matrix: `ok`, an exponent, sixteen coefficients with their signs, and a line end.
const ROOM: usize = 376;

// The line of an answer: it is begun anew for each line, and lent to what answers, since an array that is handed back is copied.
type Answer = ArrayVec<u8, ROOM>;

fn begin(answer: &mut Answer, text: &[u8])
    requires { length text.now ≤ ROOM }
    ensures { answer.new.items ≡ text.now }
{
    answer.clear();
    put(answer, text);
}

// A whole number after a space.
fn put_signed(answer: &mut Answer, z: i64)
    requires { array_vec_len answer.old + 22 ≤ ROOM }
    ensures { array_vec_len answer.new ≤ array_vec_len answer.old + 22 }
{
    if z < 0 {
        put(answer, b" -");
    } else {
        put(answer, b" ");
    }
    put_number(answer, z.unsigned_abs());
}

// `ok`, the exponent and the sixteen coefficients.
fn answer_matrix(answer: &mut Answer, m: Matrix) {
    begin(answer, b"ok");
    put_field(answer, m.exponent as u64);
    for z in coefficients::coefficients(m) {
        put_signed(answer, z);
    }
    put(answer, b"\n");
}

// `ok`, length, T-count, H-count and tail number.
fn answer_reading(answer: &mut Answer, reading: Reading) {
    let figures = reading.figures;
    begin(answer, b"ok");
    put_field(answer, figures.length as u64);
    put_field(answer, figures.tcount as u64);
    put_field(answer, figures.hcount as u64);
    put_field(answer, reading.tail as u64);
    put(answer, b"\n");
}

fn answer_relation(answer: &mut Answer, relation: Relation) {
    match relation {
        Relation::Same => begin(answer, b"same\n"),
        Relation::Different => begin(answer, b"different\n"),
        Relation::Phase(phase) => {
            begin(answer, b"phase");
            put_field(answer, phase as u64);
            put(answer, b"\n");
        }
    }
}

// `no`, refusal, place.
fn answer_refusal(answer: &mut Answer, refusal: Refusal) {
    answer.clear();
    put_refusal(answer, refusal);
}

// `no`, refusal, place, and which string it concerns: report's `put_refusal` ends the line before that.
fn answer_refused(answer: &mut Answer, refused: Refused) {
    begin(answer, b"no");
    put_field(answer, refused.refusal.number() as u64);
    put_field(answer, refused.refusal.place() as u64);
    match refused.which {
        Which::First => put(answer, b" first\n"),
        Which::Second => put(answer, b" second\n"),
    }
}

// Room for a frame.
fn frame_buffer() -> [u8; FRAME_LENGTH]
    ensures { frame_length ≡ length result }
{
    [0; FRAME_LENGTH]
}

// A frame read and written again.
fn frame_again(answer: &mut Answer, text: &[u8]) -> Result<(), Refusal> {
    let mut frame = frame_buffer();
    frame::matrix_to_frame(frame::frame_to_matrix(text)?, &mut frame)?;
    begin(answer, b"ok ");
    put(answer, &frame);
    put(answer, b"\n");
    Ok(())
}

// A text's first word, and what comes after the space behind it.
fn split_word(text: &[u8]) -> (&[u8], &[u8]) {
    match memchr(b' ', text) {
        Some(end) => (&text[..end], &text[end + 1..]),
        None => (text, &[]),
    }
}

fn compared(answer: &mut Answer, texts: &[u8]) {
    let (first, second) = split_word(texts);
    match compare::compare(first, second) {
        Ok(relation) => answer_relation(answer, relation),
        Err(refused) => answer_refused(answer, refused),
    }
}

// The answer to a line, which names a call.
fn answer_line(answer: &mut Answer, line: &[u8]) {
    let (name, text) = split_word(line);
    let answered = match name {
        b"read" => read_form::read_form(text).map(|reading| answer_reading(answer, reading)),
        b"compare" => Ok(compared(answer, text)),
        b"matrix" => string_to_matrix::string_to_matrix(text).map(|m| answer_matrix(answer, m)),
        b"frame" => frame_again(answer, text),
        _ => Ok(begin(answer, b"no such call\n")),
    };
    if let Err(refusal) = answered {
        answer_refusal(answer, refusal);
    }
}

// The answer to a line, added to the output.
fn put_line(output: &mut Output, answer: &mut Answer, line: &[u8])
    requires { array_vec_len output.old + ROOM ≤ BLOCK }
{
    answer_line(answer, line);
    put(output, answer.as_slice());
}

// Answers each line. A line is held as `LINE` says.
fn run<R: Read + Drop, W: Write + Drop, const N: usize>(lines: &mut Lines<R, W, N>)
    requires { form_limit + 6 ≡ N }
{
    let mut answer = Answer::new();
    // Where reading or writing fails, the program ends as at the end of the input.
    let _ = lines.each_line(
        ROOM,
        |line, output|
            requires { array_vec_len output.old + ROOM ≤ BLOCK }
        { put_line(output, &mut answer, line) },
    );
}

fn main(rt: HostRuntime) {
    let mut lines: Lines<_, _, LINE> = Lines::new(rt.stdin(), rt.stdout());
    run(&mut lines);
}
