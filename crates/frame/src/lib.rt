// Matrix frames: read, and written.
#![tactic(auto)]

ghost use Rattle.std.specs.Prelude.{◌≡◌, ◌+◌, ◌*◌, ◌%◌, ◌^◌, ◌<◌, ◌≤◌, true, ◌↔◌, length, map, slice_range, EachIndex, slice_index};
ghost use Rattle.std.specs.Int.{cast_signed};
ghost use mir.Syntax.{w32};
ghost use Rattle.lists.specs.Found.{Finds};
ghost use Rattle.answer.specs.Limits.{frame_length};
ghost use Rattle.answer.specs.Refusal.{said};
ghost use Rattle.answer.specs.Written.{put};
ghost use Rattle.coefficients.specs.Coefficients.{coefficients, record_of};
ghost use Rattle.frame.specs.Digit.{digit, is_digit, digits, Digits};
ghost use Rattle.frame.specs.Frame.{words, words_text, total, check_word, frame_text, InWords};
ghost use Rattle.frame.specs.Calls.{FrameToMatrix, MatrixToFrame};
ghost use Rattle.frame.specs.Parts.{digit_value, number_of};

use answer::{CHECK_WORD_PLACE, FRAME_LENGTH, Refusal};
use matrix::Matrix;

// The number below sixteen that a digit stands for: its lowest four bits, with 9 more for a letter.
#[tactic(auto, unfolding(crate::specs::Parts::digit_value))]
fn digit_value(b: u8) -> u8
    ensures value { result ≡ digit_value b }
    ensures below { result < 16 }
{
    (b % 16 + 9 * (b / 64)) % 16
}

// The digit for a number below sixteen.
#[tactic(auto, using(crate::proofs::Digits::digit_low, crate::proofs::Digits::digit_high))]
fn digit_of(n: u8) -> u8
    requires { n < 16 }
    ensures { result ≡ digit n }
{
    if n < 10 { b'0' + n } else { b'a' + (n - 10) }
}

// 0-9 and a-f: a byte that is the digit for its number.
#[tactic(auto, using(crate::proofs::Digits::is_its_digit))]
fn is_digit(b: u8) -> bool
    ensures { result ≡ is_digit b }
{
    digit_of(digit_value(b)) == b
}

// Whether every byte is a digit. The walk goes to the end, so that a compiler can take many bytes at a time.
fn are_digits(text: &[u8]) -> bool
    ensures { result ≡ true ↔ Digits text.now }
{
    text.iter().fold(true, |all, b| all & is_digit(*b))
}

// The first place of a byte that is no digit.
fn first_bad_digit(text: &[u8]) -> Option<usize>
    ensures { Finds is_digit text.now result }
{
    if are_digits(text) {
        return None;
    }
    text.iter().position(|b| !is_digit(*b))
}

// The number that up to eight digits stand for.
fn number(text: &[u8]) -> u32
    requires { length text.now ≤ 8 }
    ensures value { result ≡ number_of text.now }
    ensures below { result < 16 ^ length text.now }
{
    let mut n = 0;
    for b in text {
        n = n * 16 + u32::from(digit_value(*b));
    }
    n
}

// A number in as many digits as there is room for, the last first.
fn write_number(part: &mut [u8], n: u32)
    ensures { part.new ≡ digits (length part.old) n }
{
    let mut rest = n;
    // By place: no invariant tells what a walk over `iter_mut().rev()` has written.
    for i in (0..part.len()).rev() {
        part[i] = digit_of((rest % 16) as u8);
        rest /= 16;
    }
}

// The sixteen words that 128 digits stand for, by place as in `write_words`.
fn read_words(text: &[u8]) -> [u32; 16]
    requires { length text.now ≡ 128 }
    ensures { EachIndex result (λ i. slice_index result i ≡ number_of (slice_range text.now (8 * i) (8 * i + 8))) }
{
    let mut words = [0; 16];
    for (i, word) in words.iter_mut().enumerate() {
        *word = number(&text[8 * i..8 * i + 8]);
    }
    words
}

// Sixteen words in eight digits each.
fn write_words(part: &mut [u8], words: &[u32; 16])
    requires { length part.old ≡ 128 }
    ensures { part.new ≡ words_text words.now }
{
    // By place: no invariant tells what a walk over `chunks_exact_mut(8)` has written.
    for (i, word) in words.iter().enumerate() {
        write_number(&mut part[8 * i..8 * i + 8], *word);
    }
}

// The check word: a sum that wraps.
fn check_word(exponent: u32, words: &[u32; 16]) -> u32
    ensures { result ≡ (exponent + total words.now) % 2 ^ 32 }
{
    let mut sum = exponent;
    for word in words {
        sum = sum.wrapping_add(*word);
    }
    sum
}

// The words of a record: its coefficients in two's complement.
fn words_of(m: Matrix) -> [u32; 16]
    requires { InWords (coefficients m) }
    ensures { result ≡ words (coefficients m) }
{
    coefficients::coefficients(m).map(|n| (n as i32).cast_unsigned())
}

// The record of an exponent and sixteen words.
fn record_of(exponent: u32, words: [u32; 16]) -> Matrix
    ensures { result ≡ record_of exponent (map (λ w. cast_signed w32 w) words) }
{
    let list = words.map(|word| i64::from(word.cast_signed()));
    coefficients::record_of(exponent, &list)
}

// A frame of 138 digits: its check word, and then its record.
fn read_digits(text: &[u8]) -> Result<Matrix, Refusal>
    requires digits { Digits text.now }
    requires text_len { length text.now ≡ frame_length }
    ensures { FrameToMatrix text.now (said result) }
{
    let exponent = number(&text[..2]);
    let words = read_words(&text[2..CHECK_WORD_PLACE]);
    if number(&text[CHECK_WORD_PLACE..]) != check_word(exponent, &words) {
        return Err(Refusal::BadCheckWord);
    }
    let m = record_of(exponent, words);
    accept_record::judge(m)?;
    Ok(m)
}

// Frame to matrix.
#[tactic(auto, using(crate::proofs::Refused::short_frame, crate::proofs::Refused::long_frame, crate::proofs::Refused::wrong_digit))]
pub fn frame_to_matrix(text: &[u8]) -> Result<Matrix, Refusal>
    ensures { FrameToMatrix text.now (said result) }
{
    if text.len() < FRAME_LENGTH {
        return Err(Refusal::BadFrame { place: text.len() });
    }
    if FRAME_LENGTH < text.len() {
        return Err(Refusal::BadFrame {
            place: FRAME_LENGTH,
        });
    }
    match first_bad_digit(text) {
        Some(place) => Err(Refusal::BadFrame { place }),
        None => read_digits(text),
    }
}

// The 138 digits of a record, at the start of the buffer.
fn write_digits(buffer: &mut [u8], m: Matrix)
    requires frame_length_in_bounds { frame_length ≤ length buffer.old }
    requires in_words { InWords (coefficients m) }
    ensures { buffer.new ≡ put (frame_text m (check_word m)) buffer.old }
{
    let words = words_of(m);
    write_number(&mut buffer[..2], m.exponent);
    write_words(&mut buffer[2..CHECK_WORD_PLACE], &words);
    write_number(
        &mut buffer[CHECK_WORD_PLACE..FRAME_LENGTH],
        check_word(m.exponent, &words),
    );
}

// Matrix to frame.
#[tactic(auto, using(crate::specs::Calls::refused_record, crate::proofs::Refused::short_buffer, crate::proofs::Refused::long_buffer, crate::proofs::Words::accepted_in_words))]
pub fn matrix_to_frame(m: Matrix, buffer: &mut [u8]) -> Result<(), Refusal>
    ensures { MatrixToFrame m buffer.old (said result) buffer.new }
{
    accept_record::judge(m)?;
    if buffer.len() < FRAME_LENGTH {
        return Err(Refusal::NoRoom {
            needed: FRAME_LENGTH,
        });
    }
    write_digits(buffer, m);
    Ok(())
}
