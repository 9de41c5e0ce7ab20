// The lines that the programs write, added to the output.
#![tactic(auto)]

ghost use Rattle.std.specs.Prelude.{◌≡◌, ◌+◌, ◌≤◌, ◌++◌, length, take};
ghost use Rattle.arrayvec.specs.ArrayVec.{array_vec_len};
ghost use Rattle.answer.specs.Limits.{form_limit};
ghost use Rattle.answer.specs.Refusal.{number, place, said};
ghost use Rattle.report.specs.Decimal.{decimal};
ghost use Rattle.report.specs.Report.{field, ok_line, no_line, answer_line, number_room, field_room, line_room};

use answer::{FORM_LIMIT, Figures, Refusal};
use arrayvec::ArrayVec;

// How much longer than its form a line can be.
pub const LINE_ROOM: usize = 46;

// Room for any form.
pub fn form_buffer() -> [u8; FORM_LIMIT]
    ensures { form_limit ≡ length result }
{
    [0; FORM_LIMIT]
}

// A number in decimal. Room stands in the contracts here, since each line uses up its own.
#[tactic(auto, using(crate::proofs::Number::written_decimal))]
pub fn put_number<const N: usize>(output: &mut ArrayVec<u8, N>, n: u64)
    requires { array_vec_len output.old + number_room ≤ N }
    ensures put { output.new.items ≡ output.old.items ++ decimal n }
    ensures upper_bound { array_vec_len output.new ≤ array_vec_len output.old + number_room }
{
    let mut digits = itoa::Buffer::new();
    lines::put(output, digits.format(n).as_bytes());
}

// A number after a space.
#[tactic(auto, unfolding(crate::specs::Report::field))]
pub fn put_field<const N: usize>(output: &mut ArrayVec<u8, N>, n: u64)
    requires { array_vec_len output.old + field_room ≤ N }
    ensures put { output.new.items ≡ output.old.items ++ field n }
    ensures upper_bound { array_vec_len output.new ≤ array_vec_len output.old + field_room }
{
    lines::put(output, b" ");
    put_number(output, n);
}

// `ok`, T-count, H-count, and the form at the start of the buffer.
#[tactic(auto, using(crate::proofs::Lines::ok_line_added, lines::proofs::Kept::cut_at_least))]
fn put_form<const N: usize>(output: &mut ArrayVec<u8, N>, figures: Figures, buffer: &[u8])
    requires { array_vec_len output.old + line_room + length buffer.now ≤ N }
    ensures { output.new.items ≡ output.old.items ++ ok_line figures.tcount figures.hcount (take figures.length buffer.now) }
{
    let length = buffer.len().min(figures.length);
    lines::put(output, b"ok");
    put_field(output, figures.tcount as u64);
    put_field(output, figures.hcount as u64);
    lines::put(output, b" "); // An empty form leaves it.
    lines::put(output, &buffer[..length]);
    lines::put(output, b"\n");
}

// `no`, refusal, place. Not by a `Display` of the refusal: of what a `fmt` writes no contract tells the bytes.
#[tactic(auto, using(crate::proofs::Lines::no_line_added))]
pub fn put_refusal<const N: usize>(output: &mut ArrayVec<u8, N>, refusal: Refusal)
    requires { array_vec_len output.old + line_room ≤ N }
    ensures put { output.new.items ≡ output.old.items ++ no_line (number refusal) (place refusal) }
    ensures upper_bound { array_vec_len output.new ≤ array_vec_len output.old + line_room }
{
    lines::put(output, b"no");
    put_field(output, refusal.number() as u64);
    put_field(output, refusal.place() as u64);
    lines::put(output, b"\n");
}

// The line of an answer.
#[tactic(auto, unfolding(crate::specs::Report::answer_line))]
pub fn put_answer<const N: usize>(
    output: &mut ArrayVec<u8, N>,
    answer: Result<Figures, Refusal>,
    buffer: &[u8],
)
    requires { array_vec_len output.old + line_room + length buffer.now ≤ N }
    ensures { output.new.items ≡ output.old.items ++ answer_line (said answer) buffer.now }
{
    match answer {
        Ok(figures) => put_form(output, figures, buffer),
        Err(refusal) => put_refusal(output, refusal),
    }
}
