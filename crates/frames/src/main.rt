// The second program: frames from standard input, and one line for each with the form or the refusal.
#![tactic(auto)]

ghost use Rattle.std.specs.Prelude.{◌≡◌, ◌+◌, ◌≤◌, length};
ghost use Rattle.arrayvec.specs.ArrayVec.{array_vec_len};
ghost use Rattle.answer.specs.Limits.{form_limit, frame_length};
ghost use Rattle.report.specs.Report.{line_room, Answered};
ghost use Rattle.frame_to_form.specs.Promise.{FrameToForm};

use answer::{FORM_LIMIT, FRAME_LENGTH};
use lines::{BLOCK, Lines, Output};
use report::LINE_ROOM;
use std::io::{Read, Write};

// One byte more than a frame has, so that a longer line is seen to be longer.
const LINE: usize = FRAME_LENGTH + 1;

// The line of the answer to a frame. Twin of `letters::answer`, as are `run` and `main`: one
// function for both could name neither call's promise.
fn answer(line: &[u8], form: &mut [u8], output: &mut Output)
    requires { array_vec_len output.old + line_room + length form.old ≤ BLOCK }
    ensures { Answered FrameToForm line.now form.old output.old.items output.new.items }
{
    let written = frame_to_form::frame_to_form(line, form);
    report::put_answer(output, written, form);
}

// Answers each line. A line is held as `LINE` says, and there is room for any form.
fn run<R: Read + Drop, W: Write + Drop, const N: usize>(
    lines: &mut Lines<R, W, N>,
    form: &mut [u8; FORM_LIMIT],
)
    requires line { frame_length + 1 ≡ N }
    requires form { form_limit ≡ length form.old }
{
    // Where reading or writing fails, the program ends as at the end of the input.
    let _ = lines.each_line(LINE_ROOM + FORM_LIMIT, |line, output| {
        answer(line, form, output)
    });
}

fn main(rt: HostRuntime) {
    let mut form = report::form_buffer();
    let mut lines: Lines<_, _, LINE> = Lines::new(rt.stdin(), rt.stdout());
    run(&mut lines, &mut form);
}
