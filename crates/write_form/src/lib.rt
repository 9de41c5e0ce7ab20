// The writing of a form that codes and a tail spell: the length is known before the first byte is written.
#![tactic(auto)]

ghost use Rattle.std.specs.Prelude.{◌+◌, ◌*◌, ◌≤◌, ◌<◌, ◌^◌, [], ◌∷◌, ◌++◌, ◌≡◌, not, ◌==◌, length, reverse, sum_by, count_by};
ghost use Rattle.matrix.specs.Letter.{T};
ghost use Rattle.form.specs.Tail.{head_text, tail_text};
ghost use Rattle.answer.specs.Refusal.{said};
ghost use Rattle.answer.specs.Written.{PutForm};
ghost use Rattle.extend_form.specs.Spelling.{Codes, codes_text, spelled_text};
ghost use Rattle.place.specs.Page.{HasRoom, Wrote};

use answer::{Figures, Refusal};
use extend_form::Spelled;
use place::Page;
use tail::Tail;

// A code's text is as long as the code's number, and T.
fn codes_length(codes: &[u8]) -> usize
    requires { sum_by (λ code. code + 1) codes.now < 2 ^ 64 }
    ensures { result ≡ sum_by (λ code. code + 1) codes.now }
{
    codes.iter().map(|&code| code as usize + 1).sum()
}

fn tail_length(tail: Tail) -> usize
    ensures { result ≡ length (tail_text tail.number) }
{
    (tail.head() + tail.xs() + tail.ss() + tail.ws()) as usize
}

// The syllables: every code but a T at the bottom, which is looked for there alone.
fn syllables(codes: &[u8]) -> usize
    requires { Codes (reverse codes.now) }
    ensures { result ≡ count_by (λ code. not (code == 0)) codes.now }
{
    if codes.is_empty() {
        return 0;
    }
    if codes[0] == 0 {
        return codes.len() - 1;
    }
    codes.len()
}

// Nothing, H or SH.
fn write_head(page: &mut Page<'_>, head: u8)
    requires { HasRoom page.old (length (head_text head)) }
    ensures { Wrote page.old (head_text head) page.new }
{
    match head {
        0 => {}
        1 => page.put(b'H'),
        _ => page.put_text(b"SH"),
    }
}

// A code: its head and T.
fn write_code(page: &mut Page<'_>, code: u8)
    requires { HasRoom page.old (length (head_text code) + 1) }
    ensures { Wrote page.old (head_text code ++ T ∷ []) page.new }
{
    write_head(page, code);
    page.put(b'T');
}

fn write_codes(page: &mut Page<'_>, codes: &[u8])
    requires { HasRoom page.old (length (codes_text (reverse codes.now))) }
    ensures { Wrote page.old (codes_text (reverse codes.now)) page.new }
{
    for &code in codes {
        write_code(page, code);
    }
}

fn write_tail(page: &mut Page<'_>, tail: Tail)
    requires { HasRoom page.old (length (tail_text tail.number)) }
    ensures { Wrote page.old (tail_text tail.number) page.new }
{
    write_head(page, tail.head());
    page.put_run(b'X', tail.xs() as usize);
    page.put_run(b'S', tail.ss() as usize);
    page.put_run(b'W', tail.ws() as usize);
}

// The form that codes and a tail spell, written into a lent buffer where it has room.
pub fn write_form<const N: usize>(form: &Spelled<N>, buffer: &mut [u8]) -> Result<Figures, Refusal>
    requires { 3 * length form.now.codes + 13 < 2 ^ 64 }
    ensures { PutForm (spelled_text form.now) buffer.old (said result) buffer.new }
{
    let codes = form.codes.as_slice();
    let length = codes_length(codes) + tail_length(form.tail);
    if buffer.len() < length {
        return Err(Refusal::NoRoom { needed: length });
    }
    let mut page = Page::new(buffer);
    write_codes(&mut page, codes);
    write_tail(&mut page, form.tail);
    Ok(Figures {
        length,
        tcount: codes.len(),
        hcount: syllables(codes),
    })
}
