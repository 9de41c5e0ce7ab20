// The form reader: accepts exactly the texts that are forms, and answers their figures and tail number.
#![tactic(auto)]

ghost use Rattle.answer.specs.Refusal.{said};
ghost use Rattle.read_form.specs.Part.{Run, Front, Head, LeadingSyllable, Any, NoFront, OnlyTail, Longest};
ghost use Rattle.read_form.specs.Promise.{ReadForm};

use answer::{Figures, Refusal};

// What the form reader answers of a form.
#[derive(Clone, Copy)]
pub struct Reading {
    pub figures: Figures,
    pub tail: usize,
}

// How often a letter stands at the beginning of a text, counted up to `most`.
fn run_length(text: &[u8], letter: u8, most: usize) -> usize
    ensures { Run text.now letter most result }
{
    text.iter().take(most).take_while(|b| **b == letter).count()
}

// The length of the first of two fronts that a text begins with, or 0.
fn front_length(text: &[u8], first: &[u8], second: &[u8]) -> usize
    ensures { Front text.now first.now second.now result }
{
    if text.starts_with(first) {
        first.len()
    } else if text.starts_with(second) {
        second.len()
    } else {
        0
    }
}

// The length of a tail's head: nothing, H or SH.
#[tactic(auto, using(crate::proofs::Beginning::head_front))]
fn head_length(text: &[u8]) -> usize
    ensures { Head text.now result }
{
    front_length(text, b"SH", b"H")
}

// The length of the syllable that a text begins with, or 0: no Option, so that one function serves a head, whose nothing is 0 long.
#[tactic(auto, using(crate::proofs::Beginning::leading_front))]
fn syllable_length(text: &[u8]) -> usize
    ensures { LeadingSyllable text.now result }
{
    front_length(text, b"HT", b"SHT")
}

// The longest tail that a text begins with.
#[tactic(auto, using(crate::proofs::Taking::to_the_end, crate::proofs::Tails::longest_tail))]
fn longest_tail(text: &[u8]) -> Reading
    ensures { Longest OnlyTail text.now result }
{
    let h = head_length(text);
    let b = run_length(&text[h..], b'X', 1);
    let after_x = h + b;
    let c = run_length(&text[after_x..], b'S', 3);
    let after_s = after_x + c;
    let a = run_length(&text[after_s..], b'W', 7);
    Reading {
        figures: Figures {
            length: after_s + a,
            tcount: 0,
            hcount: 0,
        },
        tail: 64 * h + 32 * b + 8 * c + a,
    }
}

// The longest form without a front that a text begins with: after a whole syllable the rest is a text of its own.
fn longest_rest(text: &[u8]) -> Reading
    ensures { Longest NoFront text.now result }
{
    let k = syllable_length(text);
    if k == 0 {
        return longest_tail(text);
    }
    let rest = longest_rest(&text[k..]);
    Reading {
        figures: Figures {
            length: k + rest.figures.length,
            tcount: 1 + rest.figures.tcount,
            hcount: 1 + rest.figures.hcount,
        },
        tail: rest.tail,
    }
}

// The longest form that a text begins with.
fn longest_form(text: &[u8]) -> Reading
    ensures { Longest Any text.now result }
{
    if text.starts_with(b"T") {
        let rest = longest_rest(&text[1..]);
        Reading {
            figures: Figures {
                length: 1 + rest.figures.length,
                tcount: 1 + rest.figures.tcount,
                hcount: rest.figures.hcount,
            },
            tail: rest.tail,
        }
    } else {
        longest_rest(text)
    }
}

// Reads a text claimed to be a form: refused 2, 1 or 7, in this order, or answered with its figures and tail number.
#[tactic(auto, using(crate::specs::Promise::too_long, crate::specs::Promise::bad_letter, crate::proofs::Answer::whole_text_is_form, crate::proofs::Answer::shorter_is_refused))]
pub fn read_form(text: &[u8]) -> Result<Reading, Refusal>
    ensures { ReadForm text.now (said result) }
{
    if answer::FORM_LIMIT < text.len() {
        return Err(Refusal::TooLong {
            limit: answer::FORM_LIMIT,
        });
    }
    if let Some(place) = alphabet::first_bad(text) {
        return Err(Refusal::BadLetter { place });
    }
    let found = longest_form(text);
    if found.figures.length == text.len() {
        Ok(found)
    } else {
        Err(Refusal::NotForm {
            prefix: found.figures.length,
        })
    }
}
