// Comparison of two strings: same, a phase apart, or different.
#![tactic(auto)]

ghost use Rattle.std.specs.Prelude.{◌+◌, ◌%◌, ◌<◌, ◌≡◌, ◌↔◌, true, Ok};
ghost use Rattle.form.specs.Tail.{tail_a};
ghost use Rattle.extend_form.specs.Spelling.{spelled_text};
ghost use Rattle.compare.specs.Promise.{verdict, Related, Compare};

use answer::{Refusal, STRING_LIMIT};
use extend_form::Spelled;
use tail::{Products, Tail};

// The string that a refusal concerns.
#[derive(Clone, Copy)]
pub enum Which {
    First,
    Second,
}

// How the matrices of two strings stand to each other.
#[derive(Clone, Copy)]
pub enum Relation {
    Same,
    Phase(usize),
    Different,
}

// A refusal with the string that it concerns.
#[derive(Clone, Copy)]
pub struct Refused {
    pub which: Which,
    pub refusal: Refusal,
}

// The W's from one tail on to another, round 8: what their last three bits differ by.
fn between(from: Tail, to: Tail) -> usize
    ensures { (result < 8) × ((tail_a from.number + result) % 8 ≡ tail_a to.number) }
{
    ((to.ws() + 8 - from.ws()) % 8) as usize
}

// Whether the codes agree. Place by place, since over `!=` an edit was refused for its form, whatever it meant.
fn same_codes(first: &[u8], second: &[u8]) -> bool
    ensures { result ≡ true ↔ first.now ≡ second.now }
{
    if first.len() != second.len() {
        return false;
    }
    for i in 0..first.len() {
        if first[i] != second[i] {
            return false;
        }
    }
    true
}

// Two forms: a phase changes nothing but the last three bits of the tail.
fn relate<const N: usize>(first: &Spelled<N>, second: &Spelled<N>) -> Relation
    ensures { Related (spelled_text first.now) (spelled_text second.now) (verdict (Ok result)) }
{
    if !same_codes(&first.codes, &second.codes) || first.tail.number / 8 != second.tail.number / 8 {
        return Relation::Different;
    }
    match between(second.tail, first.tail) {
        0 => Relation::Same,
        j => Relation::Phase(j),
    }
}

// The second string is looked at only when the first was accepted: that answer is taken apart by `let .. else`, which the project
// fixes.
pub fn compare(first: &[u8], second: &[u8]) -> Result<Relation, Refused>
    ensures { Compare first.now second.now (verdict result) }
{
    let products = Products::new();
    let mut first_form = Spelled::<STRING_LIMIT>::new();
    let first_normalised = normalise::normalise(&products, first, &mut first_form);
    let Ok(()) = first_normalised else {
        return Err(Refused {
            which: Which::First,
            refusal: first_normalised.unwrap_err(),
        });
    };
    let mut second_form = Spelled::<STRING_LIMIT>::new();
    normalise::normalise(&products, second, &mut second_form).map_err(|refusal| Refused {
        which: Which::Second,
        refusal,
    })?;
    Ok(relate(&first_form, &second_form))
}
