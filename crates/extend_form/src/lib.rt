// A form as it is kept while letters come, and the step that extends it by one letter.
#![tactic(auto)]

ghost use Rattle.std.specs.Prelude.{◌+◌, ◌≤◌, ◌<◌, true, [], ◌∷◌, ◌≡◌, length};
ghost use Rattle.matrix.specs.Letter.{T, is_letter};
ghost use Rattle.form.specs.Tail.{tail_h};
ghost use Rattle.extend_form.specs.Spelling.{Codes};
ghost use Rattle.extend_form.specs.Extend.{Fresh, Extended, ExtendsByText};

use arrayvec::ArrayVec;
use std::marker::Model;
use tail::{Products, Tail};

// The codes of the syllables, each with its T, in the order of the text, and the tail that follows them.
#[derive(Clone, Drop)]
pub struct Spelled<const N: usize> {
    pub codes: ArrayVec<u8, N>,
    pub tail: Tail,
}

// Clauses see the codes, the last first, and the tail's number.
impl<const N: usize> Model for Spelled<N> {
    ghost use Rattle.std.specs.Prelude.{reverse};
    ghost use Rattle.extend_form.specs.Spelling.{Spelling, Codes};

    ghost Value = { Spelling };

    ghost view = { λ s. record { codes = reverse s.codes.items; tail = s.tail.number } };

    ghost invariant = { λ s. Codes (reverse s.codes.items) };
}

impl<const N: usize> Spelled<N> {
    // The empty form.
    pub fn new() -> Self
        ensures { Fresh result }
    {
        Spelled {
            codes: ArrayVec::new(),
            tail: Tail { number: 0 },
        }
    }

    // The empty form again, part by part: to assign `Self::new()` would clear the bytes of the codes too.
    pub fn clear(&mut self)
        ensures { Fresh self.new }
    {
        self.codes.clear();
        self.tail = Tail { number: 0 };
    }

    // T, pushed as a code with the tail's head. Room for a code stands in the contracts, since a code uses it up.
    fn push_t(&mut self)
        requires room { length self.old.codes < N }
        requires codes { Codes (tail_h self.old.tail ∷ self.old.codes) }
        ensures { Extended self.old (T ∷ []) self.new }
    {
        // Read before a code is stored and written after it, the tail stays in a register.
        let tail = self.tail;
        self.codes.push(tail.head());
        self.tail = tail.past_t();
    }

    // T, joined with the T of the last code, whose head begins the tail.
    fn join_t(&mut self)
        requires codes_nonempty { 0 < length self.old.codes }
        requires headless { tail_h self.old.tail ≡ 0 }
        ensures { Extended self.old (T ∷ []) self.new }
    {
        let joined = self.tail.between_t();
        let code = self.codes.pop().unwrap();
        self.tail = joined.behind(code);
    }

    // T: a code is pushed where the tail has a head or there is no code, and else the last one is taken off.
    fn by_t(&mut self)
        requires room { length self.old.codes < N }
        ensures { Extended self.old (T ∷ []) self.new }
    {
        if 0 < self.tail.head() || self.codes.is_empty() {
            self.push_t();
        } else {
            self.join_t();
        }
    }

    // The form extended by a letter, in constant work. Where a T comes, there must be room for a code.
    pub fn by_letter(&mut self, products: &Products, letter: u8)
        requires room { length self.old.codes < N }
        requires letter { is_letter letter ≡ true }
        ensures { Extended self.old (letter ∷ []) self.new }
    {
        if letter == b'T' {
            self.by_t();
        } else {
            self.tail = products.product(self.tail, letter);
        }
    }

    // The form extended by the letters of a text, in one pass, up to a byte that is none: its place is the `Err`.
    pub fn by_text(&mut self, products: &Products, text: &[u8]) -> Result<(), usize>
        requires room { length self.old.codes + length text.now ≤ N }
        ensures { ExtendsByText self.old text.now self.new result }
    {
        // A field is named so that the invariant is known before the first letter.
        let _ = &self.codes;
        for (i, &letter) in text.iter().enumerate() {
            if !alphabet::is_letter(letter) {
                return Err(i);
            }
            self.by_letter(products, letter);
        }
        Ok(())
    }
}
