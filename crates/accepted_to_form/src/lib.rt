// The form of an accepted record: it is taken down to a letter list, and string to form makes the form.
#![tactic(auto)]

ghost use Rattle.std.specs.Prelude.{[], ◌≡◌, ◌+◌, ◌≤◌, ◌<◌, ◌++◌, replicate};
ghost use Rattle.arrayvec.specs.ArrayVec.{array_vec_len};
ghost use Rattle.answer.specs.Refusal.{said};
ghost use Rattle.accept_record.specs.Accept.{AcceptedRecord};
ghost use Rattle.complete.specs.Descent.{if_taken, syllable_taken, past_syllable, axis_taken, upright, diagonal_text, word_below};
ghost use Rattle.accepted_to_form.specs.Descends.{Descends, AboveZero};
ghost use Rattle.accepted_to_form.specs.Letters.{Spelt, most_letters};
ghost use Rattle.accepted_to_form.specs.Promise.{AcceptedToForm};

use answer::{Figures, Refusal};
use arrayvec::ArrayVec;
use complete::Rest;
use descend::odd_pair;
use matrix::Matrix;

// The most letters of an accepted record.
const MOST_LETTERS: usize = 254;

// The letters so far. Room for letters stands in the contracts, since letters use it up.
// What is left of the record goes from call to call by value: in the struct it would go to memory after each letter.
#[derive(Drop)]
struct Descent {
    letters: ArrayVec<u8, MOST_LETTERS>,
}

impl Descent {
    // A letter, where it is taken, and what is left then.
    #[tactic(auto, unfolding(complete::specs::Descent::if_taken))]
    fn take<F: FnOnce(Rest) -> Rest>(
        &mut self,
        letter: u8,
        taken: bool,
        rest: Rest,
        past: F,
    ) -> Rest
        requires room { array_vec_len self.old.letters < most_letters }
        requires past { F.pre past rest }
        ensures written { self.new.letters.items ≡ self.old.letters.items ++ if_taken taken letter }
        ensures upper_bound { array_vec_len self.new.letters ≤ array_vec_len self.old.letters + 1 }
        ensures rest { F.post past rest result }
    {
        if taken {
            self.letters.push(letter);
        }
        past(rest)
    }

    // A letter, a number of times.
    fn put_run(&mut self, letter: u8, times: usize)
        requires { array_vec_len self.old.letters + times ≤ most_letters }
        ensures written { self.new.letters.items ≡ self.old.letters.items ++ replicate times letter }
        ensures length { array_vec_len self.new.letters ≡ array_vec_len self.old.letters + times }
    {
        for _ in 0..times {
            self.letters.push(letter);
        }
    }

    // T, HT, SHT or nothing taken off, and written.
    #[tactic(auto, unfolding(complete::specs::Descent::syllable_taken, complete::specs::Descent::past_syllable))]
    fn put_syllable(&mut self, rest: Rest) -> Rest
        requires room { array_vec_len self.old.letters + 3 ≤ most_letters }
        requires above_zero { AboveZero rest }
        ensures written { self.new.letters.items ≡ self.old.letters.items ++ syllable_taken rest }
        ensures upper_bound { array_vec_len self.new.letters ≤ array_vec_len self.old.letters + 3 }
        ensures rest { result ≡ past_syllable rest }
    {
        let v = rest.vector;
        let past_s = self.take(b'S', odd_pair(v.x, v.z), rest, descend::past_s);
        let v = past_s.vector;
        let past_h = self.take(b'H', odd_pair(v.y, v.z), past_s, descend::past_h);
        let v = past_h.vector;
        self.take(b'T', odd_pair(v.x, v.y), past_h, descend::past_t)
    }

    // The vector turned to +z: S, H and X taken off where it takes them, and written.
    #[tactic(auto, unfolding(complete::specs::Descent::axis_taken, complete::specs::Descent::upright))]
    fn put_axis(&mut self, rest: Rest) -> Rest
        requires room { array_vec_len self.old.letters + 3 ≤ most_letters }
        requires descends { Descends rest 0 }
        ensures written { self.new.letters.items ≡ self.old.letters.items ++ axis_taken rest }
        ensures upper_bound { array_vec_len self.new.letters ≤ array_vec_len self.old.letters + 3 }
        ensures rest { result ≡ upright rest }
    {
        let v = rest.vector;
        let off_y = self.take(b'S', v.y.is_odd(), rest, descend::off_y);
        let v = off_y.vector;
        let off_x = self.take(b'H', v.x.is_odd(), off_y, descend::off_x);
        let v = off_x.vector;
        self.take(b'X', descend::is_downward(v), off_x, descend::turned_up)
    }

    // The letters of a diagonal record: T or nothing, S's and W's.
    #[tactic(auto, using(crate::proofs::Phases::phase_below), unfolding(complete::specs::Descent::diagonal_text, complete::specs::Descent::phases_text))]
    fn put_diagonal(&mut self, m: Matrix)
        requires { array_vec_len self.old.letters + 11 ≤ most_letters }
        ensures written { self.new.letters.items ≡ self.old.letters.items ++ diagonal_text m }
        ensures upper_bound { array_vec_len self.new.letters ≤ array_vec_len self.old.letters + 11 }
    {
        let first = descend::phase(m.top.left) as usize;
        let second = descend::phase(m.bottom.right) as usize;
        let turn = (second + 8 - first) % 8;
        self.put_run(b'T', turn % 2);
        self.put_run(b'S', turn / 2);
        self.put_run(b'W', first);
    }

    // What is left at exponent 0.
    #[tactic(auto, unfolding(complete::specs::Descent::word_below))]
    fn put_end(&mut self, rest: Rest)
        requires room { array_vec_len self.old.letters + 14 ≤ most_letters }
        requires descends { Descends rest 0 }
        ensures written { self.new.letters.items ≡ self.old.letters.items ++ word_below 0 rest }
        ensures upper_bound { array_vec_len self.new.letters ≤ array_vec_len self.old.letters + 14 }
    {
        let upright = self.put_axis(rest);
        self.put_diagonal(upright.matrix);
    }

    // The letters of an accepted record, where there are none yet. Lent and not handed back, since a vector that is handed
    // back is copied.
    fn put_letters(&mut self, record: Matrix)
        requires accepted { AcceptedRecord «record» }
        requires none_yet { self.old.letters.items ≡ [] }
        ensures upper_bound { array_vec_len self.new.letters ≤ most_letters }
        ensures spelt { Spelt «record» self.new.letters.items }
    {
        let vector = descend::vector_of(record);
        let mut rest = Rest {
            matrix: record,
            vector,
        };
        for _ in 0..2 * record.exponent {
            rest = self.put_syllable(rest);
        }
        self.put_end(rest);
    }
}

// The form of an accepted record, written into a lent buffer where it has room.
#[tactic(auto, using(crate::proofs::Route::by_string))]
pub fn accepted_to_form(record: Matrix, buffer: &mut [u8]) -> Result<Figures, Refusal>
    requires { AcceptedRecord «record» }
    ensures { AcceptedToForm «record» buffer.old (said result) buffer.new }
{
    let mut descent = Descent {
        letters: ArrayVec::new(),
    };
    descent.put_letters(record);
    string_to_form::string_to_form(&descent.letters, buffer)
}
