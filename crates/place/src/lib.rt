// A text written into a lent buffer at a place: the place after it is answered, and all other bytes stay. A buffer written from
// its start on is a page: what is written follows what was.
#![tactic(auto)]

ghost use Rattle.std.specs.Prelude.{◌+◌, ◌≤◌, ◌≡◌, [], ◌∷◌, length, replicate};
ghost use Rattle.place.specs.Place.{Placed};
ghost use Rattle.place.specs.Page.{HasRoom, Wrote};

// Bytes, one after the other.
pub fn write_text(buffer: &mut [u8], place: usize, text: &[u8]) -> usize
    requires { place + length text.now ≤ length buffer.old }
    ensures { Placed place text.now buffer.old result buffer.new }
{
    let next = place + text.len();
    buffer[place..next].copy_from_slice(text);
    next
}

// A letter, a number of times.
pub fn write_run(buffer: &mut [u8], place: usize, letter: u8, times: usize) -> usize
    requires { place + times ≤ length buffer.old }
    ensures { Placed place (replicate times letter) buffer.old result buffer.new }
{
    let next = place + times;
    buffer[place..next].fill(letter);
    next
}

// The buffer, and the place up to which it is written: the C interface lends a slice, so it is no ArrayVec. How much room a
// call asks for is its text's own, so no one fact of the page says it.
#[derive(Drop)]
pub struct Page<'a> {
    buffer: &'a mut [u8],
    place: usize,
}

impl<'a> Page<'a> {
    // Nothing written yet.
    pub fn new(buffer: &'a mut [u8]) -> Page<'a>
        ensures same_buffer { result.buffer.ghost_name ≡ buffer.entry.ghost_name }
        ensures now { result.buffer.now ≡ buffer.old }
        ensures place { result.place ≡ 0 }
    {
        Page { buffer, place: 0 }
    }

    // One letter.
    pub fn put(&mut self, letter: u8)
        requires { HasRoom self.old 1 }
        ensures { Wrote self.old (letter ∷ []) self.new }
    {
        self.buffer[self.place] = letter;
        self.place += 1;
    }

    // Letters, one after the other.
    pub fn put_text(&mut self, text: &[u8])
        requires { HasRoom self.old (length text.now) }
        ensures { Wrote self.old text.now self.new }
    {
        self.place = write_text(self.buffer, self.place, text);
    }

    // A letter, a number of times.
    pub fn put_run(&mut self, letter: u8, times: usize)
        requires { HasRoom self.old times }
        ensures { Wrote self.old (replicate times letter) self.new }
    {
        self.place = write_run(self.buffer, self.place, letter, times);
    }
}
