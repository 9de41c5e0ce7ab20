// The letter test, for every reader of letters: is a byte a letter, and where does a text first hold a byte that is none.
#![tactic(auto)]

ghost use Rattle.std.specs.Prelude.{◌≡◌};
ghost use Rattle.matrix.specs.Letter.{is_letter};
ghost use Rattle.lists.specs.Found.{Finds};

// One by one, and not by one pattern: of a pattern the loops over letters get a branch on H, which random letters guess wrong.
#[tactic(auto, unfolding(matrix::specs::Letter::is_letter))]
pub fn is_letter(b: u8) -> bool
    ensures { result ≡ is_letter b }
{
    b == b'H' || b == b'S' || b == b'T' || b == b'W' || b == b'X' || b == b'Y' || b == b'Z'
}

// The first place of a byte outside the letters.
pub fn first_bad(text: &[u8]) -> Option<usize>
    ensures { Finds is_letter text.now result }
{
    text.iter().position(|b| !is_letter(*b))
}
