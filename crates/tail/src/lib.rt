// Tails, and their products: the table of 1,152, for the six letters other than T, and the rule for T.
#![tactic(auto)]

ghost use Rattle.std.specs.Prelude.{◌+◌, ◌*◌, ◌<◌, true, ◌≡◌, length};
ghost use Rattle.matrix.specs.Letter.{T, is_letter};
ghost use Rattle.form.specs.Tail.{tails, tail_h, tail_b, tail_c, tail_a};
ghost use Rattle.tail.specs.Product.{Column, Product, ProductTable, PastT, BetweenT};

use std::marker::Model;

// Entry 6·n + l: the tail n times the letter l of H W X Y Z S.
const PRODUCTS: [u8; 1152] = [
    64, // the empty tail times H is H
    1, 32, 50, 16, 8, 65, 2, 33, 51, 17, 9, 66, 3, 34, 52, 18, 10, 67, 4, 35, 53, 19, 11, 68, 5,
    36, 54, 20, 12, 69, 6, 37, 55, 21, 13, 70, 7, 38, 48, 22, 14, 71, 0, 39, 49, 23, 15, 128, 9,
    58, 44, 24, 16, 129, 10, 59, 45, 25, 17, 130, 11, 60, 46, 26, 18, 131, 12, 61, 47, 27, 19, 132,
    13, 62, 40, 28, 20, 133, 14, 63, 41, 29, 21, 134, 15, 56, 42, 30, 22, 135, 8, 57, 43, 31, 23,
    96, 17, 52, 38, 0, 24, 97, 18, 53, 39, 1, 25, 98, 19, 54, 32, 2, 26, 99, 20, 55, 33, 3, 27,
    100, 21, 48, 34, 4, 28, 101, 22, 49, 35, 5, 29, 102, 23, 50, 36, 6, 30, 103, 16, 51, 37, 7, 31,
    160, 25, 46, 56, 8, 0, 161, 26, 47, 57, 9, 1, 162, 27, 40, 58, 10, 2, 163, 28, 41, 59, 11, 3,
    164, 29, 42, 60, 12, 4, 165, 30, 43, 61, 13, 5, 166, 31, 44, 62, 14, 6, 167, 24, 45, 63, 15, 7,
    80, 33, 0, 18, 48, 40, 81, 34, 1, 19, 49, 41, 82, 35, 2, 20, 50, 42, 83, 36, 3, 21, 51, 43, 84,
    37, 4, 22, 52, 44, 85, 38, 5, 23, 53, 45, 86, 39, 6, 16, 54, 46, 87, 32, 7, 17, 55, 47, 178,
    41, 26, 12, 56, 48, 179, 42, 27, 13, 57, 49, 180, 43, 28, 14, 58, 50, 181, 44, 29, 15, 59, 51,
    182, 45, 30, 8, 60, 52, 183, 46, 31, 9, 61, 53, 176, 47, 24, 10, 62, 54, 177, 40, 25, 11, 63,
    55, 116, 49, 20, 6, 32, 56, 117, 50, 21, 7, 33, 57, 118, 51, 22, 0, 34, 58, 119, 52, 23, 1, 35,
    59, 112, 53, 16, 2, 36, 60, 113, 54, 17, 3, 37, 61, 114, 55, 18, 4, 38, 62, 115, 48, 19, 5, 39,
    63, 150, 57, 14, 24, 40, 32, 151, 58, 15, 25, 41, 33, 144, 59, 8, 26, 42, 34, 145, 60, 9, 27,
    43, 35, 146, 61, 10, 28, 44, 36, 147, 62, 11, 29, 45, 37, 148, 63, 12, 30, 46, 38, 149, 56, 13,
    31, 47, 39, 0, 65, 96, 114, 80, 72, 1, 66, 97, 115, 81, 73, 2, 67, 98, 116, 82, 74, 3, 68, 99,
    117, 83, 75, 4, 69, 100, 118, 84, 76, 5, 70, 101, 119, 85, 77, 6, 71, 102, 112, 86, 78, 7, 64,
    103, 113, 87, 79, 185, 73, 122, 108, 88, 80, 186, 74, 123, 109, 89, 81, 187, 75, 124, 110, 90,
    82, 188, 76, 125, 111, 91, 83, 189, 77, 126, 104, 92, 84, 190, 78, 127, 105, 93, 85, 191, 79,
    120, 106, 94, 86, 184, 72, 121, 107, 95, 87, 32, 81, 116, 102, 64, 88, 33, 82, 117, 103, 65,
    89, 34, 83, 118, 96, 66, 90, 35, 84, 119, 97, 67, 91, 36, 85, 112, 98, 68, 92, 37, 86, 113, 99,
    69, 93, 38, 87, 114, 100, 70, 94, 39, 80, 115, 101, 71, 95, 143, 89, 110, 120, 72, 64, 136, 90,
    111, 121, 73, 65, 137, 91, 104, 122, 74, 66, 138, 92, 105, 123, 75, 67, 139, 93, 106, 124, 76,
    68, 140, 94, 107, 125, 77, 69, 141, 95, 108, 126, 78, 70, 142, 88, 109, 127, 79, 71, 16, 97,
    64, 82, 112, 104, 17, 98, 65, 83, 113, 105, 18, 99, 66, 84, 114, 106, 19, 100, 67, 85, 115,
    107, 20, 101, 68, 86, 116, 108, 21, 102, 69, 87, 117, 109, 22, 103, 70, 80, 118, 110, 23, 96,
    71, 81, 119, 111, 153, 105, 90, 76, 120, 112, 154, 106, 91, 77, 121, 113, 155, 107, 92, 78,
    122, 114, 156, 108, 93, 79, 123, 115, 157, 109, 94, 72, 124, 116, 158, 110, 95, 73, 125, 117,
    159, 111, 88, 74, 126, 118, 152, 104, 89, 75, 127, 119, 52, 113, 84, 70, 96, 120, 53, 114, 85,
    71, 97, 121, 54, 115, 86, 64, 98, 122, 55, 116, 87, 65, 99, 123, 48, 117, 80, 66, 100, 124, 49,
    118, 81, 67, 101, 125, 50, 119, 82, 68, 102, 126, 51, 112, 83, 69, 103, 127, 175, 121, 78, 88,
    104, 96, 168, 122, 79, 89, 105, 97, 169, 123, 72, 90, 106, 98, 170, 124, 73, 91, 107, 99, 171,
    125, 74, 92, 108, 100, 172, 126, 75, 93, 109, 101, 173, 127, 76, 94, 110, 102, 174, 120, 77,
    95, 111, 103, 8, 129, 160, 178, 144, 136, 9, 130, 161, 179, 145, 137, 10, 131, 162, 180, 146,
    138, 11, 132, 163, 181, 147, 139, 12, 133, 164, 182, 148, 140, 13, 134, 165, 183, 149, 141, 14,
    135, 166, 176, 150, 142, 15, 128, 167, 177, 151, 143, 89, 137, 186, 172, 152, 144, 90, 138,
    187, 173, 153, 145, 91, 139, 188, 174, 154, 146, 92, 140, 189, 175, 155, 147, 93, 141, 190,
    168, 156, 148, 94, 142, 191, 169, 157, 149, 95, 143, 184, 170, 158, 150, 88, 136, 185, 171,
    159, 151, 58, 145, 180, 166, 128, 152, 59, 146, 181, 167, 129, 153, 60, 147, 182, 160, 130,
    154, 61, 148, 183, 161, 131, 155, 62, 149, 176, 162, 132, 156, 63, 150, 177, 163, 133, 157, 56,
    151, 178, 164, 134, 158, 57, 144, 179, 165, 135, 159, 111, 153, 174, 184, 136, 128, 104, 154,
    175, 185, 137, 129, 105, 155, 168, 186, 138, 130, 106, 156, 169, 187, 139, 131, 107, 157, 170,
    188, 140, 132, 108, 158, 171, 189, 141, 133, 109, 159, 172, 190, 142, 134, 110, 152, 173, 191,
    143, 135, 24, 161, 128, 146, 176, 168, 25, 162, 129, 147, 177, 169, 26, 163, 130, 148, 178,
    170, 27, 164, 131, 149, 179, 171, 28, 165, 132, 150, 180, 172, 29, 166, 133, 151, 181, 173, 30,
    167, 134, 144, 182, 174, 31, 160, 135, 145, 183, 175, 121, 169, 154, 140, 184, 176, 122, 170,
    155, 141, 185, 177, 123, 171, 156, 142, 186, 178, 124, 172, 157, 143, 187, 179, 125, 173, 158,
    136, 188, 180, 126, 174, 159, 137, 189, 181, 127, 175, 152, 138, 190, 182, 120, 168, 153, 139,
    191, 183, 46, 177, 148, 134, 160, 184, 47, 178, 149, 135, 161, 185, 40, 179, 150, 128, 162,
    186, 41, 180, 151, 129, 163, 187, 42, 181, 144, 130, 164, 188, 43, 182, 145, 131, 165, 189, 44,
    183, 146, 132, 166, 190, 45, 176, 147, 133, 167, 191, 79, 185, 142, 152, 168, 160, 72, 186,
    143, 153, 169, 161, 73, 187, 136, 154, 170, 162, 74, 188, 137, 155, 171, 163, 75, 189, 138,
    156, 172, 164, 76, 190, 139, 157, 173, 165, 77, 191, 140, 158, 174, 166, 78, 184, 141, 159,
    175, 167,
];

// One of the 192 tails, by its number: 64·h + 32·b + 8·c + a.
#[derive(Clone, Copy)]
pub struct Tail {
    pub number: u8,
    pub ghost in_tails: { number < tails },
}

impl Tail {
    // What begins it: 0 for nothing, 1 for H, 2 for SH.
    pub fn head(self) -> u8
        ensures { result ≡ tail_h self.number }
    {
        self.number / 64
    }

    // How many X's follow the head.
    pub fn xs(self) -> u8
        ensures { result ≡ tail_b self.number }
    {
        self.number / 32 % 2
    }

    // How many S's follow the X's.
    pub fn ss(self) -> u8
        ensures { result ≡ tail_c self.number }
    {
        self.number / 8 % 4
    }

    // How many W's end it.
    pub fn ws(self) -> u8
        ensures { result ≡ tail_a self.number }
    {
        self.number % 8
    }

    // This tail times T, right of T: with b = 1, c grows by 1 and a falls by 1.
    pub fn past_t(self) -> Tail
        ensures { PastT self.number result.number }
    {
        let b = self.xs();
        Tail {
            number: b * 32 + (self.number / 8 + b) % 4 * 8 + (self.number + 7 * b) % 8,
        }
    }

    // T, this tail of X, S and W, and T: c grows by 1, or with b = 1 a grows by 1. That a tail has no head stands in contracts: a type
    // of such tails would be made at one place alone, and left at the next.
    pub fn between_t(self) -> Tail
        requires { tail_h self.number ≡ 0 }
        ensures { BetweenT self.number result.number }
    {
        let b = self.xs();
        Tail {
            number: b * 32 + (self.number / 8 + (1 - b)) % 4 * 8 + (self.number + b) % 8,
        }
    }

    // This tail of X, S and W behind a head.
    pub fn behind(self, head: u8) -> Tail
        requires head_below_three { head < 3 }
        requires headless { tail_h self.number ≡ 0 }
        ensures { result.number ≡ 64 * head + self.number }
    {
        Tail {
            number: 64 * head + self.number,
        }
    }
}

// The column of a letter other than T, without a branch: H leaves 72, S 83, and W, X, Y and Z leave 1 to 4. A letter is a byte of
// a lent text, and the contracts say that it is one: a type of letters would have to be made of each byte.
fn column(letter: u8) -> u8
    requires { (is_letter letter ≡ true) × (letter ≡ T → ⊥) }
    ensures { Column letter result }
{
    letter % 86 % 6
}

// The table, which a caller binds once and lends: a constant named in a step is copied at each use.
#[derive(Clone, Copy)]
pub struct Products {
    entries: [u8; 1152],
}

impl Model for Products {
    ghost use Rattle.std.specs.Prelude.{ℕ, List};
    ghost use Rattle.tail.specs.Product.{ProductTable};

    ghost Value = { List ℕ };

    ghost view = { λ p. p.entries };

    ghost invariant = { λ p. ProductTable p.entries };

    ghost inverse = { λ entries. record { entries = entries } };
}

impl Products {
    pub fn new() -> Self
        ensures { ProductTable result }
    {
        Products { entries: PRODUCTS }
    }

    // A tail times a letter other than T.
    pub fn product(&self, tail: Tail, letter: u8) -> Tail
        requires { (is_letter letter ≡ true) × (letter ≡ T → ⊥) }
        ensures { Product tail.number letter result.number }
    {
        let place = 6 * (tail.number as usize) + (column(letter) as usize);
        Tail {
            number: self.entries[place],
        }
    }
}
