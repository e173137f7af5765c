ghost use Rattle.std.specs.Prelude.{◌≡◌, ◌+◌, ◌*◌, ◌^◌, ◌<◌, ◌≤◌, ◌↔◌, length, suc, All, IfOk, MatchResult};
ghost use Rattle.definitions.specs.Words.{Extent, IsShape, IsWord, IsLetter, shorter, number};
ghost use Rattle.words.specs.Shapes.{IsRefusedBy};

use std::marker::Model;

/// Which words there are: the letters are 1 .. width, a word has at most `depth` letters.
/// The width is from 1 to 12 and the depth from 1 to 8, with at most 2,000 words.
#[derive(Debug, Clone, Copy, PartialEq, Eq, Drop)]
pub struct Shape {
    width: u32,
    depth: u32,
}

impl Model for Shape {
    ghost use Rattle.std.specs.Prelude.{◌≤◌, suc};
    ghost use Rattle.definitions.specs.Words.{Extent, IsShape};

    ghost Value = { Extent };

    ghost view = { λ s. record { width = s.width; depth = s.depth } };

    ghost inverse = { λ e. record { width = e.width; depth = e.depth } };

    ghost invariant = { λ s. IsShape (record { width = s.width; depth = s.depth }) };
}

/// Why a shape is refused; the tests are made in this order.
#[derive(Debug, Clone, Copy, PartialEq, Eq, Drop)]
pub enum ShapeFault {
    /// The width isn't in 1 .. 12.
    Width(u32),
    /// The depth isn't in 1 .. 8.
    Depth(u32),
    /// There are more than 2,000 words: so many.
    Words(u64),
}

/// How many words over up to 12 letters have fewer than 0 to 9 letters: a row for each width.
const SHORTER: [[u64; 10]; 13] = [
    [0, 1, 1, 1, 1, 1, 1, 1, 1, 1],
    [0, 1, 2, 3, 4, 5, 6, 7, 8, 9],
    [0, 1, 3, 7, 15, 31, 63, 127, 255, 511],
    [0, 1, 4, 13, 40, 121, 364, 1093, 3280, 9841],
    [0, 1, 5, 21, 85, 341, 1365, 5461, 21845, 87381],
    [0, 1, 6, 31, 156, 781, 3906, 19531, 97656, 488281],
    [0, 1, 7, 43, 259, 1555, 9331, 55987, 335923, 2015539],
    [0, 1, 8, 57, 400, 2801, 19608, 137257, 960800, 6725601],
    [0, 1, 9, 73, 585, 4681, 37449, 299593, 2396745, 19173961],
    [0, 1, 10, 91, 820, 7381, 66430, 597871, 5380840, 48427561],
    [
        0, 1, 11, 111, 1111, 11111, 111111, 1111111, 11111111, 111111111,
    ],
    [
        0, 1, 12, 133, 1464, 16105, 177156, 1948717, 21435888, 235794769,
    ],
    [
        0, 1, 13, 157, 1885, 22621, 271453, 3257437, 39089245, 469070941,
    ],
];

/// How many words have fewer than `length` letters.
fn count_shorter(width: u32, length: u32) -> u64
    requires width { width ≤ 12 }
    requires length { length ≤ 9 }
    ensures { result ≡ shorter width length }
{
    SHORTER[width as usize][length as usize]
}

/// The number of a word among those of its length, in lexicographic order from 0.
fn number_of(width: u32, word: &[u32]) -> u64
    requires width { width ≤ 12 }
    requires short { length word.now ≤ 8 }
    requires letters { All (IsLetter width) word.now }
    ensures value { result ≡ number width word.now }
    ensures bound { result < width ^ length word.now }
{
    let mut index: u64 = 0;
    for letter in word {
        index = index * width as u64 + (*letter - 1) as u64;
    }
    index
}

/// Writes the word of that number among those of `letters.len()` letters.
fn write_letters(width: u32, index: u64, letters: &mut [u32])
    requires some { 1 ≤ width }
    requires width { width ≤ 12 }
    requires short { length letters.old ≤ 8 }
    requires index { index < width ^ length letters.old }
    ensures value { number width letters.new ≡ index }
    ensures letters { All (IsLetter width) letters.new }
{
    let mut rest = index;
    let mut at = letters.len();
    while at > 0 {
        at -= 1;
        letters[at] = (rest % width as u64) as u32 + 1;
        rest /= width as u64;
    }
}

impl Shape {
    /// The shape of this width and depth, refused exactly as `ShapeFault` says.
    pub fn new(width: u32, depth: u32) -> Result<Shape, ShapeFault>
        ensures { MatchResult result (λ s. (s ≡ record { width = width; depth = depth }) × IsShape s) (λ e. IsRefusedBy width depth e) }
    {
        if width < 1 || width > 12 {
            return Err(ShapeFault::Width(width));
        }
        if depth < 1 || depth > 8 {
            return Err(ShapeFault::Depth(depth));
        }
        let total = count_shorter(width, depth + 1);
        if total > 2000 {
            return Err(ShapeFault::Words(total));
        }
        Ok(Shape { width, depth })
    }

    /// How many letters there are.
    pub fn width(&self) -> u32
        ensures value { result ≡ self.now.width }
        ensures shape { IsShape self.now }
    {
        self.width
    }

    /// How many letters a word has at most.
    pub fn depth(&self) -> u32
        ensures value { result ≡ self.now.depth }
        ensures shape { IsShape self.now }
    {
        self.depth
    }

    /// The number of words of length k, which is the width to the power of k.
    pub fn count(&self, k: u32) -> u64
        requires { k ≤ self.now.depth }
        ensures { result ≡ self.now.width ^ k }
    {
        (self.width as u64).pow(k)
    }

    /// The number of words.
    pub fn total(&self) -> u64
        ensures value { result ≡ shorter self.now.width (suc self.now.depth) }
        ensures shape { IsShape self.now }
    {
        count_shorter(self.width, self.depth + 1)
    }

    /// The number of words of fewer than k letters.
    pub fn before(&self, k: u32) -> u64
        requires { k ≤ self.now.depth + 1 }
        ensures value { result ≡ shorter self.now.width k }
        ensures within { result ≤ shorter self.now.width (suc self.now.depth) }
        ensures bound { result ≤ 2000 }
        ensures shape { IsShape self.now }
    {
        count_shorter(self.width, k)
    }

    /// The number of a word among those of its length, in lexicographic order from 0.
    pub fn index_of(&self, word: &[u32]) -> u64
        requires { IsWord self.now word.now }
        ensures value { result ≡ number self.now.width word.now }
        ensures bound { result < self.now.width ^ length word.now }
        ensures shape { IsShape self.now }
    {
        number_of(self.width, word)
    }

    /// Writes the word of that number among those of `letters.len()` letters.
    pub fn write_word(&self, index: u64, letters: &mut [u32])
        requires short { length letters.old ≤ self.now.depth }
        requires index { index < self.now.width ^ length letters.old }
        ensures value { number self.now.width letters.new ≡ index }
        ensures word { IsWord self.now letters.new }
    {
        write_letters(self.width, index, letters);
    }

    /// The place of a word among all words, those of fewer letters first.
    pub fn place_of(&self, word: &[u32]) -> u64
        requires { IsWord self.now word.now }
        ensures value { result ≡ shorter self.now.width (length word.now) + number self.now.width word.now }
        ensures bound { result < shorter self.now.width (suc self.now.depth) }
        ensures shape { IsShape self.now }
    {
        let width = self.width;
        count_shorter(width, word.len() as u32) + number_of(width, word)
    }
}
