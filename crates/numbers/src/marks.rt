// The window word: a number of 256 bits in four words of 64, the lowest first. Each call is one
// operation on the number that the words make, for every place and every distance, so that nothing
// above it shifts or masks. Words and bits are moved apart: no shift is by 64 or more.
ghost use Rattle.std.specs.Prelude.{◌≡◌, ◌+◌, ◌-◌, ◌*◌, ◌/◌, ◌%◌, ◌^◌, ◌<◌, min, eqb};
ghost use Rattle.std.specs.Int.Count.{ones};
ghost use Rattle.numbers.specs.Word.{most, bit, set_bit, word_of, marks_of};

// Bit i of the number is bit i % 64 of word i / 64.
#[repr(C)]
#[derive(Clone, Copy, PartialEq, Eq)]
pub struct Marks {
    pub words: [u64; 4],
}

impl Marks {
    // How many bits the number has.
    pub const BITS: u64 = 256;

    // How many bits one word has.
    const WORD: u64 = 64;

    pub fn none() -> Marks
        ensures { result ≡ marks_of 0 }
    {
        Marks {
            words: [0, 0, 0, 0],
        }
    }

    // A word moved up by fewer bits than it has, with what the word below loses.
    fn up(x: u64, below: u64, by: u64) -> u64
        requires { by < 64 }
        ensures { result ≡ x * 2 ^ by % 2 ^ 64 + below / 2 ^ (64 - by) }
    {
        if by == 0 {
            return x;
        }
        x << by | below >> (Marks::WORD - by)
    }

    // Moved up by fewer bits than a word has. The four words are written out here and below: each takes
    // from its neighbour, and no loop by an index is plainer.
    fn lifted(self, by: u64) -> Marks
        requires { by < 64 }
        ensures { result ≡ marks_of (word_of self * 2 ^ by % 2 ^ most) }
    {
        let w = self.words;
        let a = Marks::up(w[0], 0, by);
        let b = Marks::up(w[1], w[0], by);
        let c = Marks::up(w[2], w[1], by);
        let d = Marks::up(w[3], w[2], by);
        Marks {
            words: [a, b, c, d],
        }
    }

    // Moved up by whole words.
    fn hopped(self, by: u64) -> Marks
        requires { 0 < by }
        ensures { result ≡ marks_of (word_of self * 2 ^ (64 * by) % 2 ^ most) }
    {
        let w = self.words;
        let words = match by {
            1 => [0, w[0], w[1], w[2]],
            2 => [0, 0, w[0], w[1]],
            3 => [0, 0, 0, w[0]],
            _ => return Marks::none(),
        };
        Marks { words }
    }

    // Moved up by any number of bits; what passes the top is lost.
    pub fn moved(self, by: u64) -> Marks
        ensures { result ≡ marks_of (word_of self * 2 ^ by % 2 ^ most) }
    {
        if by < Marks::WORD {
            return self.lifted(by);
        }
        let up = self.hopped(by / Marks::WORD);
        up.lifted(by % Marks::WORD)
    }

    // The bits of one word that are among the low k, where this many lie below the word.
    fn low(x: u64, k: u64, below: u64) -> u64
        ensures { result ≡ x % 2 ^ min 64 (k - below) }
    {
        if k <= below {
            return 0;
        }
        let n = k - below;
        if Marks::WORD <= n {
            return x;
        }
        x & (1 << n) - 1
    }

    // The low k bits.
    pub fn cut(self, k: u64) -> Marks
        ensures { result ≡ marks_of (word_of self % 2 ^ k) }
    {
        if Marks::BITS <= k {
            return self;
        }
        let w = self.words;
        let a = Marks::low(w[0], k, 0);
        let b = Marks::low(w[1], k, 64);
        let c = Marks::low(w[2], k, 128);
        let d = Marks::low(w[3], k, 192);
        Marks {
            words: [a, b, c, d],
        }
    }

    // With bit i set, where there is such a bit.
    pub fn set(self, i: u64) -> Marks
        ensures { result ≡ marks_of (set_bit (word_of self) i % 2 ^ most) }
    {
        if Marks::BITS <= i {
            return self;
        }
        let mut words = self.words;
        let j = (i / Marks::WORD) as usize;
        words[j] = words[j] | 1 << i % Marks::WORD;
        Marks { words }
    }

    // Whether bit i is set.
    pub fn test(self, i: u64) -> bool
        ensures { result ≡ bit (word_of self) i }
    {
        if Marks::BITS <= i {
            return false;
        }
        let w = self.words;
        let j = (i / Marks::WORD) as usize;
        w[j] >> i % Marks::WORD & 1 == 1
    }

    // Equality, as a call since its law speaks of the numbers that the words make.
    pub fn same(self, other: Marks) -> bool
        ensures { result ≡ eqb (word_of self) (word_of other) }
    {
        self == other
    }

    // How many bits are set.
    pub fn count(self) -> u32
        ensures { result ≡ ones (word_of self) }
    {
        let w = self.words;
        u64::count_ones(w[3])
            + u64::count_ones(w[2])
            + u64::count_ones(w[1])
            + u64::count_ones(w[0])
    }
}
