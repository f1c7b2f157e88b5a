//! The samples of a line, in words of 16 or of 32 bits.

ghost use Rattle.std.specs.Prelude.{◌≡◌, ℕ, ◌<◌, List, ◌++◌, length, slice_index, slice_set};
ghost use Rattle.std.specs.Prelude.{take, drop, refl};

/// Words that a line of samples is made of.
pub trait Word: Copy {
    // The samples of a line.
    ghost samples: { List Self → List ℕ };

    // Each is below this number.
    ghost limit: { ℕ };

    /// The sample at an index.
    fn read(line: &[Self], x: usize) -> u32
        requires { x < length line.now }
        ensures { result ≡ slice_index (samples line.now) x };

    /// Puts a sample at an index.
    fn write(line: &mut [Self], x: usize, sample: u32)
        requires inside { x < length line.old }
        requires few { sample < limit }
        ensures { samples line.new ≡ slice_set (samples line.old) x sample };

    ghost lengths: { (line : List Self) → length (samples line) ≡ length line };

    ghost takes: { (n : ℕ) (line : List Self) → samples (take n line) ≡ take n (samples line) };

    ghost drops: { (n : ℕ) (line : List Self) → samples (drop n line) ≡ drop n (samples line) };

    ghost joins: { (xs ys : List Self) → samples (xs ++ ys) ≡ samples xs ++ samples ys };
}

impl Word for u16 {
    ghost samples = { λ line. line };

    ghost limit = { 65536 };

    #[inline(always)]
    fn read(line: &[u16], x: usize) -> u32 {
        u32::from(line[x])
    }

    #[inline(always)]
    fn write(line: &mut [u16], x: usize, sample: u32) {
        line[x] = sample as u16;
    }

    ghost lengths = { λ line. refl };

    ghost takes = { λ n line. refl };

    ghost drops = { λ n line. refl };

    ghost joins = { λ xs ys. refl };
}

impl Word for u32 {
    ghost samples = { λ line. line };

    ghost limit = { 4294967296 };

    #[inline(always)]
    fn read(line: &[u32], x: usize) -> u32 {
        line[x]
    }

    #[inline(always)]
    fn write(line: &mut [u32], x: usize, sample: u32) {
        line[x] = sample;
    }

    ghost lengths = { λ line. refl };

    ghost takes = { λ n line. refl };

    ghost drops = { λ n line. refl };

    ghost joins = { λ xs ys. refl };
}
