// The stored sample byte by byte: what is left of it to read, and what its bytes stand for.

#![tactic(auto)]

pub mod padded; // the bytes by position, zeros behind them

ghost use Rattle.std.specs.Prelude.{◌≡◌, ◌≤◌, ◌<◌, ◌++◌, ◌∷◌, ◌==◌, ◌/◌, length, take, drop, not, MatchOption, IfSome};
ghost use Rattle.sample_bytes.specs.Words.{is_known, is_number, value, float, number};
ghost use Rattle.std.specs.Float.{binary64};
ghost use Rattle.std.specs.Int.{w16, from_le_bytes};
ghost use Rattle.std.specs.List.{list_all};
ghost use Rattle.std.specs.Simd.{first_chunks};
ghost use Rattle.std.specs.Float.Ieee.{nan_bits};

// Bytes that are read from their beginning on: those that are left.
#[derive(Clone, Copy)]
pub struct Reader<'a> {
    pub rest: &'a [u8],
}

impl<'a> Reader<'a> {
    // The next `n` bytes, none where fewer are left.
    pub fn take(&mut self, n: usize) -> Option<&'a [u8]>
        ensures { MatchOption result
            ((length self.old.rest.now < n) × (self.new.rest.now ≡ self.old.rest.now))
            (λ part. (length part.now ≡ n) × (self.old.rest.now ≡ part.now ++ self.new.rest.now)) }
    {
        self.rest.split_off(..n)
    }

    // The next byte.
    pub fn byte(&mut self) -> Option<u8>
        ensures { MatchOption result
            ((length self.old.rest.now ≡ 0) × (self.new.rest.now ≡ self.old.rest.now))
            (λ byte. self.old.rest.now ≡ byte ∷ self.new.rest.now) }
    {
        self.rest.split_off_first().copied()
    }

    // The next byte, to count with.
    pub fn count(&mut self) -> Option<usize>
        ensures next { MatchOption result
            ((length self.old.rest.now ≡ 0) × (self.new.rest.now ≡ self.old.rest.now))
            (λ n. self.old.rest.now ≡ n ∷ self.new.rest.now) }
        ensures byte { IfSome result (λ n. n ≤ 255) }
    {
        self.byte().map(usize::from)
    }

    // The next two bytes as a number, the low one first.
    pub fn pair(&mut self) -> Option<usize>
        ensures { MatchOption result
            ((length self.old.rest.now < 2) × (self.new.rest.now ≡ self.old.rest.now))
            (λ n. (n ≡ from_le_bytes w16 (take 2 self.old.rest.now)) × (self.new.rest.now ≡ drop 2 self.old.rest.now)) }
    {
        let (pair, rest) = self.rest.split_first_chunk()?;
        self.rest = rest;
        Some(usize::from(u16::from_le_bytes(*pair)))
    }

    // Whether all is read.
    pub fn is_at_end(&self) -> bool
        ensures { result ≡ (length self.now.rest.now == 0) }
    {
        self.rest.is_empty()
    }
}

// A day's table of eight bytes a word.
#[derive(Clone, Copy)]
pub struct Words<'a> {
    pub words: &'a [[u8; 8]],
}

impl<'a> Words<'a> {
    // The words of a table, without the bytes behind the last whole one.
    pub fn of(table: &'a [u8]) -> Words<'a>
        ensures { result.words.now ≡ first_chunks 8 (length table.now / 8) table.now }
    {
        let (words, _) = table.as_chunks::<8>();
        Words { words }
    }

    // Whether a byte stands for something: itself below 128, and else an entry of the table.
    #[tactic(auto, unfolding(crate::specs::Words::is_known))]
    pub fn is_known(&self, byte: u8) -> bool
        ensures { result ≡ is_known self.now.words.now byte }
    {
        usize::from(byte) < 128 + self.words.len()
    }

    // Whether every byte of a part does.
    pub fn are_known(&self, bytes: &[u8]) -> bool
        ensures { result ≡ list_all (is_known self.now.words.now) bytes.now }
    {
        bytes.iter().all(|&byte| self.is_known(byte))
    }

    // What a byte stands for, 0 where that is nothing.
    #[tactic(auto, unfolding(crate::specs::Words::value, crate::specs::Words::word_or_zero))]
    pub fn value(&self, byte: u8) -> u64
        ensures { result ≡ value self.now.words.now byte }
    {
        if byte < 128 {
            return u64::from(byte);
        }
        match self.words.get(usize::from(byte - 128)) {
            Some(word) => u64::from_le_bytes(*word),
            None => 0,
        }
    }

    // The same as a number, 0 where it would be a NaN.
    #[tactic(auto, unfolding(crate::specs::Words::number))]
    pub fn number(&self, byte: u8) -> f64
        ensures { result ≡ number self.now.words.now byte }
    {
        if byte < 128 {
            return f64::from(byte);
        }
        float(self.value(byte))
    }

    // Whether no word is a NaN's.
    pub fn are_floats(&self) -> bool
        ensures { result ≡ list_all is_number self.now.words.now }
    {
        self.words
            .iter()
            .all(|word| is_float(u64::from_le_bytes(*word)))
    }
}

// Whether a word is the bits of a float that isn't a NaN: the exponent isn't all ones, or no digit is set.
pub fn is_float(bits: u64) -> bool
    ensures { result ≡ not (nan_bits binary64 bits) }
{
    if bits % 0x8000_0000_0000_0000 / 0x10_0000_0000_0000 == 2047 {
        return bits % 0x10_0000_0000_0000 == 0;
    }
    true
}

// The float of a word, 0 where it would be a NaN.
#[tactic(auto, unfolding(crate::specs::Words::float))]
fn float(bits: u64) -> f64
    ensures { result ≡ float bits }
{
    if is_float(bits) {
        return f64::from_bits(bits);
    }
    0.0
}

// Whether two numbers have the same bits; of a NaN it isn't said.
pub fn same(x: f64, y: f64) -> bool {
    if x == y {
        return f64::to_bits(x) == f64::to_bits(y);
    }
    false
}
