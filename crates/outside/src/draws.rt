//! The words of the draws: the trait, and the generator PCG64.

ghost use Rattle.std.specs.Prelude.{◌≡◌, ◌+◌, ℕ};
ghost use Rattle.outside.specs.Words.{pcg_words, word_after};

use rand_core::SeedableRng;
use rand_core::utils::NextWord;
use rand_pcg::Pcg64;

/// Words for the draws, in sequences that a number names.
pub trait Draws {
    // Word k of the sequence of a number.
    ghost words: { ℕ → ℕ → ℕ };

    // The k-th word from here on.
    ghost rest: { Self → ℕ → ℕ };

    fn begin(&mut self, from: u64, skip: u64)
        ensures { (k : ℕ) → rest self.new k ≡ words from (skip + k) };

    fn word(&mut self) -> u64
        ensures value { result ≡ rest self.old 0 }
        ensures moves { (k : ℕ) → rest self.new k ≡ rest self.old (1 + k) };
}

/// The words of the generator PCG64.
#[derive(Drop)]
pub struct PcgDraws {
    generator: Pcg64,
}

impl PcgDraws {
    pub fn new() -> PcgDraws
        ensures { (k : ℕ) → ⟦<PcgDraws as Draws>⟧.rest result k ≡ pcg_words 0 k }
    {
        PcgDraws {
            generator: Pcg64::seed_from_u64(0),
        }
    }
}

impl Draws for PcgDraws {
    ghost words = { pcg_words };

    ghost rest = { λ d k. word_after d.generator k };

    fn begin(&mut self, from: u64, skip: u64) {
        let mut generator = Pcg64::seed_from_u64(from);
        generator.advance(skip as u128);
        self.generator = generator;
    }

    fn word(&mut self) -> u64 {
        self.generator.next_word()
    }
}
