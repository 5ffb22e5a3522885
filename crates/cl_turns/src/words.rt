ghost use Rattle.cl_turns.specs.Words.{generator_after, words_of_seed};
ghost use Rattle.std.specs.Prelude.{◌≡◌, ℕ, suc};

use rand_core::SeedableRng;
use rand_core::utils::NextWord;
use rand_pcg::Lcg64Xsh32;

/// The generator of the words of a seed, before the first.
pub fn generator_of(seed: u64) -> Lcg64Xsh32
    ensures { result ≡ generator_after seed 0 }
{
    Lcg64Xsh32::seed_from_u64(seed)
}

/// The next word.
pub fn next_word(generator: &mut Lcg64Xsh32) -> u32
    ensures word { (seed turn : ℕ) → generator.old ≡ generator_after seed turn → result ≡ words_of_seed seed turn }
    ensures left { (seed turn : ℕ) → generator.old ≡ generator_after seed turn → generator.new ≡ generator_after seed (suc turn) }
{
    generator.next_word()
}
