//! The numbers that are drawn.

ghost use Rattle.std.specs.Prelude.{◌≡◌, ◌<◌};
ghost use Rattle.demo_run.specs.Numbers.{generator_of, number_below, after_word};

use rand_core::utils::NextWord;
use rand_pcg::Lcg64Xsh32;

/// The stream of the generator.
const STREAM: u64 = 1;

/// The generator of a seed.
pub(crate) fn generator_of(seed: u64) -> Lcg64Xsh32
    ensures { result ≡ generator_of seed }
{
    Lcg64Xsh32::new(seed, STREAM)
}

/// The next word modulo `k`.
#[tactic(auto, unfolding(crate::specs::Numbers::number_below, crate::specs::Numbers::after_word))]
pub(crate) fn below(words: &mut Lcg64Xsh32, k: u32) -> u32
    requires { 0 < k }
    ensures value { result ≡ number_below k words.old }
    ensures after { words.new ≡ after_word words.old }
    ensures range { result < k }
{
    words.next_word() % k
}
