//! The mode `demo`: its arguments.

ghost use Rattle.std.specs.Prelude.{◌≡◌, map};
ghost use Rattle.host_program.specs.Loading.{load_of_args, load_of_words};

use line_text::read_number;

/// How many arguments it has.
const ARGS: usize = 2;

/// The most steps that may be asked for (profile).
const MOST_STEPS: u64 = 100_000;

/// A demonstration load: the seed of its steps, and how many there are.
#[derive(Clone, Copy, Drop)]
pub(crate) struct Load {
    pub seed: u64,
    pub steps: u32,
}

/// The load that these arguments of the mode ask for.
pub(crate) fn load_of_args(args: &[&str]) -> Option<Load>
    ensures form { result ≡ load_of_args (map (λ s. s.now) args.now) }
{
    if args.len() != ARGS {
        return None;
    }
    match args {
        [seed, steps] => load_of_words(seed.as_bytes(), steps.as_bytes()),
        _ => None,
    }
}

/// The load of these words: a seed and a number of steps.
fn load_of_words(seed: &[u8], steps: &[u8]) -> Option<Load>
    ensures form { result ≡ load_of_words seed.now steps.now }
{
    let seed = read_number(seed, u64::MAX)?;
    let steps = read_number(steps, MOST_STEPS)?;
    Some(Load {
        seed,
        steps: steps as u32,
    })
}
