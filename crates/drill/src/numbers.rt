//! The numbers that a drill is generated from, seed, runs, topics and documents, with their ranges
//! and the most lines that they may make.
ghost use Rattle.std.specs.Prelude.{◌≡◌, ◌&&◌, nat_le};
ghost use Rattle.drill.specs.Figures.{are_numbers};

/// What a campaign is generated from: a number, and how many runs it has, how many topics, and how
/// many documents each run has on each topic.
#[derive(Clone, Copy, Debug, PartialEq, Eq)]
pub struct DrillNumbers {
    pub seed: u32,
    pub runs: u32,
    pub topics: u32,
    pub docs: u32,
}

const MOST_SEED: u32 = 2_147_483_647;

const MOST_RUNS: u32 = 256;

const MOST_TOPICS: u32 = 250;

const MOST_DOCS: u32 = 1_000;

const MOST_LINES: u64 = 8_000_000;

/// Whether a campaign is generated from these numbers.
pub fn are_numbers(numbers: &DrillNumbers) -> bool
    ensures { result ≡ are_numbers numbers.now }
{
    numbers.seed <= MOST_SEED
        && is_count(numbers.runs, MOST_RUNS)
        && is_count(numbers.topics, MOST_TOPICS)
        && is_count(numbers.docs, MOST_DOCS)
        && u64::from(numbers.runs) * u64::from(numbers.topics) * u64::from(numbers.docs)
            <= MOST_LINES
}

fn is_count(count: u32, most: u32) -> bool
    ensures { result ≡ (nat_le 1 count && nat_le count most) }
{
    1 <= count && count <= most
}
