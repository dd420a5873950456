//! How the two labels of documents agree.
ghost use Rattle.std.specs.Prelude.{◌≡◌, ◌<◌, ◌^◌, count_by, length};
ghost use Rattle.leave_out.specs.Pairs.{are_both, are_equal, is_either};

/// How many pairs have two equal grades.
pub(crate) fn equal(pairs: &[(u8, u8)]) -> u32
    requires { length pairs.now < 2 ^ 32 }
    ensures { result ≡ count_by are_equal pairs.now }
{
    pairs.iter().filter(|pair| pair.0 == pair.1).count() as u32
}

/// How many have two relevant ones.
pub(crate) fn both(level: u8, pairs: &[(u8, u8)]) -> u32
    requires { length pairs.now < 2 ^ 32 }
    ensures { result ≡ count_by (are_both level) pairs.now }
{
    pairs
        .iter()
        .filter(|pair| level <= pair.0 && level <= pair.1)
        .count() as u32
}

/// How many have a relevant one.
pub(crate) fn either(level: u8, pairs: &[(u8, u8)]) -> u32
    requires { length pairs.now < 2 ^ 32 }
    ensures { result ≡ count_by (is_either level) pairs.now }
{
    pairs
        .iter()
        .filter(|pair| level <= pair.0 || level <= pair.1)
        .count() as u32
}
