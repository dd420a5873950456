//! The bounds and the keys of settings.

/// The most callers.
pub const MOST_CALLERS: usize = 500;

/// The keys that settings may have.
pub const NAMES: [&str; 8] = [
    "depth",
    "term",
    "hold",
    "level",
    "top_grade",
    "doubles",
    "levels",
    "caller",
];
