//! A search among items that a table finds by a key.
ghost use Rattle.std.specs.Prelude.{◌≡◌, Bool, Some, find, if◌then◌else◌};
ghost use Rattle.std.specs.Option.{option_map};
ghost use Rattle.decimal_rank.specs.Tables.Searches.{AreUnder};

use crate::tables::chains::Chains;

/// What is looked for among items.
pub trait Sought<T> {
    ghost finds: { Self → T → Bool };

    /// Whether an item is looked for.
    fn finds(&self, item: &T) -> bool
        ensures { result ≡ finds self.now item.now };
}

/// The first item that is looked for. Each that is stands in the bucket of the key. The walk goes
/// from the bucket's newest item to its first, so the last that it finds is the first of them.
pub fn first_found<'a, T, S: Sought<T>>(
    chains: &Chains,
    items: &'a [T],
    key: u64,
    sought: &S,
) -> Option<&'a T>
    requires { AreUnder (S.finds sought.now) chains.now items.now key }
    ensures { option_map (λ item. item.now) result ≡ find (S.finds sought.now) items.now }
{
    let mut found = None;
    let mut next = chains.newest(key);
    while let Some(place) = next {
        found = nearer(&items[place as usize], sought, found);
        next = chains.earlier(place);
    }
    found
}

/// An earlier item where it is looked for, and else what was found behind it.
fn nearer<'a, T, S: Sought<T>>(item: &'a T, sought: &S, found: Option<&'a T>) -> Option<&'a T>
    ensures { option_map (λ item. item.now) result ≡ (if S.finds sought.now item.now then Some
        item.now else option_map (λ item. item.now) found.entry) }
{
    if sought.finds(item) {
        return Some(item);
    }
    found
}
