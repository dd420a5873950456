//! Entries as bytes: each entry that may be spelled has one spelling, and several have one bundle,
//! which are written and read here.
//!
//! - `layout`: the numbers of the format. `faults`: why bytes aren't read.
//! - Reading, left to right, field by field (`specs/Readings.antt`): `cursor` (the bytes that are
//!   left), `entries::fields`, `entries::text_orders` (texts that stand twice, or out of order),
//!   `entries::lists`, `entries::commands`, `entries`. The law of a field, that what is read is
//!   spelled so and read again: `proofs/FieldCodes/Codes.antt`.
//! - Writing: `spelling` (`rulebook/specs/Spelling.antt`).
//! - Bundles (`specs/Bundles.antt`): `bundles` (writing), `bundles::bundle_items` (the entries of
//!   one), `bundles::briefs` (what it has of a command), `bundles::bundle_tables` (its callers and
//!   texts: `specs/Tables.antt`), `bundles::varints`; `bundles::bundle_reading` (a bundle read
//!   loosely: `specs/BundleGrammar.antt`), `bundles::varint_reading`, `bundles::packing` (which
//!   entries may have one).
//! - Payloads, each a spelling or a bundle (`specs/Payloads.antt`): `payloads` (reading).
//! - `laws`: an entry and its spelling determine each other.
//! - A new kind of command: `layout`, `entries::commands` and `spelling`, a case of `command_of` in
//!   `specs/Readings.antt`, and one of `kinds` in `proofs/FieldCodes/EntryCodes.antt`.
#![tactic(auto)]

mod bundles;
mod cursor;
mod entries;
mod faults;
mod laws;
mod layout;
mod payloads;
mod spelling;

pub use bundles::briefs::is_brief;
pub use bundles::write_bundle;
pub use entries::read_entry;
pub use faults::CodecFault;
pub use laws::{
    briefs_fit, bundles_fit, one_bundle, one_payload, one_spelling, payloads_are_read,
    three_entries_bundled,
};
pub use layout::MOST_BUNDLED;
pub use payloads::read_payload;
pub use spelling::write_entry;
