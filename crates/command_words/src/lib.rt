//! The words of a call, read by the forms of a program's commands. The first word is the command's
//! name. Behind it stand its positional words in their order, and its options in any order and
//! between them, each once, as `--name V` or `--name=V`. No other word begins with a minus, and no
//! value does.
//!
//! - `words`: the words of a call as a command; which values words give: `specs/Words.antt`.
//! - `forms`: the form of a command. `numbers`: a number that a word writes (`specs/Numbers.antt`).
//! - `command_lines`: the command line that `clap` is given (`specs/CommandLines.antt`). `values`:
//!   what its matches have.
//! - That what `clap` makes of words is what they give: word by word `proofs/WalkStates.antt`, for
//!   all words behind a command's name `proofs/Agreements.antt`, for a whole call
//!   `proofs/Subcommands.antt`.
#![tactic(auto)]

mod command_lines;
mod forms;
mod numbers;
mod values;
mod words;

pub use forms::{CommandForm, CommandWords};
pub use numbers::number_in;
pub use words::read_command;
