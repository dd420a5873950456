//! The form of a command, and what is read by it.

/// The form of a command: its name, the names of its positional words in their order, and the names
/// of its options.
pub type CommandForm<'a> = (&'a str, &'a [&'a str], &'a [&'a str]);

/// A command that was read: its name, and the values of its positional words and then of its
/// options, in the order of their names in its form.
#[derive(Debug, Drop)]
pub struct CommandWords<'a> {
    pub name: &'a str,
    pub values: Vec<&'a str>,
}
