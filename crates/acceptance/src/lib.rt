//! Tests that cross crates: the program's top call over files, output, links and disks in memory.
#![tactic(auto)]

#[cfg(test)]
mod adapters;
#[cfg(test)]
mod calls;
#[cfg(test)]
mod drills;
#[cfg(test)]
mod links;
#[cfg(test)]
mod network;
#[cfg(test)]
mod servers;
#[cfg(test)]
mod session;
#[cfg(test)]
mod settings;
#[cfg(test)]
mod shelves;
