//! Tests of the edge below the front, of what only one process can see: disks in files, threads that share an office, the board,
//! and long polls. `tests/cases` has those of the program as built, its ports and their limits among them.
//!
//! It has no code of its own. What opens a disk, a hall and an office for these tests is proved once here, and no crate
//! below is proved a second time for its tests.
#![tactic(auto)]

#[cfg(test)]
mod tests;
