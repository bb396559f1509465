// What is tested, by folder or file; `house` opens an office on a disk in memory for a story to happen in.
mod disks;
mod files;
mod house;
mod meters;
mod paths;
mod polls;
mod threads;
