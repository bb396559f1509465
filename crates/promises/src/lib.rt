//! What is promised to whoever was answered, from the reply to the disk: laws that join what the calls below say.
//!
//! Each is about just the words of those calls. `Hall::new` stands for an empty run on the history that its broker was
//! opened on. Each `Hall::arrive` and `Hall::tick` adds its call to that run, `Hall::take` gives what it releases. The
//! broker stands for the run's history, and each image of its disk is a legal stop, to which `Broker::open` goes back.
#![tactic(auto)]

pub mod laws;
