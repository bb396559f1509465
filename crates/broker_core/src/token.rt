// Numbers of commands that only this crate gives out.
ghost use Rattle.std.specs.Prelude.{◌≡◌, ◌<◌, ◌≤◌, IfOk, IfErr};

use std::marker::Model;

/// A place in the history: that of an issued command, or the end of all that was issued. It need not be durable yet;
/// `Broker::redeem` or `settled_by` turn it into a receipt once it is.
#[derive(Drop)]
pub struct Ticket {
    number: u64,
}

impl Model for Ticket {
    ghost use Rattle.std.specs.Prelude.{ℕ};

    ghost Value = { ℕ };

    ghost view = { λ t. t.number };
}

impl Ticket {
    pub(crate) fn new(number: u64) -> Ticket
        ensures { result ≡ number }
    {
        Ticket { number }
    }

    /// The command's number, from 1 on, or how many commands were issued.
    pub fn number(&self) -> u64
        ensures { result ≡ self.now }
    {
        self.number
    }

    /// A receipt exactly where the ticket's number is at most this one, which is meant to be durable; else the ticket is
    /// handed back. It takes no memory.
    pub fn settled_by(self, number: u64) -> Result<Receipt, Ticket>
        // claim: A new ticket has the number of all that was issued. A ticket becomes a receipt exactly where its number is at
        // most the given one. [Broker::ticket]
        ensures settled { IfOk result (λ receipt. (receipt ≡ self) × (self ≤ number)) }
        ensures waits { IfErr result (λ ticket. (ticket ≡ self) × (number < self)) }
    {
        if self.number <= number {
            Ok(Receipt::new(self.number))
        } else {
            Err(self)
        }
    }
}

/// That a command is durable, and each before it: no stop of the disk takes them away.
#[derive(Clone, Copy)]
pub struct Receipt {
    number: u64,
}

impl Model for Receipt {
    ghost use Rattle.std.specs.Prelude.{ℕ};

    ghost Value = { ℕ };

    ghost view = { λ r. r.number };

    ghost inverse = { λ n. record { number = n } };
}

impl Receipt {
    pub(crate) fn new(number: u64) -> Receipt
        ensures { result ≡ number }
    {
        Receipt { number }
    }

    /// The ticket's number: each command up to it is durable.
    pub fn number(&self) -> u64
        ensures { result ≡ self.now }
    {
        self.number
    }
}

/// How many commands are durable: the first so many of the history.
#[derive(Clone, Copy)]
pub struct Durable {
    number: u64,
}

impl Model for Durable {
    ghost use Rattle.std.specs.Prelude.{ℕ};

    ghost Value = { ℕ };

    ghost view = { λ d. d.number };

    ghost inverse = { λ n. record { number = n } };
}

impl Durable {
    pub(crate) fn new(number: u64) -> Durable
        ensures { result ≡ number }
    {
        Durable { number }
    }

    /// How many commands are durable.
    pub fn number(&self) -> u64
        ensures { result ≡ self.now }
    {
        self.number
    }

    /// A receipt of the last of them.
    pub fn receipt(&self) -> Receipt
        ensures { result ≡ self.now }
    {
        Receipt::new(self.number)
    }
}
