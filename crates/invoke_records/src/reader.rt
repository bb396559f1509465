// Reading fields one after another from the front of some bytes.
ghost use Rattle.std.specs.Prelude.{◌≡◌, Ok};
ghost use Rattle.std.specs.Int.{w16, w32, w64};
ghost use Rattle.invoke_records.specs.Reading.{IsRead, byte_at, bytes_at, number_at, small_at, limit_at, policy_at, policy_in, sized_at};
ghost use Rattle.invoke_records.specs.Steps.{Reads, refused};

use crate::{RecordError, Version};
use retry_rules::RetryPolicy;
use std::marker::Model;

/// What is left to read, or the first fault that was met. Behind a fault a number reads as 0, and bytes as none.
#[derive(Drop)]
pub struct Reader<'a> {
    left: Result<&'a [u8], RecordError>,
}

impl<'a> Model for Reader<'a> {
    ghost use Rattle.std.specs.Prelude.{List, ℕ, Result};
    ghost use Rattle.std.specs.Result.{result_map_both};
    ghost use Rattle.invoke_records.specs.declared.error.RecordError.{RecordError};

    ghost Value = { Result (List ℕ) RecordError };

    ghost view = { λ reader. result_map_both (λ bytes. bytes.now) (λ why. why) reader.left };
}

impl<'a> Reader<'a> {
    pub fn new(bytes: &'a [u8]) -> Reader<'a>
        ensures { result ≡ Ok bytes.now }
    {
        Reader { left: Ok(bytes) }
    }

    /// What is left, or the first fault.
    pub fn end(self) -> Result<&'a [u8], RecordError>
        ensures { IsRead (λ rest. rest.now) result self.entry }
    {
        self.left
    }

    pub fn refuse(&mut self, bad: bool, why: RecordError)
        ensures { self.new ≡ refused bad why self.old }
    {
        if bad && self.left.is_ok() {
            self.left = Err(why);
        }
    }

    pub fn slice(&mut self, size: usize) -> &'a [u8]
        ensures { Reads (bytes_at size) self.old result.now self.new }
    {
        let Ok(bytes) = self.left else {
            return &[];
        };
        if bytes.len() < size {
            self.left = Err(RecordError::Truncated);
            return &[];
        }
        let (front, rest) = bytes.split_at(size);
        self.left = Ok(rest);
        front
    }

    pub fn array<const N: usize>(&mut self) -> [u8; N]
        ensures { Reads (bytes_at N) self.old result self.new }
    {
        let mut array = [0; N];
        let front = self.slice(N);
        if front.len() == N {
            array.copy_from_slice(front);
        }
        array
    }

    pub fn byte(&mut self) -> u8
        ensures { Reads byte_at self.old result self.new }
    {
        match self.left {
            Ok([byte, rest @ ..]) => {
                self.left = Ok(rest);
                *byte
            }
            Ok([]) => {
                self.left = Err(RecordError::Truncated);
                0
            }
            Err(_) => 0,
        }
    }

    pub fn u16(&mut self) -> u16
        ensures { Reads (number_at w16) self.old result self.new }
    {
        u16::from_be_bytes(self.array())
    }

    pub fn u32(&mut self) -> u32
        ensures { Reads (number_at w32) self.old result self.new }
    {
        u32::from_be_bytes(self.array())
    }

    pub fn u64(&mut self) -> u64
        ensures { Reads (number_at w64) self.old result self.new }
    {
        u64::from_be_bytes(self.array())
    }

    pub fn small(&mut self, least: u8, most: u8) -> u8
        ensures { Reads (small_at least most) self.old result self.new }
    {
        let n = self.byte();
        self.refuse(n < least, RecordError::BadKind);
        self.refuse(most < n, RecordError::BadKind);
        n
    }

    pub fn limit16(&mut self, least: u16, most: u16) -> u16
        ensures { Reads (limit_at w16 least most) self.old result self.new }
    {
        let n = self.u16();
        self.refuse(n < least, RecordError::BadKind);
        self.refuse(most < n, RecordError::BadKind);
        n
    }

    pub fn limit32(&mut self, least: u32, most: u32) -> u32
        ensures { Reads (limit_at w32 least most) self.old result self.new }
    {
        let n = self.u32();
        self.refuse(n < least, RecordError::BadKind);
        self.refuse(most < n, RecordError::BadKind);
        n
    }

    pub fn limit64(&mut self, least: u64, most: u64) -> u64
        ensures { Reads (limit_at w64 least most) self.old result self.new }
    {
        let n = self.u64();
        self.refuse(n < least, RecordError::BadKind);
        self.refuse(most < n, RecordError::BadKind);
        n
    }

    /// A retry policy within its ranges.
    pub fn policy(&mut self) -> RetryPolicy
        ensures { Reads policy_at self.old result self.new }
    {
        RetryPolicy {
            retries: self.small(0, 2),
            age: self.limit32(60, 21600),
        }
    }

    /// The retry policy of a row or a snapshot, which does not stand there in version 1.
    pub fn policy_in(&mut self, version: Version) -> RetryPolicy
        ensures { Reads (policy_in version) self.old result self.new }
    {
        match version {
            Version::One(policy) => policy,
            Version::Two => self.policy(),
        }
    }

    /// A length or a count: above its greatest it is `TooLong`.
    pub fn sized(&mut self, least: u32, most: u32) -> u32
        ensures { Reads (sized_at least most) self.old result self.new }
    {
        let n = self.u32();
        self.refuse(most < n, RecordError::TooLong);
        self.refuse(n < least, RecordError::BadKind);
        n
    }
}
