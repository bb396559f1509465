// Keys and their rights.
ghost use Rattle.std.specs.Prelude.{◌≡◌, None, Some, map};
ghost use Rattle.signed_requests.specs.Rights.{has_right, with_right, no_rights};
ghost use Rattle.signed_requests.specs.Keys.{key_named};
ghost use Rattle.signed_requests.specs.Entries.{option_entry, entries_of};

/// What a key may do.
#[derive(Clone, Copy, Debug, PartialEq, Eq)]
pub enum Right {
    /// To invoke the function, and to ask what describes it.
    Invoke,
    /// To read and take destination records.
    Collect,
    /// To change the retry policy.
    Configure,
    /// To stop the broker.
    Stop,
}

/// Which rights a key has.
#[derive(Clone, Copy, Debug)]
pub struct Rights {
    pub invoke: bool,
    pub collect: bool,
    pub configure: bool,
    pub stop: bool,
}

impl Rights {
    /// No right.
    pub(crate) fn none() -> Rights
        ensures { result ≡ no_rights }
    {
        Rights {
            invoke: false,
            collect: false,
            configure: false,
            stop: false,
        }
    }

    /// Whether a right is among them.
    pub fn has(self, right: Right) -> bool
        ensures { result ≡ has_right self right }
    {
        match right {
            Right::Invoke => self.invoke,
            Right::Collect => self.collect,
            Right::Configure => self.configure,
            Right::Stop => self.stop,
        }
    }

    /// The same, and one more.
    pub(crate) fn with(self, right: Right) -> Rights
        ensures { result ≡ with_right self right }
    {
        let mut more = self;
        match right {
            Right::Invoke => more.invoke = true,
            Right::Collect => more.collect = true,
            Right::Configure => more.configure = true,
            Right::Stop => more.stop = true,
        }
        more
    }
}

/// A key of those who may ask: its access key, which a request names, its secret and its rights.
#[derive(Drop)]
pub struct Key {
    pub access: Vec<u8>,
    pub secret: Vec<u8>,
    pub rights: Rights,
}

/// The key that has this access key.
pub(crate) fn key_named<'a>(keys: &'a [Key], name: &[u8]) -> Option<&'a Key>
    ensures { option_entry result ≡ key_named name.now (entries_of keys.entry.now) }
{
    match keys {
        [] => None,
        [key, more @ ..] => {
            if key.access.as_slice() == name {
                return Some(key);
            }
            key_named(more, name)
        }
    }
}
