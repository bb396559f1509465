// JSON objects, written member by member.
ghost use Rattle.std.specs.Prelude.{◌≡◌, ◌∷◌, ◌++◌, [], true, IfOk};
ghost use Rattle.destination_json.specs.Json.{in_quotes};
ghost use Rattle.api_core.specs.Steps.{Begun, Adds, named};

use std::alloc::{AllocError, Global};

/// What was written of an object, and whether all of it is there: it is not once memory was wanting.
#[derive(Drop)]
pub(crate) struct Object {
    text: Vec<u8>,
    is_whole: bool,
}

impl Object {
    // An object without members.
    fn new(alloc: Global) -> Object
        ensures { result.text.items ≡ [] }
    {
        Object {
            text: Vec::new(alloc),
            is_whole: true,
        }
    }

    fn put(&mut self, bytes: &[u8])
        ensures { Adds bytes.now self.old self.new }
    {
        if self.text.extend_from_slice(bytes).is_err() {
            self.is_whole = false;
        }
    }

    // A member, its value being a JSON text.
    fn put_member(&mut self, name: &str, value: &[u8])
        ensures { Adds (named name.now value.now) self.old self.new }
    {
        self.put(b"\"");
        self.put(name.as_bytes());
        self.put(b"\":");
        self.put(value);
    }

    // A member, its value being a text that needs no escape.
    fn put_text(&mut self, name: &str, text: &[u8])
        ensures { Adds (named name.now (in_quotes text.now)) self.old self.new }
    {
        self.put(b"\"");
        self.put(name.as_bytes());
        self.put(b"\":\"");
        self.put(text);
        self.put(b"\"");
    }

    /// An object whose first member is a text. The text needs no escape.
    pub(crate) fn of_text(alloc: Global, name: &str, text: &[u8]) -> Object
        ensures { Begun (named name.now (in_quotes text.now) ∷ []) result }
    {
        let mut object = Object::new(alloc);
        object.put(b"{");
        object.put_text(name, text);
        object
    }

    /// An object whose first member is a JSON text.
    pub(crate) fn of_member(alloc: Global, name: &str, value: &[u8]) -> Object
        ensures { Begun (named name.now value.now ∷ []) result }
    {
        let mut object = Object::new(alloc);
        object.put(b"{");
        object.put_member(name, value);
        object
    }

    /// A further member that is a text. The text needs no escape.
    pub(crate) fn add_text(&mut self, name: &str, text: &[u8])
        ensures { Adds (44 ∷ named name.now (in_quotes text.now)) self.old self.new }
    {
        self.put(b",");
        self.put_text(name, text);
    }

    /// A further member, its value being a JSON text.
    pub(crate) fn add_member(&mut self, name: &str, value: &[u8])
        ensures { Adds (44 ∷ named name.now value.now) self.old self.new }
    {
        self.put(b",");
        self.put_member(name, value);
    }

    /// The whole object.
    pub(crate) fn end(mut self) -> Result<Vec<u8>, AllocError>
        ensures { IfOk result (λ text. (self.is_whole ≡ true) × (text.items ≡ self.text.items ++ 125 ∷ [])) }
    {
        self.put(b"}");
        let Object { text, is_whole } = self;
        if is_whole { Ok(text) } else { Err(AllocError) }
    }
}
