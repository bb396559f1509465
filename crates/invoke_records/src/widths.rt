// What the types say of values, for the proofs.
ghost use Rattle.std.specs.Prelude.{◌≡◌, length};
ghost use Rattle.invoke_records.specs.Spelling.{IsBytes};

/// An id is 16 bytes.
pub fn id_has_16(id: &[u8; 16])
    ensures len { length id.now ≡ 16 }
    ensures bytes { IsBytes id.now }
{
    are_bytes(id);
}

/// Bytes are numbers below 256.
pub fn are_bytes(bytes: &[u8])
    ensures { IsBytes bytes.now }
{}
