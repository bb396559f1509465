// Signatures compared in a time that does not depend on where they differ.
ghost use Rattle.std.specs.Prelude.{◌≡◌, length, bytes_eq};

// Whether two texts of one length are the same. Every byte is looked at, whatever the earlier ones were.
fn differ_nowhere(first: &[u8], second: &[u8]) -> bool
    requires { length first.now ≡ length second.now }
    ensures { result ≡ bytes_eq first.now second.now }
{
    let mut differences = 0u8;
    for i in 0..first.len() {
        differences |= first[i] ^ second[i];
    }
    differences == 0
}

/// Whether two texts are the same, in a time that tells no more of them than their lengths.
pub(crate) fn is_same(first: &[u8], second: &[u8]) -> bool
    ensures { result ≡ bytes_eq first.now second.now }
{
    first.len() == second.len() && differ_nowhere(first, second)
}
