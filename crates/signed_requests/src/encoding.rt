// How bytes stand in what is signed.
ghost use Rattle.std.specs.Prelude.{◌≡◌, ◌<◌, ◌++◌, OnOk};
ghost use Rattle.signed_requests.specs.Encoding.{is_unreserved, upper_digit, lower_digit, encoded_byte, uri_encode, path_byte, encode_parts, hex};

use std::alloc::AllocError;

fn is_unreserved(b: u8) -> bool
    ensures { result ≡ is_unreserved b }
{
    (b'A' <= b && b <= b'Z')
        || (b'a' <= b && b <= b'z')
        || (b'0' <= b && b <= b'9')
        || b == b'-'
        || b == b'.'
        || b == b'_'
        || b == b'~'
}

fn upper_digit(n: u8) -> u8
    requires { n < 16 }
    ensures { result ≡ upper_digit n }
{
    if n < 10 { 48 + n } else { 55 + n }
}

fn lower_digit(n: u8) -> u8
    requires { n < 16 }
    ensures { result ≡ lower_digit n }
{
    if n < 10 { 48 + n } else { 87 + n }
}

fn push_byte(out: &mut Vec<u8>, b: u8) -> Result<(), AllocError>
    ensures { OnOk result (out.new.items ≡ out.old.items ++ encoded_byte b) }
{
    if is_unreserved(b) {
        return out.extend_from_slice(&[b]);
    }
    out.extend_from_slice(&[b'%', upper_digit(b / 16), upper_digit(b % 16)])
}

/// Puts bytes behind a text, encoded.
pub(crate) fn push_encoded(out: &mut Vec<u8>, bytes: &[u8]) -> Result<(), AllocError>
    ensures { OnOk result (out.new.items ≡ out.old.items ++ uri_encode bytes.now) }
{
    for b in bytes {
        push_byte(out, *b)?;
    }
    Ok(())
}

fn push_path_byte(out: &mut Vec<u8>, b: u8) -> Result<(), AllocError>
    ensures { OnOk result (out.new.items ≡ out.old.items ++ path_byte b) }
{
    if b == b'/' {
        return out.extend_from_slice(&[b]);
    }
    push_byte(out, b)
}

/// Puts a path behind a text, each of its parts encoded.
pub(crate) fn push_parts(out: &mut Vec<u8>, path: &[u8]) -> Result<(), AllocError>
    ensures { OnOk result (out.new.items ≡ out.old.items ++ encode_parts path.now) }
{
    for b in path {
        push_path_byte(out, *b)?;
    }
    Ok(())
}

/// Puts bytes behind a text as hexadecimal digits in lower case.
pub(crate) fn push_hex(out: &mut Vec<u8>, bytes: &[u8]) -> Result<(), AllocError>
    ensures { OnOk result (out.new.items ≡ out.old.items ++ hex bytes.now) }
{
    for b in bytes {
        out.extend_from_slice(&[lower_digit(*b / 16), lower_digit(*b % 16)])?;
    }
    Ok(())
}
