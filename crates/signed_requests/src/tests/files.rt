// Files of keys.
use super::KEYS;
use crate::{KeysError, Right, read_keys};
use std::alloc::Global;
use std::test::Fail;

fn bad_line(alloc: Global, file: &str) -> Option<u64> {
    match read_keys(alloc, file.as_bytes()) {
        Err(KeysError::BadLine(line)) => Some(line),
        _ => None,
    }
}

#[test]
fn good_file(rt: HostRuntime) -> Result<(), Fail> {
    let keys = read_keys(rt.alloc(), KEYS.as_bytes())?;
    assert_eq!(rt; keys.len(), 2);
    assert!(rt; keys[0].rights.has(Right::Collect) && !keys[0].rights.has(Right::Stop));
    Ok(())
}

#[test]
fn bad_lines(rt: HostRuntime) -> Result<(), Fail> {
    for (file, line) in [
        ("# only this\n\nAKIDEXAMPLE0000 0123456789abcdef invoke", 3),
        ("AKIDEXAMPLE00000 0123456789abcde invoke", 1),
        ("AKIDEXAMPLE0000- 0123456789abcdef invoke", 1),
        ("AKIDEXAMPLE00000 0123456789abcdef", 1),
        ("AKIDEXAMPLE00000 0123456789abcdef invoke ", 1),
        ("AKIDEXAMPLE00000 0123456789abcdef invoke,invoke", 1),
        ("AKIDEXAMPLE00000 0123456789abcdef read", 1),
        (
            "AKIDEXAMPLE00000 0123456789abcdef stop\nAKIDEXAMPLE00000 1123456789abcdef stop",
            2,
        ),
    ] {
        assert_eq!(rt; bad_line(rt.alloc(), file), Some(line), "{file}");
    }
    Ok(())
}

#[test]
fn too_many_keys(rt: HostRuntime) -> Result<(), Fail> {
    let alloc = rt.alloc();
    let mut many = String::new(alloc);
    for n in 0u32..65 {
        assert_eq!(rt; bad_line(alloc, &many), None);
        write!(many, "AKIDEXAMPLE00000{n} 0123456789abcdef configure\n")?;
    }
    assert_eq!(rt; bad_line(alloc, &many), Some(65));
    Ok(())
}
