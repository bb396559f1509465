// RFC 4231, cases 1 to 4, 6 and 7.
use crate::encoding::push_hex;
use crate::hmac_sha256;
use std::test::Fail;

const COUNTED: [u8; 25] = [
    1, 2, 3, 4, 5, 6, 7, 8, 9, 10, 11, 12, 13, 14, 15, 16, 17, 18, 19, 20, 21, 22, 23, 24, 25,
];

#[test]
fn hmac_cases(rt: HostRuntime) -> Result<(), Fail> {
    let alloc = rt.alloc();
    for (key, text, want) in [
        (
            [0x0b; 20].as_slice(),
            b"Hi There".as_slice(),
            "b0344c61d8db38535ca8afceaf0bf12b881dc200c9833da726e9376c2e32cff7",
        ),
        (
            b"Jefe".as_slice(),
            b"what do ya want for nothing?".as_slice(),
            "5bdcc146bf60754e6a042426089575c75a003f089d2739839dec58b964ec3843",
        ),
        (
            [0xaa; 20].as_slice(),
            [0xdd; 50].as_slice(),
            "773ea91e36800e46854db8ebd09181a72959098b3ef8c122d9635514ced565fe",
        ),
        (
            COUNTED.as_slice(),
            [0xcd; 50].as_slice(),
            "82558a389a443c0ea4cc819899f2083a85f0faa3e578f8077a2e3ff46729665b",
        ),
        (
            [0xaa; 131].as_slice(),
            b"Test Using Larger Than Block-Size Key - Hash Key First".as_slice(),
            "60e431591ee0b67f0d8a26aacbf5b77f8e0bc6213728c5140546040f0ee37f54",
        ),
        (
            [0xaa; 131].as_slice(),
            b"This is a test using a larger than block-size key and a larger than block-size data. The key needs to be hashed before being used by the HMAC algorithm.".as_slice(),
            "9b09ffa71b942fcb27635fbcd5b0e944bfdc63644f0713938a7f51535c3a35e2",
        ),
    ] {
        let mut digits = Vec::new(alloc);
        push_hex(&mut digits, &hmac_sha256(key, text))?;
        assert_eq!(rt; digits.as_slice(), want.as_bytes());
    }
    Ok(())
}
