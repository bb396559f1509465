// What another reader of a disk's count is shown of a write that the device refuses, of which no clause speaks.
use crate::tests::house::expect;
use sector_disk::{CountingDisk, Disk, FuseDisk, MemDisk, SECTOR_SIZE, Written};
use std::test::Fail;

// Whether a write of two sectors that the device refuses is shown.
fn is_refused_write_shown<D: Disk>(disk: &mut CountingDisk<D>, reader: &Written) -> bool {
    disk.sectors() == 8
        && reader.bytes() == 0
        && disk.write(0, &[7; 2 * SECTOR_SIZE]).is_err()
        && reader.bytes() == 1024
}

// After such a fault the program shows no number any more.
#[test]
fn the_bytes_of_a_write_that_is_refused_are_shown(rt: HostRuntime) -> Result<(), Fail> {
    let written = Written::new(rt.alloc())?;
    let reader = written.another()?;
    let inner = FuseDisk::new(MemDisk::new(rt.alloc(), 8)?, 0);
    let mut disk = CountingDisk::over(inner, written);
    let is_shown = is_refused_write_shown(&mut disk, &reader);
    expect(&rt, is_shown, "the bytes of a refused write are shown");
    Ok(())
}
