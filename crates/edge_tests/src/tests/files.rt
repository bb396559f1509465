// Disks in files of the system's folder for files of the day, and in files in memory.
use crate::tests::house::expect;
use crate::tests::paths::path_of;
use sector_disk::{Disk, FileDisk, FileError, MemFile, SECTOR_SIZE};
use std::fs::File;
use std::rt::Files;
use std::test::Fail;
use std::{env, fs};

// What each of these bytes is, if all are the same.
fn byte_of(bytes: &[u8]) -> Option<u8> {
    let first = *bytes.first()?;
    if bytes.iter().all(|byte| *byte == first) {
        Some(first)
    } else {
        None
    }
}

// What a sector of the disk reads as, if each of its bytes is the same.
fn byte_at<D: Disk>(disk: &mut D, sector: u64) -> Option<u8> {
    if sector >= disk.sectors() {
        return None;
    }
    let mut bytes = [1; SECTOR_SIZE];
    if disk.read(sector, &mut bytes).is_err() {
        return None;
    }
    byte_of(&bytes)
}

// Whether a sector of the disk was filled with this byte.
fn is_filled<D: Disk>(disk: &mut D, sector: u64, byte: u8) -> bool {
    sector < disk.sectors() && disk.write(sector, &[byte; SECTOR_SIZE]).is_ok()
}

// Whether the last of 300 sectors was filled with 7, and that is durable.
fn is_written<D: Disk>(disk: &mut D) -> bool {
    disk.sectors() == 300 && is_filled(disk, 299, 7) && disk.barrier().is_ok()
}

// Whether 300 sectors are filled with zeros, and the last one with 7.
fn is_kept<D: Disk>(disk: &mut D) -> bool {
    let mut is_kept = disk.sectors() == 300;
    for (sector, byte) in [(0, 0), (150, 0), (298, 0), (299, 7)] {
        is_kept = is_kept && byte_at(disk, sector) == Some(byte);
    }
    is_kept && disk.faults() == 0
}

// Eight sectors, no two beside each other of which are the same.
fn many_bytes() -> [u8; 4096] {
    let mut bytes = [0; 4096];
    for (place, byte) in bytes.iter_mut().enumerate() {
        *byte = (place % 251) as u8;
    }
    bytes
}

// Whether eight sectors were written at once from sector 3 on, and that is durable.
fn is_long_written<D: Disk>(disk: &mut D) -> bool {
    disk.sectors() >= 12 && disk.write(3, &many_bytes()).is_ok() && disk.barrier().is_ok()
}

// Whether those sectors are read at once.
fn is_long_read<D: Disk>(disk: &mut D) -> bool {
    let mut bytes = [0; 4096];
    disk.sectors() >= 12 && disk.read(3, &mut bytes).is_ok() && bytes == many_bytes()
}

// Whether what is written at once is read at once, and the sectors beside it are zeros still.
fn is_long_kept<D: Disk>(disk: &mut D) -> bool {
    let is_kept = is_long_written(disk) && is_long_read(disk);
    is_kept && byte_at(disk, 2) == Some(0) && byte_at(disk, 11) == Some(0)
}

// How a disk is taken up.
#[derive(Clone, Copy)]
enum Opening {
    Open,
    ReadOnly,
    // With so many sectors.
    Create(u64),
}

// Why a disk is not taken up, if it is not.
fn refusal<R: Files<File = File>>(rt: &R, path: &str, opening: Opening) -> Option<FileError> {
    match opening {
        Opening::Open => FileDisk::open(rt, path).err(),
        Opening::ReadOnly => FileDisk::open_read_only(rt, path).err(),
        Opening::Create(sectors) => FileDisk::create(rt, path, sectors).err(),
    }
}

// Whether a disk is refused by this name, however it is opened.
fn is_refused<R: Files<File = File>>(rt: &R, path: &str, why: FileError) -> bool {
    let why = Some(why);
    refusal(rt, path, Opening::Open) == why && refusal(rt, path, Opening::ReadOnly) == why
}

// Makes a disk of 300 sectors and fills its last one with 7: whether that is durable.
fn is_made<R: Files<File = File>>(rt: &R, path: &str) -> bool {
    match FileDisk::create(rt, path, 300) {
        Ok(disk) => {
            let mut disk = disk;
            is_written(&mut disk)
        }
        Err(_) => false,
    }
}

// Whether a disk that is opened has what was written, and keeps more.
fn is_opened<R: Files<File = File>>(rt: &R, path: &str) -> bool {
    match FileDisk::open(rt, path) {
        Ok(disk) => {
            let mut disk = disk;
            is_kept(&mut disk) && is_long_kept(&mut disk)
        }
        Err(_) => false,
    }
}

#[test]
fn what_was_written_is_read_after_it_was_opened_again(rt: HostRuntime) -> Result<(), Fail> {
    let path = path_of(&rt, "kept")?;
    let path = path.as_str();
    fs::write(&rt, path, "something else")?;
    expect(&rt, is_made(&rt, path), "a disk is made of another file");
    let size = fs::metadata(&rt, path)?.len();
    expect(&rt, size == 153600, "the file has 300 sectors");
    expect(&rt, is_opened(&rt, path), "what was written is read");
    fs::remove_file(&rt, path)?;
    Ok(())
}

// Whether a file in memory is a disk of 300 sectors that has what was written, also once it was given back and taken up
// again, and that keeps more.
fn is_disk(file: MemFile) -> bool {
    match FileDisk::over(file) {
        Ok(disk) => {
            let mut disk = disk;
            if !is_written(&mut disk) {
                return false;
            }
            is_disk_again(disk.into_file())
        }
        Err(_) => false,
    }
}

// Whether a file in memory is a disk that has what was written, and keeps more.
fn is_disk_again(file: MemFile) -> bool {
    match FileDisk::over(file) {
        Ok(disk) => {
            let mut disk = disk;
            is_kept(&mut disk) && is_long_kept(&mut disk)
        }
        Err(_) => false,
    }
}

#[test]
fn a_file_in_memory_is_a_disk(rt: HostRuntime) -> Result<(), Fail> {
    let whole = MemFile::new(rt.alloc(), 153600)?;
    expect(&rt, is_disk(whole), "what was written is read");
    let cut = MemFile::new(rt.alloc(), 513)?;
    let refusal = FileDisk::over(cut).err();
    expect(&rt, refusal == Some(FileError::NotWhole), "a sector is cut");
    Ok(())
}

// Makes a disk of one sector, filled with 9: whether it is refused in each way while it is open.
fn is_locked<R: Files<File = File>>(rt: &R, path: &str) -> bool {
    match FileDisk::create(rt, path, 1) {
        Ok(disk) => {
            let mut disk = disk;
            let in_use = Some(FileError::InUse);
            let is_refused = is_refused(rt, path, FileError::InUse);
            let is_made = refusal(rt, path, Opening::Create(2)) == in_use;
            is_filled(&mut disk, 0, 9) && is_refused && is_made
        }
        Err(_) => false,
    }
}

// Whether a disk that is open for reading is read, not written, and opened once more for reading alone.
fn is_read_only<R: Files<File = File>>(rt: &R, path: &str) -> bool {
    match FileDisk::open_read_only(rt, path) {
        Ok(disk) => {
            let mut disk = disk;
            let is_read = byte_at(&mut disk, 0) == Some(9) && disk.barrier().is_ok();
            let is_written = is_filled(&mut disk, 0, 8) || disk.faults() != 1;
            let is_locked = refusal(rt, path, Opening::Open) == Some(FileError::InUse);
            let is_shared = refusal(rt, path, Opening::ReadOnly).is_none();
            is_read && !is_written && is_locked && is_shared
        }
        Err(_) => false,
    }
}

#[test]
fn a_disk_that_is_open_is_not_opened_again(rt: HostRuntime) -> Result<(), Fail> {
    let path = path_of(&rt, "locked")?;
    let path = path.as_str();
    expect(&rt, is_locked(&rt, path), "an open disk is refused");
    expect(
        &rt,
        is_read_only(&rt, path),
        "one that is read is not written",
    );
    fs::remove_file(&rt, path)?;
    Ok(())
}

#[test]
fn what_is_no_disk_is_refused_by_name(rt: HostRuntime) -> Result<(), Fail> {
    let path = path_of(&rt, "refused")?;
    let path = path.as_str();
    let is_absent = is_refused(&rt, path, FileError::NotFound);
    expect(&rt, is_absent, "there is no file");
    let large = refusal(&rt, path, Opening::Create(1 << 54));
    expect(&rt, large == Some(FileError::NoRoom), "there is no room");
    let is_there = fs::exists(&rt, path)?;
    expect(&rt, !is_there, "nothing was made");
    fs::write(&rt, path, [0; 513].as_slice())?;
    let is_cut = is_refused(&rt, path, FileError::NotWhole);
    expect(&rt, is_cut, "a sector is cut");
    fs::remove_file(&rt, path)?;
    Ok(())
}

#[test]
fn what_cannot_be_a_disk_is_refused_by_name(rt: HostRuntime) -> Result<(), Fail> {
    let folder = env::temp_dir(&rt)?;
    let folder = folder.as_str();
    let inside = refusal(&rt, "/dev/null/disk", Opening::Create(1));
    expect(
        &rt,
        inside == Some(FileError::NotFound),
        "there is no folder",
    );
    let is_no_disk = is_refused(&rt, folder, FileError::NotDisk);
    expect(&rt, is_no_disk, "a folder is no disk");
    let device = refusal(&rt, "/dev/null", Opening::Create(1));
    expect(
        &rt,
        device == Some(FileError::NotDisk),
        "nor is a device of characters",
    );
    Ok(())
}
