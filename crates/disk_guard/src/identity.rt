// What a file is known by, and what became of one that is served.
ghost use Rattle.std.specs.Prelude.{◌≡◌};
ghost use Rattle.disk_guard.specs.Sight.{is_same_file, has_lost_its_name, sight_of};

use std::fs::{File, Metadata};
use std::io::{ErrorKind, Seek, SeekFrom};
use std::os::unix::fs::{FileTypeExt, MetadataExt};
use std::rt::Files;
use std::{fs, io};

/// What a file or a block device is known by at a moment.
#[derive(Clone, Copy, Debug, PartialEq, Eq)]
pub struct Identity {
    /// The file system that it lies in.
    pub system: u64,
    /// Its number there.
    pub number: u64,
    /// How many names it has.
    pub links: u64,
    /// Of a device, which one it is.
    pub device: u64,
    pub is_device: bool,
    /// In bytes. At a path a device tells none.
    pub size: u64,
}

/// What became of a disk that is served.
#[derive(Clone, Copy, Debug, PartialEq, Eq)]
pub enum DiskSight {
    /// Its path names it, and it has all its bytes.
    There,
    /// Nothing has its path: it was removed, or moved away, or its volume was.
    Gone,
    /// Its path names another file.
    Replaced,
    /// It has fewer bytes than before.
    Cut,
    /// Other bytes stand in it than were written.
    Overwritten,
}

/// What is seen at a path.
#[derive(Clone, Copy, Debug, PartialEq, Eq)]
pub enum AtPath {
    /// This.
    Is(Identity),
    Nothing,
    /// It cannot be told.
    Unknown,
}

// What a file's data tell.
fn told_by(data: &Metadata) -> Identity {
    Identity {
        system: data.dev(),
        number: data.ino(),
        links: data.nlink(),
        device: data.rdev(),
        is_device: data.file_type().is_block_device(),
        size: data.size(),
    }
}

/// What an open file or block device is known by now, with its size.
pub fn identity_of(file: &mut File) -> io::Result<Identity> {
    let mut found = told_by(&file.metadata()?);
    found.size = file.seek(SeekFrom::End(0))?;
    Ok(found)
}

/// What is at a path now.
pub fn identity_at<R: Files>(rt: &R, path: &str) -> AtPath {
    match fs::metadata(rt, path) {
        Ok(data) => AtPath::Is(told_by(&data)),
        Err(why) => match why.kind() {
            ErrorKind::NotFound | ErrorKind::NotADirectory => AtPath::Nothing,
            _ => AtPath::Unknown,
        },
    }
}

// Whether two name one file, or one device.
fn is_same_file(one: &Identity, other: &Identity) -> bool
    ensures { result ≡ is_same_file one.now other.now }
{
    if one.is_device && other.is_device {
        return one.device == other.device;
    }
    one.system == other.system && one.number == other.number
}

// Whether it had a name, and has none any more. What shows that file alone at a path of its own keeps it there.
fn has_lost_its_name(opened: &Identity, now: &Identity) -> bool
    ensures { result ≡ has_lost_its_name opened.now now.now }
{
    !opened.is_device && 0 < opened.links && now.links == 0
}

/// What became of a disk that was opened as this, where its open file is this now and so its path.
pub fn sight_of(opened: &Identity, now: &Identity, at_path: &AtPath) -> DiskSight
    // claim: A served disk counts as gone, replaced or cut just where the definition says so of its file and its path.
    ensures { result ≡ sight_of opened.now now.now at_path.now }
{
    if now.size < opened.size {
        return DiskSight::Cut;
    }
    match at_path {
        AtPath::Is(found) if !is_same_file(opened, found) => DiskSight::Replaced,
        AtPath::Nothing => DiskSight::Gone,
        AtPath::Is(_) | AtPath::Unknown if has_lost_its_name(opened, now) => DiskSight::Gone,
        AtPath::Is(_) | AtPath::Unknown => DiskSight::There,
    }
}
