// Whether a file is seen through an overlay mount, which locks it apart from the file below it.
use crate::opening::DiskError;
use std::alloc::{AllocError, AllocGlobal};
use std::fs;
use std::fs::File;
use std::os::fd::AsRawFd;
use std::path::Path;
use std::rt::Files;

/// Where Linux lists the mounts of this process.
const MOUNTS: &str = "/proc/self/mountinfo";

/// The overlay that a file is seen through.
#[derive(Clone, Copy, Debug, PartialEq, Eq)]
pub enum Overlay {
    /// None, as far as the system tells.
    None,
    /// The root of all that this process sees, as the layers of a container are. Who is outside sees the file below it.
    Root,
    /// Another one.
    Other,
}

// The number of the mount that an open file belongs to, of what Linux tells of that file.
fn mount_in(told: &str) -> Option<&str> {
    for line in told.lines() {
        if let Some(("mnt_id:", number)) = line.split_once('\t') {
            return Some(number);
        }
    }
    None
}

// Of a line of the mounts: its number, where it is mounted, and the kind of its file system.
fn mount_of(line: &str) -> Option<(&str, &str, &str)> {
    let (own, system) = line.split_once(" - ")?;
    let mut words = own.split_whitespace();
    let number = words.next()?;
    let place = words.nth(3)?;
    Some((number, place, system.split_whitespace().next()?))
}

// The overlay that the mount of this number is.
fn overlay_in(mounts: &str, number: &str) -> Overlay {
    for line in mounts.lines() {
        match mount_of(line) {
            Some((own, "/", "overlay")) if own == number => return Overlay::Root,
            Some((own, _, "overlay")) if own == number => return Overlay::Other,
            _ => {}
        }
    }
    Overlay::None
}

/// The overlay that an open file is seen through. Refused for want of memory.
pub fn overlay_of<R>(rt: &R, file: &File) -> Result<Overlay, AllocError>
where
    R: Files<File = File> + AllocGlobal,
{
    let number = file.as_raw_fd();
    let path = format!(in rt.alloc(); "/proc/self/fdinfo/{number}")?;
    let (told, mounts) = (
        fs::read_to_string(rt, path.as_str()),
        fs::read_to_string(rt, MOUNTS),
    );
    let (Ok(told), Ok(mounts)) = (told, mounts) else {
        return Ok(Overlay::None);
    };
    match mount_in(told.as_str()) {
        Some(number) => Ok(overlay_in(mounts.as_str(), number)),
        None => Ok(Overlay::None),
    }
}

/// Refuses a file that is seen through an overlay mount, but for the root of all that this process sees.
pub(crate) fn check_mount<R>(rt: &R, file: &File) -> Result<(), DiskError>
where
    R: Files<File = File> + AllocGlobal,
{
    match overlay_of(rt, file)? {
        Overlay::Other => Err(DiskError::Overlay),
        Overlay::None | Overlay::Root => Ok(()),
    }
}

/// The same of what a path names, or of its folder, where it names nothing or no file.
pub(crate) fn check_mount_at<R>(rt: &R, path: &str) -> Result<(), DiskError>
where
    R: Files<File = File> + AllocGlobal,
{
    let folder = Path::new(path).parent().and_then(|folder| folder.to_str());
    let folder = folder.filter(|name| !name.is_empty()).unwrap_or(".");
    let is_file = match fs::metadata(rt, path) {
        Ok(data) => data.file_type().is_file(),
        Err(_) => false,
    };
    match File::open(rt, if is_file { path } else { folder }) {
        Ok(file) => check_mount(rt, &file),
        Err(_) => Ok(()),
    }
}
