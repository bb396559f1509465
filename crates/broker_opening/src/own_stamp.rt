// Which program runs, as the end of its own file says.
use port_meters::{STAMP_ROOM, Stamp, Version};
use std::alloc::AllocError;
use std::fs::File;
use std::io;
use std::io::{Read, Seek, SeekFrom};
use std::rt::Files;

/// Where Linux shows the file of the program that runs, also once another one has its name.
const OWN_FILE: &str = "/proc/self/exe";

/// Where the last bytes of a file begin, from its end on.
const LAST_BYTES: i64 = -(STAMP_ROOM as i64);

// The last bytes of a file.
fn read_end(file: &mut File, bytes: &mut [u8; STAMP_ROOM]) -> io::Result<()> {
    file.seek(SeekFrom::End(LAST_BYTES))?;
    file.read_exact(bytes)
}

// The same of the program that runs.
fn read_own_end<R: Files<File = File>>(rt: &R, bytes: &mut [u8; STAMP_ROOM]) -> io::Result<()> {
    let mut file = File::open(rt, OWN_FILE)?;
    read_end(&mut file, bytes)
}

/// Which program runs. Where its file cannot be read, it is one without a stamp.
pub fn own_version<R: Files<File = File> + AllocGlobal>(rt: &R) -> Result<Version, AllocError> {
    let mut bytes = [0; STAMP_ROOM];
    match read_own_end(rt, &mut bytes) {
        Ok(()) => Version::of(rt.alloc(), Stamp::at_end(&bytes)),
        Err(_) => Version::of(rt.alloc(), None),
    }
}
