// Telling the faults of a disk on standard error.
use port_meters::Lines;
use sector_disk::{FaultLog, FileCall, SECTOR_SIZE};
use std::alloc::AllocError;
use std::io;
use std::io::{Eprint, ErrorKind};
use std::sync::Arc;

/// Tells each fault of a disk in one line on standard error. Where that takes nothing at once the line is left out: who met the fault
/// does not wait for who reads there.
#[derive(Drop)]
pub struct Telltale<R: Drop> {
    rt: R,
    path: String,
    lines: Arc<Lines>,
}

/// One for the disk that this path names, which tells by these lines. It is refused where memory is.
pub fn telltale_by<R>(rt: &R, path: &str, lines: &Arc<Lines>) -> Result<Telltale<R>, AllocError>
where
    R: AllocGlobal + Copy + Drop,
{
    Ok(Telltale {
        rt: *rt,
        path: String::from_str(rt.alloc(), path)?,
        lines: Arc::try_clone(lines)?,
    })
}

/// One for the disk that this path names, of a command that tells nothing else. It is refused where memory is.
pub fn telltale_for<R>(rt: &R, path: &str) -> Result<Telltale<R>, AllocError>
where
    R: AllocGlobal + Copy + Drop,
{
    let lines = Lines::new(rt.alloc())?;
    telltale_by(rt, path, &lines)
}

impl<R: AllocGlobal + Copy + Drop> Telltale<R> {
    /// Another one for the same disk, by the same lines. It is refused where memory is.
    pub(crate) fn another(&self) -> Result<Telltale<R>, AllocError> {
        telltale_by(&self.rt, self.path.as_str(), &self.lines)
    }
}

// What a call was about to do.
fn doing(call: FileCall) -> &'static str {
    match call {
        FileCall::Size => "asking for the size of",
        FileCall::Read => "reading",
        FileCall::Write => "writing",
        FileCall::Sync => "flushing",
    }
}

// What stands before a reason by which no room was left: a disk whose sectors have no room yet meets that at a write or a flush.
fn room_wanting(why: &io::Error) -> &'static str {
    match why.kind() {
        ErrorKind::StorageFull | ErrorKind::QuotaExceeded => "no room on its file system: ",
        _ => "",
    }
}

impl<R: Eprint + AllocGlobal + Copy + Drop> FaultLog for Telltale<R> {
    fn tell(&self, call: FileCall, at: u64, why: &io::Error) {
        let alloc = self.rt.alloc();
        let path = self.path.as_str();
        let doing = doing(call);
        let sector = at / SECTOR_SIZE as u64;
        let room = room_wanting(why);
        let line = match call {
            FileCall::Read | FileCall::Write => {
                format!(in alloc; "device fault: {doing} {path} at sector {sector}: {room}{why}")
            }
            _ => format!(in alloc; "device fault: {doing} {path}: {room}{why}"),
        };
        self.lines.tell_made(&self.rt, line);
    }
}
