// Looking whether a served disk is still what its path names.
use crate::serving::ServingError;
use broker_commands::{DiskError, Overlay, overlay_of};
use broker_opening::OpeningError;
use disk_guard::{DiskSight, Guard, Identity, Mark, WATCHED, identity_at, identity_of, sight_of};
use sector_disk::{FileError, SECTOR_SIZE};
use std::alloc::{AllocError, AllocGlobal, Global};
use std::fs::File;
use std::io;
use std::io::Read;
use std::net::{IpAddr, Ipv4Addr};
use std::os::fd::AsRawFd;
use std::os::unix::fs::FileExt;
use std::rt::Files;
use std::sync::{Arc, Wait};

/// Where Linux tells which process this is: its number comes first.
const OWN_STATUS: &str = "/proc/self/stat";

/// A served disk, as it is looked at beside its serving: by an opening of its own, by which it can be saved once it is gone.
#[derive(Drop)]
pub(crate) struct DiskLook {
    path: String,
    file: File,
    opened: Identity,
    guard: Arc<Guard>,
}

// Why a disk that was opened was not opened again.
fn not_opened(why: io::Error) -> ServingError {
    let why = DiskError::File(FileError::from(why));
    ServingError::Opening(OpeningError::Disk(why))
}

// The number of this process, where the system tells it.
fn own_number<R: Files<File = File>>(rt: &R) -> Option<u32> {
    let mut told = [0; 32];
    let count = File::open(rt, OWN_STATUS).ok()?.read(&mut told).ok()?;
    let text = str::from_utf8(told.get(..count)?).ok()?;
    let (number, _) = text.split_once(' ')?;
    number.parse::<u32>().ok()
}

impl DiskLook {
    /// A look at the disk that this path names now. What it shows is told to the guard. It is refused `Replaced` where that is not the
    /// one that was opened, whose lock keeps others out.
    pub(crate) fn open<R>(rt: &R, path: &str, guard: Arc<Guard>) -> Result<DiskLook, ServingError>
    where
        R: Files<File = File> + AllocGlobal,
    {
        let path = String::from_str(rt.alloc(), path)?;
        let mut file = File::open(rt, path.as_str()).map_err(not_opened)?;
        if file.try_lock().is_ok() {
            return Err(ServingError::Replaced);
        }
        let opened = identity_of(&mut file).map_err(not_opened)?;
        Ok(DiskLook {
            path,
            file,
            opened,
            guard,
        })
    }

    /// The path of the disk.
    pub(crate) fn path(&self) -> &str {
        self.path.as_str()
    }

    /// Whether it lies in the layers that all this process sees are in: those of a container go with it.
    pub(crate) fn is_in_layers<R>(&self, rt: &R) -> bool
    where
        R: Files<File = File> + AllocGlobal,
    {
        matches!(overlay_of(rt, &self.file), Ok(Overlay::Root))
    }

    /// What is shared with who serves the disk.
    pub(crate) fn guard(&self) -> &Guard {
        &*self.guard
    }

    /// Looks: whether the disk is still there. Once it was seen not to be, that stays so.
    pub(crate) fn look<R: Files<File = File>>(&mut self, rt: &R) -> bool {
        if let Ok(now) = identity_of(&mut self.file) {
            let at_path = identity_at(rt, self.path.as_str());
            self.guard.note(sight_of(&self.opened, &now, &at_path));
        }
        !self.guard.is_shut()
    }

    // Whether other bytes stand in the file than where a mark is watched. A file that gives none was cut, or its device fails.
    fn is_overwritten<R: Wait>(&self, rt: &R, mark: &Mark) -> bool {
        let mut shown = [0; SECTOR_SIZE];
        let at = mark.sector.saturating_mul(SECTOR_SIZE as u64);
        match FileExt::read_at(&self.file, &mut shown, at) {
            // The guard's lock, which each write takes, is taken only where the bytes differ.
            Ok(count) => {
                count == SECTOR_SIZE
                    && shown != mark.bytes
                    && self.guard.is_overwritten(rt, mark, &shown)
            }
            Err(_) => false,
        }
    }

    /// Whether all stands in the sectors that are watched that was read and written there.
    pub(crate) fn is_as_written<R: Wait>(&self, rt: &R) -> bool {
        let mut is_overwritten = false;
        for place in 0..WATCHED {
            if let Some(mark) = self.guard.mark(rt, place) {
                is_overwritten = is_overwritten || self.is_overwritten(rt, &mark);
            }
        }
        self.guard.turn_marks(rt);
        !is_overwritten
    }

    /// Something else stands there, and nobody may have written it.
    pub(crate) fn note_overwritten(&self) {
        self.guard.note(DiskSight::Overwritten);
    }

    // What became of the disk, as it is told.
    fn became(&self, alloc: Global) -> Result<String, AllocError> {
        let path = self.path.as_str();
        match self.guard.sight() {
            DiskSight::Replaced => format!(in alloc; "another file is at {path}"),
            DiskSight::Cut => format!(in alloc; "{path} has lost bytes"),
            DiskSight::Overwritten => format!(in alloc; "{path} was overwritten"),
            _ => format!(in alloc; "nothing is at {path} any more"),
        }
    }

    // How what was told to callers is saved: the open file has all of it, unless it lost bytes or got others.
    fn way_to_save(&self, alloc: Global, process: u32) -> Result<String, AllocError> {
        let number = self.file.as_raw_fd();
        let size = self.opened.size;
        match self.guard.sight() {
            DiskSight::Cut => format!(in alloc;
                "Not all that was told may be in it: cp /proc/{process}/fd/{number} NEW && truncate --size {size} NEW, and see what an audit finds in NEW and in a backup"
            ),
            DiskSight::Overwritten => format!(in alloc;
                "Not all that was told is in it: cp /proc/{process}/fd/{number} NEW, and see what an audit finds in NEW and in a backup"
            ),
            _ => format!(in alloc; "Save what was told: cp /proc/{process}/fd/{number} NEW"),
        }
    }

    /// What is told of a disk that is gone: how what was told to callers is saved, and how the program is ended then.
    pub(crate) fn words<R>(&self, rt: &R, reach: IpAddr, port: u16) -> Result<String, AllocError>
    where
        R: Files<File = File> + AllocGlobal,
    {
        let alloc = rt.alloc();
        let became = self.became(alloc)?;
        let end = match reach {
            IpAddr::V4(ip) if ip == Ipv4Addr::LOCALHOST => format!(in alloc;
                "--port {port} --lose"
            )?,
            reach => format!(in alloc; "--port {port} --address {reach} --lose")?,
        };
        let save = self.way_to_save(alloc, own_number(rt).unwrap_or(0))?;
        format!(in alloc;
            "disk is gone: {became}. Nothing is accepted from now on. {save}. Then: lambda_broker stop {end}"
        )
    }
}
