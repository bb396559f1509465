// Probing a volume before it holds a broker.
use crate::telltale::telltale_for;
use disk_probe::{Probe, ProbeError, probe_disk};
use std::fs::File;
use std::io::Eprint;
use std::rt::Files;
use std::time::Clock;

/// A volume that is to be probed.
#[derive(Clone, Copy)]
pub struct Volume<'a> {
    /// A file or a block device.
    pub path: &'a str,
    /// Another attachment of it.
    pub witness: Option<&'a str>,
}

/// What can be known of a volume. Only one of zeros is written.
pub(crate) fn probe_volume<R>(rt: &R, volume: &Volume<'_>) -> Result<Probe, ProbeError>
where
    R: Files<File = File> + Clock + Eprint + AllocGlobal + Copy + Drop,
{
    let log = telltale_for(rt, volume.path)?;
    probe_disk(rt, volume.path, log, volume.witness)
}
