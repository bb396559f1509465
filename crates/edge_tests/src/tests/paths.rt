// Files of a test.
use std::test::Fail;
use std::{env, process};

/// The path of a file that no other test uses, in the system's folder for files of the day.
pub fn path_of(rt: &HostRuntime, test: &str) -> Result<String, Fail> {
    let folder = env::temp_dir(rt)?;
    let id = process::id(rt.process());
    Ok(format!(in rt.alloc(); "{}/sector_disk_{test}_{id}", folder.as_str())?)
}
