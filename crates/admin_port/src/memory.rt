// How much memory the process has, as Linux tells it.
use std::fs::File;
use std::os::unix::fs::FileExt;

/// How many bytes a page of memory has.
const PAGE_BYTES: u64 = 4096;

/// How many bytes of that file are read: it has seven numbers.
const MOST_TOLD: usize = 256;

// The second of the words in which Linux tells a process's pages: how many of them are in memory. 0 where it is no number.
fn resident_pages(text: &str) -> u64 {
    match text.split(' ').nth(1) {
        Some(pages) => pages.parse::<u64>().unwrap_or(0),
        None => 0,
    }
}

/// How many bytes of memory the process has, as this file tells it; 0 where it tells nothing.
pub(crate) fn resident_bytes(memory: Option<&File>) -> u64 {
    let Some(file) = memory else { return 0 };
    let mut text = [0u8; MOST_TOLD];
    let Ok(count) = file.read_at(&mut text, 0) else {
        return 0;
    };
    match str::from_utf8(&text[..count]) {
        Ok(told) => resident_pages(told).saturating_mul(PAGE_BYTES),
        Err(_) => 0,
    }
}
