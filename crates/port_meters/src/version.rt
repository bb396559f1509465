// Which program this is: what a line behind the end of its file says, that whoever built it has put there.
ghost use Rattle.std.specs.Prelude.{IfSome, MatchOption};
ghost use Rattle.port_meters.specs.Stamps.{EndsWithWord, EndsWithState, IsBefore, NeverEnds, StandsBehind};

use std::alloc::{AllocError, Global};
use std::fmt;
use std::fmt::{Display, Formatter, Write};

/// In how many bytes at the end of a program its stamp is looked for.
pub const STAMP_ROOM: usize = 4096;

/// The version of a program without a stamp.
pub const BARE_VERSION: &str = "0.1.0";

/// What stands behind a program that was built.
#[derive(Clone, Copy)]
pub struct Stamp<'a> {
    /// As `0.1.0+DATE.COMMIT`.
    version: &'a str,
    /// With which kit it was built.
    kit: &'a str,
    /// By which logic.
    logic: &'a str,
    is_proved: bool,
}

// What stands before this end, where the bytes end so.
fn before<'a>(bytes: &'a [u8], end: &[u8]) -> Option<&'a [u8]>
    ensures { MatchOption result (NeverEnds end.now bytes.now) (λ rest. IsBefore rest.now end.now bytes.now) }
{
    bytes.strip_suffix(end)
}

// The word of printed characters at the end, and what stands before it.
fn last_word(bytes: &[u8]) -> Option<(&[u8], &str)>
    ensures { IfSome result (λ found. EndsWithWord found.0.now found.1.now bytes.now) }
{
    let start = match bytes.iter().rposition(|byte| !byte.is_ascii_graphic()) {
        Some(last) => last + 1,
        None => 0,
    };
    let (rest, word) = bytes.split_at(start);
    match str::from_utf8(word) {
        Ok(word) if !word.is_empty() => Some((rest, word)),
        _ => None,
    }
}

// Whether it is said to be proved at the end, and what stands before that.
fn last_state(bytes: &[u8]) -> Option<(&[u8], bool)>
    ensures { IfSome result (λ found. EndsWithState found.0.now found.1 bytes.now) }
{
    if let Some(rest) = before(bytes, b" proved\n") {
        return Some((rest, true));
    }
    match before(bytes, b" unproved\n") {
        Some(rest) => Some((rest, false)),
        None => None,
    }
}

impl Stamp<'_> {
    /// The stamp at the end of a program, of which these are the last bytes. What is no whole stamp is none.
    pub fn at_end(bytes: &[u8]) -> Option<Stamp<'_>>
        // claim: A stamp is read only where the program ends with just that line.
        ensures { IfSome result (StandsBehind bytes.now) }
    {
        let (bytes, is_proved) = last_state(bytes)?;
        let (bytes, logic) = last_word(bytes)?;
        let bytes = before(bytes, b" logic ")?;
        let (bytes, kit) = last_word(bytes)?;
        let bytes = before(bytes, b" ")?;
        let (bytes, version) = last_word(bytes)?;
        before(bytes, b"\nlambda_broker-stamp ")?;
        Some(Stamp {
            version,
            kit,
            logic,
            is_proved,
        })
    }
}

/// Which program this is.
#[derive(Drop)]
pub struct Version {
    /// As `0.1.0+DATE.COMMIT`; `0.1.0` of a program without a stamp.
    pub text: String,
    /// With which kit and by which logic it was built, where that is known.
    pub kit: Option<String>,
    /// Whether it is said to be proved.
    pub is_proved: bool,
}

impl Version {
    /// What this stamp says, or what is known without one.
    pub fn of(alloc: Global, stamp: Option<Stamp<'_>>) -> Result<Version, AllocError> {
        let Some(stamp) = stamp else {
            return Ok(Version {
                text: String::from_str(alloc, BARE_VERSION)?,
                kit: None,
                is_proved: false,
            });
        };
        let Stamp {
            version,
            kit,
            logic,
            is_proved,
        } = stamp;
        Ok(Version {
            text: String::from_str(alloc, version)?,
            kit: Some(format!(in alloc; "{kit} logic {logic}")?),
            is_proved,
        })
    }
}

impl Display for Version {
    fn fmt<W: Write>(&self, f: &mut Formatter<W>) -> fmt::Result {
        let text = self.text.as_str();
        match &self.kit {
            Some(kit) if self.is_proved => write!(f, "{text} ({kit}, proved)"),
            Some(kit) => write!(f, "{text} ({kit}, unproved)"),
            None => write!(f, "{text} (no stamp: unproved)"),
        }
    }
}
