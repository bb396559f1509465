// What a probe tells, and its lines.
use crate::witness::TRIES;
use crate::{Figures, Witnessed};
use disk_claim::claim_sector;
use std::fmt;

/// What a probe tells.
#[derive(Clone, Copy)]
pub struct Probe {
    pub sectors: u64,
    /// Whether another opening on this machine is refused.
    pub is_locked: bool,
    /// How long a barrier takes. None where the disk is not empty, so that nothing was written.
    pub barriers: Option<Figures>,
    /// How long it takes to read past what the machine kept.
    pub looks: Figures,
    pub witness: Option<Witnessed>,
}

impl fmt::Display for Figures {
    fn fmt<W: fmt::Write>(&self, f: &mut fmt::Formatter<W>) -> fmt::Result {
        let median = self.median;
        let greatest = self.greatest;
        write!(f, "microseconds median {median} greatest {greatest}")
    }
}

impl fmt::Display for Witnessed {
    fn fmt<W: fmt::Write>(&self, f: &mut fmt::Formatter<W>) -> fmt::Result {
        let lock = refused(self.is_excluded);
        write!(f, "witness lock {lock} ")?;
        match self.sight {
            Some(sight) => {
                let plain = sight.plain;
                let opened = sight.opened;
                writeln!(f, "plain {plain} opened {opened} of {TRIES}")
            }
            None => writeln!(f, "not tried"),
        }
    }
}

// What came of another opening.
fn refused(is_refused: bool) -> &'static str {
    if is_refused { "refused" } else { "taken" }
}

impl fmt::Display for Probe {
    /// Its lines, of which the last has no end.
    fn fmt<W: fmt::Write>(&self, f: &mut fmt::Formatter<W>) -> fmt::Result {
        let sectors = self.sectors;
        let watch = if claim_sector(sectors).is_some() {
            "yes"
        } else {
            "no"
        };
        let lock = refused(self.is_locked);
        writeln!(f, "sectors {sectors} watch {watch}")?;
        writeln!(f, "lock {lock}")?;
        match self.barriers {
            Some(figures) => writeln!(f, "barrier {figures}")?,
            None => writeln!(f, "barrier not tried")?,
        }
        let looks = self.looks;
        writeln!(f, "look {looks}")?;
        if let Some(witness) = self.witness {
            write!(f, "{witness}")?;
        }
        write!(
            f,
            "not known: whether a barrier outlasts a loss of power, whether a fence holds"
        )
    }
}
