// What is printed of a trial.
use crate::trial::Trial;
use invoke_records::Standing;
use std::io;
use std::io::Write;
use uuid::Uuid;

// Where the event stood after its disk was opened again.
fn print_standing<W: Write>(standing: Standing, out: &mut W) -> io::Result<()> {
    match standing {
        Standing::Unknown => writeln!(out, "recovered unknown"),
        Standing::Waiting { due } => writeln!(out, "recovered waiting due {due}"),
        Standing::DueAgain { due } => writeln!(out, "recovered due again due {due}"),
        Standing::Running { deadline, .. } => writeln!(out, "recovered running until {deadline}"),
        Standing::Ended { at, .. } => writeln!(out, "recovered ended at {at}"),
    }
}

impl Trial {
    /// Prints what became of the event, in three lines: the number of its command and its id, how many commands were
    /// durable, and where it stood when the disk was opened again.
    pub fn print<W: Write>(&self, out: &mut W) -> io::Result<()> {
        let mut buffer = Uuid::encode_buffer();
        let id = Uuid::from_bytes(self.id)
            .hyphenated()
            .encode_lower(&mut buffer);
        let accepted = self.accepted;
        let durable = self.durable;
        writeln!(out, "accepted {accepted} {id}")?;
        writeln!(out, "durable {durable}")?;
        print_standing(self.standing, out)
    }
}
