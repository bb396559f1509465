// Issuing the command of a call.
ghost use Rattle.std.specs.Prelude.{◌≡◌, ◌++◌, false, option_map, IfOk, IfErr, OnOk, OnErr, is_some, is_none};
ghost use Rattle.broker_core.specs.Issuer.{ForEachHistory, IsSameIssuer};
ghost use Rattle.hall_plans.specs.Run.{option_list};
ghost use Rattle.hall_core.specs.Issuing.{IsAnswered, Continues, IsUnissued, error_of};

use broker_core::{IssueError, Issuer};
use hall_plans::{HallError, Issued};
use invoke_records::Command;

fn error_of(why: IssueError) -> HallError
    ensures { result ≡ error_of why }
{
    match why {
        IssueError::Broken => HallError::Broken,
        IssueError::WornOut => HallError::WornOut,
        IssueError::Backlog => HallError::Backlog,
        IssueError::Illegal(_) => HallError::NoHistory,
        IssueError::OutOfMemory => HallError::OutOfMemory,
    }
}

/// Issues the command of a call, if it has one.
pub(crate) fn issue<I: Issuer>(
    issuer: &mut I,
    command: Option<Command>,
) -> Result<Option<Issued>, HallError>
    ensures ok { IfOk result (IsAnswered (I.view issuer.old) command) }
    ensures goes_on { OnOk result (Continues (I.view issuer.old) (I.view issuer.new) command) }
    ensures no_call { I.is_untouched issuer.old issuer.new }
    ensures err { OnErr result (IsSameIssuer (I.view issuer.old) (I.view issuer.new)) }
    ensures refused { IfErr result (IsUnissued (I.view issuer.old) command) }
{
    let Some(command) = command else {
        return Ok(None);
    };
    let kind = command.kind;
    let id = command.id;
    let time = command.time;
    match issuer.issue(command) {
        Ok(ticket) => Ok(Some(Issued {
            number: ticket.number(),
            kind,
            id,
            time,
        })),
        Err(why) => Err(error_of(why)),
    }
}
