// What an operator is shown of an office.
ghost use Rattle.std.specs.Prelude.{◌≡◌, ◌<◌, ◌≤◌, IfSome, IfNone};

use crate::command_counters::CommandCounters;
use crate::lives::Lives;
use front_board::Shown;
use hall_core::HallStatus;

/// What an operator is shown of an office at one moment.
#[derive(Drop)]
pub struct View {
    pub hall: HallStatus,
    /// Of the commands that were issued since the opening.
    pub counters: CommandCounters,
    /// Of the events that ended since the opening.
    pub lives: Lives,
}

/// What an operator may be shown once all that it shows is durable. Only a call of an office makes it.
#[derive(Drop)]
pub struct Unreleased {
    pub(crate) view: View,
    /// How many commands had been issued.
    pub(crate) number: u64,
}

impl Unreleased {
    /// What was unreleased, where a board showed the receipt of all that it shows. None where fewer commands are durable by it.
    pub fn release(self, shown: &Shown) -> Option<View>
        // claim: A view is released exactly by a receipt of at least its number, which a board showed, and is then what
        // was seen.
        ensures some { IfSome result (λ view. (view ≡ self.view) × (self.number ≤ shown.now.receipt)) }
        ensures none { IfNone result (shown.now.receipt < self.number) }
    {
        let Unreleased { view, number } = self;
        (number <= shown.receipt().number()).then_some(view)
    }
}
