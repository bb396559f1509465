// Which running event no environment holds.
ghost use Rattle.std.specs.Prelude.{◌≡◌, ◌↔◌, IsTrue, option_map};
ghost use Rattle.hall_plans.specs.Firsts.{Event, first_unheld};
ghost use Rattle.hall_plans.specs.Past.{holder};
ghost use Rattle.hall_plans.specs.Environments.{IsNumberIn};
ghost use Rattle.hall_plans.specs.Plans.{AnyIn};
ghost use Rattle.hall_plans.specs.Planner.{ForEachScene};
ghost use Rattle.hall_plans.specs.Steps.{environment_of, Holds};

use crate::planner::Planner;
use invoke_records::Standing;

fn environment_of(standing: Standing) -> Option<u16>
    ensures { result ≡ environment_of standing }
{
    match standing {
        Standing::Running { environment, .. } => Some(environment),
        _ => None,
    }
}

impl<'a> Planner<'a> {
    // Whether the environment of this number, if there is one, runs the event.
    fn holds(&self, environment: u16, id: &[u8; 16]) -> bool
        ensures holds { ForEachScene self.now (λ x. IsTrue result ↔ Holds x environment id.now) }
        ensures within { IsTrue result → IsNumberIn self.now.environments.now environment }
    {
        self.environments.has(environment) && self.runs(environment, id)
    }

    /// The environment that holds the event: the one in which it runs by the table, if it runs there.
    pub(crate) fn holder(&self, id: &[u8; 16]) -> Option<u16>
        ensures holder { ForEachScene self.now (λ x. result ≡ holder x.settings x.past id.now) }
        ensures within { AnyIn self.now.environments.now result }
    {
        let Some(environment) = environment_of(self.table.standing(id)) else {
            return None;
        };
        if self.holds(environment, id) {
            Some(environment)
        } else {
            None
        }
    }

    /// The running event that was accepted first of those that no environment holds.
    pub(crate) fn first_unheld(&self) -> Option<[u8; 16]>
        ensures { ForEachScene self.now (λ x. result ≡ option_map (λ (event : Event). event.1) (first_unheld x.settings x.past)) }
    {
        let mut after = 0;
        'events: while let Some(next) = self.table.next_running(after) {
            let (number, id) = next;
            if self.holder(&id).is_none() {
                return Some(id);
            }
            after = number;
        }
        None
    }
}
