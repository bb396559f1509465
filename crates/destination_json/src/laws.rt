// Laws of stamps and records, as contracts of functions that do nothing.
ghost use Rattle.std.specs.Prelude.{◌≡◌, ◌≤◌, ℕ, List, Option};
ghost use Rattle.async_core.specs.State.{State};
ghost use Rattle.async_core.specs.declared.readers.Ended.{Ended};
ghost use Rattle.destination_json.specs.Stamp.{last_day, year_of, month_of, day_of_month, IsDateOf};
ghost use Rattle.destination_json.specs.Laws.{IsEnded, HasRecordOfHistory, EndedInTime};

/// The dates of stamps are those of the public calendar, on each day up to the end of the year 9999.
pub fn dates_are_those_of_the_calendar()
    // claim: Up to the year 9999 a moment's date is that of the public calendar.
    ensures { (day : ℕ) → day ≤ last_day → IsDateOf day (year_of day) (month_of day) (day_of_month day) }
{}

/// The record of what a table says of an event is the record of that event after the whole history, and where the
/// settings are good the event ended at a moment that `record` takes.
pub fn records_are_those_of_histories()
    // claim: What a table tells of an ended event gives its record by the whole history.
    ensures same { (t : State) (id : List ℕ) (ended : Option Ended) → IsEnded t id ended → HasRecordOfHistory t id ended }
    ensures moment { (t : State) (id : List ℕ) (ended : Option Ended) → IsEnded t id ended → EndedInTime t ended }
{}
