// The date of a day.
ghost use Rattle.std.specs.Prelude.{◌≡◌, ◌≤◌};
ghost use Rattle.destination_json.specs.Stamp.{last_day, year_of, month_of, day_of_month, IsDateOf};

use jiff_core::civil;

/// The year, month and day of the month of a day, where day 0 is 1 January 1970.
pub fn date_of(day: u32) -> (u16, u8, u8)
    requires { day ≤ last_day }
    ensures date { result ≡ (year_of day, month_of day, day_of_month day) }
    ensures civil { IsDateOf day result.0 result.1 result.2 }
{
    match civil::Date::from_unix_epoch_day(day as i64) {
        Ok(date) => (date.year as u16, date.month, date.day),
        Err(_) => (0, 0, 0),
    }
}
