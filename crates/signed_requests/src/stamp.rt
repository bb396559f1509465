// The moment that `X-Amz-Date` says.
ghost use Rattle.std.specs.Prelude.{◌≡◌, ◌+◌, ◌*◌, ◌<◌, ◌≤◌, ◌^◌, length, true, IfSome};
ghost use Rattle.signed_requests.specs.Stamp.{is_digit, two_at, is_framed, is_day, is_time, day_number, day_seconds, time_seconds, seconds_of};

use jiff_core::civil;

/// An hour in seconds.
const HOUR: u64 = 60 * 60;

fn is_digit(b: u8) -> bool
    ensures { result ≡ is_digit b }
{
    b'0' <= b && b <= b'9'
}

fn two_at(text: &[u8], i: usize) -> Option<u8>
    requires { i + 1 < length text.now }
    ensures value { result ≡ two_at text.now i }
    ensures small { IfSome result (λ n. n < 100) }
{
    let tens = text[i];
    let ones = text[i + 1];
    if is_digit(tens) && is_digit(ones) {
        return Some(10 * (tens - 48) + (ones - 48));
    }
    None
}

fn is_framed(text: &[u8]) -> bool
    ensures value { result ≡ is_framed text.now }
    ensures long { result ≡ true → length text.now ≡ 16 }
{
    text.len() == 16 && text[8] == b'T' && text[15] == b'Z'
}

fn is_day(year: u16, month: u8, day: u8) -> bool
    requires { year < 10000 }
    ensures { result ≡ is_day year month day }
{
    1970 <= year
        && 1 <= month
        && month <= 12
        && 1 <= day
        && day <= civil::days_in_month(year as i16, month)
}

fn is_time(hour: u8, minute: u8, second: u8) -> bool
    ensures { result ≡ is_time hour minute second }
{
    hour < 24 && minute < 60 && second < 60
}

// The day, counted from 1 January 1970.
#[tactic(auto, unfolding(crate::specs::Stamp::day_number))]
fn day_number(year: u16, month: u8, day: u8) -> u32
    requires year { year < 10000 }
    requires day { is_day year month day ≡ true }
    ensures value { result ≡ day_number year month day }
    ensures small { result < 2 ^ 23 }
{
    let year = year as i16;
    civil::Date { year, month, day }
        .to_unix_epoch_day()
        .unsigned_abs()
}

#[tactic(auto, unfolding(crate::specs::Stamp::day_seconds))]
fn day_seconds(text: &[u8]) -> Option<u64>
    requires { length text.now ≡ 16 }
    ensures value { result ≡ day_seconds text.now }
    ensures small { IfSome result (λ n. n < 2 ^ 40) }
{
    let century = two_at(text, 0)?;
    let year = 100 * century as u16 + two_at(text, 2)? as u16;
    let month = two_at(text, 4)?;
    let day = two_at(text, 6)?;
    if is_day(year, month, day) {
        return Some(24 * HOUR * day_number(year, month, day) as u64);
    }
    None
}

#[tactic(auto, unfolding(crate::specs::Stamp::time_seconds))]
fn time_seconds(text: &[u8]) -> Option<u64>
    requires { length text.now ≡ 16 }
    ensures value { result ≡ time_seconds text.now }
    ensures small { IfSome result (λ n. n < 2 ^ 40) }
{
    let hour = two_at(text, 9)?;
    let minute = two_at(text, 11)?;
    let second = two_at(text, 13)?;
    if is_time(hour, minute, second) {
        return Some(HOUR * hour as u64 + 60 * minute as u64 + second as u64);
    }
    None
}

/// The moment of a text like `20150830T123600Z`, in seconds since 1970, where it is one.
#[tactic(auto, unfolding(crate::specs::Stamp::seconds_of))]
pub(crate) fn seconds_of(text: &[u8]) -> Option<u64>
    ensures value { result ≡ seconds_of text.now }
    ensures small { IfSome result (λ n. n < 2 ^ 41) }
{
    if !is_framed(text) {
        return None;
    }
    let day = day_seconds(text)?;
    let time = time_seconds(text)?;
    Some(day + time)
}
