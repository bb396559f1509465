// How many events or records are asked for.
ghost use Rattle.std.specs.Prelude.{◌≡◌, ◌≤◌};
ghost use Rattle.operator_view.specs.Limits.{number_of};

// The most that a page has.
const MOST: usize = 1000;

// The number that these digits are behind others, as far as they are digits and it is not too great.
#[tactic(auto, using(crate::proofs::Digits::at_least))]
fn read_behind(digits: &[u8], so_far: usize) -> Option<usize>
    requires { so_far ≤ 1000 }
    ensures { result ≡ number_of so_far digits.now }
{
    match digits {
        [] => Some(so_far),
        [digit, more @ ..] => {
            if !digit.is_ascii_digit() {
                return None;
            }
            let number = 10 * so_far + (*digit - b'0') as usize;
            if MOST < number {
                None
            } else {
                read_behind(more, number)
            }
        }
    }
}

/// The number that these decimal digits are, 0 of none, where it is at most a thousand: as many as a page may have.
pub fn read_limit(digits: &[u8]) -> Option<usize>
    ensures { result ≡ number_of 0 digits.now }
{
    read_behind(digits, 0)
}
