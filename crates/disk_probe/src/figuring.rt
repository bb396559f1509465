// The median and the greatest of some times.
ghost use Rattle.std.specs.Prelude.{◌≡◌, ◌-◌, ◌/◌, ◌<◌, length, slice_index};
ghost use Rattle.std.specs.List.Sorted.{IsPermutation};
ghost use Rattle.disk_probe.specs.Figures.{IsRising};

/// How long calls took, in microseconds.
#[derive(Clone, Copy)]
pub struct Figures {
    /// As many took this long or less as took longer.
    pub median: u64,
    pub greatest: u64,
}

/// The figures of some times, which are put into order.
pub(crate) fn figures_of(times: &mut [u64]) -> Figures
    requires { 0 < length times.old }
    ensures times { IsPermutation times.old times.new }
    ensures order { IsRising times.new }
    ensures median { result.median ≡ slice_index times.new (length times.old / 2) }
    ensures greatest { result.greatest ≡ slice_index times.new (length times.old - 1) }
{
    times.sort_unstable();
    Figures {
        median: times[times.len() / 2],
        greatest: times[times.len() - 1],
    }
}
