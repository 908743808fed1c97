// The words of the peaks: "loading, then actions 1 to A, zeros after".
#![tactic(auto)]

ghost use Rattle.std.specs.Prelude.{◌≡◌, ◌≤◌, ◌<◌, length, replicate};
ghost use Rattle.theory.specs.Widths.{nodes_most};
ghost use Rattle.theory.specs.Peaks.{raise};

// An action's word is at least a count.
pub fn raise_peak(peaks: &mut [u32], action: usize, count: usize)
    requires { (action < length peaks.old) × (count ≤ nodes_most) }
    ensures { peaks.new ≡ raise action count peaks.old }
{
    let n = count as u32;
    if peaks[action] < n {
        peaks[action] = n;
    }
}

// None yet.
pub fn clear_peaks(peaks: &mut [u32])
    ensures { peaks.new ≡ replicate (length peaks.old) 0 }
{
    table_clear::work(peaks, 0, peaks.len())
}
