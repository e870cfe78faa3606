ghost use Rattle.std.specs.Prelude.{◌≡◌, max};
ghost use Rattle.census.specs.Runs.{IsLongestRun};
ghost use Rattle.frozen.specs.Kept.{frozen_view};

use crate::counting::is_free_block;
use frozen::Frozen;

/// The most data blocks that may be given out and stand one behind the other. They are of one group, since each group begins with
/// blocks that are none.
pub(crate) fn longest_run(frozen: &Frozen) -> u32
    ensures { IsLongestRun frozen.now.geometry (frozen_view frozen.now) result }
{
    let mut longest = 0;
    let mut run = 0;
    for address in 0..frozen.geometry().blocks() {
        run = if is_free_block(frozen, address) {
            run + 1
        } else {
            0
        };
        longest = longer(longest, run);
    }
    longest
}

/// The greater one of two lengths.
fn longer(run: u32, other: u32) -> u32
    ensures { result ≡ max run other }
{
    if run < other { other } else { run }
}
