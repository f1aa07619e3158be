//! Places of lanes.

ghost use Rattle.std.specs.Prelude.{◌≡◌, ◌+◌, ◌<◌, MatchOption, None, length};
ghost use Rattle.link_lanes.specs.Lanes.{lane_in};

use crash_base::BrickNo;

/// The place of the lane of a brick, if it is one of these lanes: its number is from 1 to how many there are. It takes
/// no memory.
pub fn place_of<L>(lanes: &[L], brick: BrickNo) -> Option<usize>
    ensures { MatchOption result (lane_in lanes.now brick.0 ≡ None)
        (λ place. (place + 1 ≡ brick.0) × (place < length lanes.now)) }
{
    let number = brick.0 as usize;
    if number == 0 || number > lanes.len() {
        return None;
    }
    Some(number - 1)
}
