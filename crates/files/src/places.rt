// The eight body places of a rule (document 01, "The board file": "255 is an empty place").
ghost use Rattle.std.specs.Prelude.{◌≡◌, ◌&&◌, ◌++◌, ◌+◌, ◌*◌, ◌<◌, take, drop};
ghost use Rattle.sets.specs.Lists.{ascending};
ghost use Rattle.board.specs.Load.{filled, filled_first};
ghost use Rattle.files.specs.Private.Filled.{top_of};

// One more than the highest filled place, 0 where none is filled.
// 8 turns of 7 basic steps, so some 60.
pub(crate) fn top(places: &[u8; 8]) -> usize
    ensures { result ≡ top_of (filled places.now) }
{
    places
        .iter()
        .filter(|place| **place != 255)
        .map(|place| usize::from(*place) + 1)
        .max()
        .unwrap_or(0)
}

// Do the filled places come first, and in strictly ascending order? Each filled place has to be above the place before it, whether that
// one is filled or empty: an empty place is 255, and no filled place is above that.
// At most 8 turns of 7 basic steps, so some 60.
pub(crate) fn ascend(places: &[u8; 8]) -> bool
    ensures { result ≡ (filled_first places.now && ascending (filled places.now)) }
{
    places
        .array_windows::<2>()
        .all(|[before, place]| *place == 255 || before < place)
}

// Stores the eight places of the rule of that number in a table's `body`, one byte each, and leaves the other rules' places alone. Some 55 basic steps.
pub(crate) fn put(body: &mut [u8; 2048], rule: usize, places: [u8; 8])
    requires { rule < 256 }
    ensures { body.new ≡ take (8 * rule) body.old ++ places ++ drop (8 * rule + 8) body.old }
{
    let start = 8 * rule;
    body[start..start + 8].copy_from_slice(&places);
}
