//! A play of repeats and endings, written out.

use abc_repeat::{Mark, expand};
use std::rt::HostRuntime;

/// A bar line with these counts of colons, which is not double.
fn bar(closes: usize, opens: usize) -> Mark {
    Mark::Bar {
        closes,
        opens,
        double: false,
    }
}

/// `|:A|1B:|2C:|`, by the places of the three notes: the first is played in both passes, each of the others in its own.
#[test]
fn a_play_is_written_out(rt: HostRuntime) {
    let marks = [
        bar(0, 1),
        Mark::Play,
        bar(0, 0),
        Mark::Ending(1),
        Mark::Play,
        bar(1, 0),
        Mark::Ending(2),
        Mark::Play,
        bar(1, 0),
    ];
    let places = expand(rt.alloc(), &marks).expect(&rt, "there is memory");
    assert!(rt; places.as_slice() == &[1, 4, 1, 7][..]);
}
