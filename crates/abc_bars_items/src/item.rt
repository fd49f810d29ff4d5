//! The items of cells.

use crate::item_text::ItemText;
use crate::tones::Tones;
use crate::velocity::USUAL_VELOCITY;
use abc_fields::{FaultCode, Meter};
use abc_scan::BarLine;
use abc_time::Grains;

/// One note of a note or chord that takes time.
#[derive(Clone, Copy)]
pub struct Tone {
    /// How long it sounds, in grains.
    pub length: Grains,
    /// The key of MIDI, 60 for the middle C; None if MIDI has no key for it, and it is silent.
    pub key: Option<u8>,
    /// The velocity of MIDI, 1 to 127.
    pub velocity: u8,
    /// Whether a tie follows it.
    pub tied: bool,
}

impl Default for Tone {
    fn default() -> Self {
        Tone {
            key: None,
            length: Grains(0),
            velocity: USUAL_VELOCITY,
            tied: false,
        }
    }
}

/// What a cell gives to the score. `opening` marks what holds when the tune begins. Each line of a header gives the tempo
/// and the meter as if the header ended after it, and the last ones count. The K: that ends a header gives the key.
#[derive(Clone, Drop)]
pub enum Item {
    /// The tune's reference number; 0 if X: is empty or refused.
    Number(u32),
    /// A note or chord, with the length that it takes.
    Tone {
        tones: Tones,
        length: Grains,
    },
    /// A rest; `bar` if it rests for whole bars.
    Rest {
        length: Grains,
        bar: bool,
    },
    /// A bar line.
    Bar(BarLine),
    /// The passes that an ending is for: bit i - 1 is set for pass i.
    Ending(u32),
    /// The capital letter of a part.
    Section(u8),
    /// Microseconds of a quarter note, None if the field sets none; `out` if its tempo is out of range.
    Tempo {
        opening: bool,
        micros: Option<u32>,
        out: bool,
    },
    /// None if the field is refused.
    Meter {
        opening: bool,
        meter: Option<Meter>,
    },
    /// Sharps, negative for flats, and whether the mode is minor; None if the signature stays.
    Key {
        opening: bool,
        key: Option<(i8, bool)>,
    },
    /// The name of a voice: a header's V: declares it, another one makes it the current one.
    Voice {
        opening: bool,
        name: ItemText,
    },
    /// A program of MIDI, 0 to 127; None if the directive is refused. In a header the last accepted one counts, and a file
    /// header's comes before those of the tune's header.
    Program {
        opening: bool,
        number: Option<u8>,
    },
    /// The value of a T: of a header; the first one is the tune's title.
    Title(ItemText),
    /// The order of the parts.
    Order(ItemText),
}

/// A book keeps the items of all of its cells.
const _: () = prove!(size_of::<Item>() == 32);

/// A fault of a cell: its column, counted from 1, and its code.
pub type LocalFault = (u32, FaultCode);
