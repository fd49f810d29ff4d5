//! Open tuplets.

ghost use Rattle.std.specs.Prelude.{◌≡◌};
ghost use Rattle.abc_bars_voice.specs.Tuplet.{is_tuplet_number, is_compound, default_q, tuplet_with, tuplet_by, begin_tuplet};
ghost use Rattle.abc_bars_voice.specs.Tuplet.{count_down, tuplet_ratio};
ghost use Rattle.abc_time.specs.Ratio.{IsRatio};

use crate::same::Same;
use crate::tune_meter::TuneMeter;
use abc_fields::{FaultCode, Meter};
use abc_scan::Tuplet;
use abc_time::Ratio;
use std::marker::Model;

/// The largest of a tuplet's three numbers. Not in ABC 2.1.
pub const LARGEST_TUPLET_NUMBER: u32 = 64;

/// A tuplet of a voice, with the count of notes, chords and rests that it still takes (ABC 2.1 section 4.13). Contracts
/// see the three numbers.
#[derive(Clone, Copy)]
pub struct OpenTuplet {
    p: u8,
    q: u8,
    left: u8,
}

impl Model for OpenTuplet {
    ghost use Rattle.abc_bars_voice.specs.Tuplet.{IsOpen, OpenTuplet as Numbers};

    ghost Value = { Numbers };

    ghost view = { λ t. record { p = t.p; q = t.q; left = t.left } };

    ghost invariant = { λ t. IsOpen (record { p = t.p; q = t.q; left = t.left }) };

    ghost inverse = { λ numbers. record { p = numbers.p; q = numbers.q; left = numbers.left } };
}

impl OpenTuplet {
    /// The tuplet of a mark in a meter, if its numbers are accepted.
    pub(crate) fn by(meter: TuneMeter, mark: Tuplet) -> Option<OpenTuplet>
        ensures { result ≡ tuplet_by meter mark }
    {
        let q = mark.q.unwrap_or(default_q(meter, mark.p));
        let r = mark.r.unwrap_or(mark.p);
        OpenTuplet::with(mark.p, q, r)
    }

    /// A tuplet of these numbers, if each is accepted.
    fn with(p: u32, q: u32, r: u32) -> Option<OpenTuplet>
        ensures { result ≡ tuplet_with p q r }
    {
        if is_tuplet_number(p) && is_tuplet_number(q) && is_tuplet_number(r) {
            Some(OpenTuplet {
                p: p as u8,
                q: q as u8,
                left: r as u8,
            })
        } else {
            None
        }
    }

    /// The factor of its lengths.
    pub fn ratio(self) -> Ratio
        ensures value { result ≡ tuplet_ratio self }
        ensures range { IsRatio result }
    {
        Ratio {
            num: u32::from(self.q),
            den: u32::from(self.p),
        }
    }
}

impl Same for OpenTuplet {
    fn same(&self, other: &OpenTuplet) -> bool {
        self.p == other.p && self.q == other.q && self.left == other.left
    }
}

/// Whether a tuplet may have the number.
fn is_tuplet_number(number: u32) -> bool
    ensures { result ≡ is_tuplet_number number }
{
    (1..=LARGEST_TUPLET_NUMBER).contains(&number)
}

/// Whether the beat of a meter has three parts: 6/8, 9/8 and 12/8.
fn is_compound(meter: TuneMeter) -> bool
    ensures { result ≡ is_compound meter }
{
    matches!(
        meter.get(),
        Meter::Of {
            num: 6 | 9 | 12,
            den: 8
        }
    )
}

/// The number of notes whose time p of them take, if it is not written.
fn default_q(meter: TuneMeter, p: u32) -> u32
    ensures { result ≡ default_q meter p }
{
    match p {
        2 | 4 | 8 => 3,
        3 | 6 => 2,
        _ => { if is_compound(meter) { 3 } else { 2 } }
    }
}

/// The open tuplet after a mark, and the mark's fault.
pub fn begin_tuplet(
    meter: TuneMeter,
    before: Option<OpenTuplet>,
    mark: Tuplet,
) -> (Option<OpenTuplet>, Option<FaultCode>)
    ensures { result ≡ begin_tuplet meter before mark }
{
    match (OpenTuplet::by(meter, mark), before) {
        (None, _) => (before, Some(FaultCode::BadTuplet)),
        (new, None) => (new, None),
        (new, Some(_)) => (new, Some(FaultCode::NestedTuplet)),
    }
}

/// What is left of the open tuplet after one more note, chord or rest.
pub fn count_down(before: Option<OpenTuplet>) -> Option<OpenTuplet>
    ensures { result ≡ count_down before }
{
    let open = before?;
    if open.left > 1 {
        Some(OpenTuplet {
            p: open.p,
            q: open.q,
            left: open.left - 1,
        })
    } else {
        None
    }
}
