//! How long a fermata holds a note, chord or rest.

ghost use Rattle.std.specs.Prelude.{◌≡◌, ◌*◌, ◌≤◌, All};
ghost use Rattle.abc_bars_items.specs.Item.{IsTone, IsWithinLongest};
ghost use Rattle.abc_time.specs.Grains.{grains_of_the_longest_length};
ghost use Rattle.abc_perform_item.specs.Fermata.{AreHeld, fermata_factor, have_room};

use crate::decorations::has_fermata;
use abc_bars_items::Tone;
use abc_marks::Mark;
use abc_perform_note::has_room_for_fermata;
use abc_time::Grains;

/// Whether a fermata may double each of some tones.
fn have_room(tones: &[Tone]) -> bool
    ensures { result ≡ have_room tones.now }
{
    for tone in tones {
        if !has_room_for_fermata(tone.length) {
            return false;
        }
    }
    true
}

/// Returns what the length of a note, chord or rest is multiplied by: 2 if a fermata holds it, else 1.
#[tactic(auto, using(crate::proofs::Fermatas::held_by_room))]
pub(crate) fn fermata_factor(holds: bool, marks: &[Mark], length: Grains, tones: &[Tone]) -> u8
    requires length { IsWithinLongest length }
    requires tones { All IsTone tones.now }
    ensures value { result ≡ fermata_factor holds marks.now length tones.now }
    ensures length { result * length.0 ≤ grains_of_the_longest_length }
    ensures tones { AreHeld result tones.now }
{
    if holds && has_fermata(marks) && has_room_for_fermata(length) && have_room(tones) {
        2
    } else {
        1
    }
}
