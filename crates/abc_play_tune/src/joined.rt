//! Tones that a tie joins with tones before them.

ghost use Rattle.std.specs.Prelude.{◌≡◌};
ghost use Rattle.abc_voices.specs.Ties.{has_key, tied_with, tones_with};
ghost use Rattle.abc_play_tune.specs.Entries.{is_joined};

use abc_bars_items::Tone;

/// Whether a tone has a key.
fn has_key(key: u8, own: Option<u8>) -> bool
    ensures { result ≡ has_key key own }
{
    match own {
        Some(own) => own == key,
        None => false,
    }
}

/// Returns how many of some tones have a key.
fn tones_with(key: u8, tones: &[Tone]) -> usize
    ensures { result ≡ tones_with key tones.now }
{
    let mut count = 0;
    for tone in tones {
        if has_key(key, tone.key) {
            count += 1;
        }
    }
    count
}

/// Returns how many of some tones that have a key are tied.
fn tied_with(key: u8, tones: &[Tone]) -> usize
    ensures { result ≡ tied_with key tones.now }
{
    let mut count = 0;
    for tone in tones {
        if tone.tied && has_key(key, tone.key) {
            count += 1;
        }
    }
    count
}

/// Whether a tone is joined with one of the time token before its own, which has the tones `previous`. `past` has the tones
/// before it in its own.
pub(crate) fn is_joined(previous: &[Tone], past: &[Tone], key: Option<u8>) -> bool
    ensures { result ≡ is_joined previous.now past.now key }
{
    match key {
        Some(key) => tones_with(key, past) < tied_with(key, previous),
        None => false,
    }
}
