//! The track of a voice: its events in their order.
ghost use Rattle.std.specs.Prelude.{◌≡◌, ◌≤◌, ◌<◌, ◌++◌, [], map, IfOk, IsTrue, OnOk};
ghost use Rattle.abc_time.specs.Grains.{grains_of_the_latest_end, tick_at};
ghost use Rattle.abc_voices_score.specs.Limits.{IsSoundingWithin, IsVoiceWithin};
ghost use Rattle.smf_bytes.specs.Event.{note_events};
ghost use Rattle.smf_bytes.specs.Groups.{AreInTurn};
ghost use Rattle.smf_bytes.specs.Order.{in_order};
ghost use Rattle.smf_bytes.specs.Track.{Follows, tick_after, timed_events, track_body, voice_events};
ghost use Rattle.smf_bytes.specs.TrackEvents.{IsMusicWithin, is_plain, music_events};
ghost use Rattle.smf_bytes.specs.Voice.{event_at};

use crate::groups::{are_in_turn, first_group};
use crate::track_bytes::TrackBytes;
use crate::voice::{RELEASE_VELOCITY, events_of_voice};
use crate::voice_bytes::{is_note, put_both, put_voice_event};
use crate::voice_event::{VoiceEvent, order_voice};
use abc_time::{Grains, tick_of};
use abc_voices_score::{ProgramChange, Sounding};
use std::alloc::{AllocError, Global};
use std::mem;

/// What a voice plays, on a channel.
#[derive(Clone, Copy)]
pub(crate) struct VoiceMusic<'a> {
    pub(crate) alloc: Global,
    /// The end of the tune.
    pub(crate) end: Grains,
    pub(crate) channel: u8,
    pub(crate) programs: &'a [ProgramChange],
    pub(crate) notes: &'a [Sounding],
}

/// Appends the events of a voice in their order, each after its delta time, and the end of the track. Most voices have no
/// programs, and their notes are in the order of their beginnings, the last one first: they need no list of events.
pub(crate) fn put_music(out: &mut Vec<u8>, music: VoiceMusic) -> Result<(), AllocError>
    requires within { IsMusicWithin music }
    ensures { OnOk result (out.new.items ≡ out.old.items
        ++ track_body (tick_at music.entry.end.0) (music_events music.entry)) }
{
    // Most notes take nine bytes.
    out.reserve(10 * music.notes.len())?;
    let mut track = TrackBytes::of(mem::replace(out, Vec::new(music.alloc)));
    if is_plain(music) {
        put_in_turn(&mut track, music)?;
    } else {
        put_sorted(&mut track, music)?;
    }
    *out = track.into_vec()?;
    Ok(())
}

/// Whether a voice has no programs, and its notes are in the order of their beginnings, the last one first.
#[tactic(auto, using(std::proofs::lemmas::List::nil_from_length))]
fn is_plain(music: VoiceMusic) -> bool
    ensures plain { IsTrue result → (music.entry.programs.now ≡ []) × AreInTurn music.entry.notes.now }
    ensures exact { result ≡ is_plain music.entry }
{
    match music.programs {
        [] => are_in_turn(music.notes),
        _ => false,
    }
}

/// Appends the events of a voice, all in one list, and the end of the track.
fn put_sorted(out: &mut TrackBytes, music: VoiceMusic) -> Result<(), AllocError>
    requires within { IsMusicWithin music }
    ensures { OnOk result (out.new ≡ out.old
        ++ track_body (tick_at music.entry.end.0) (music_events music.entry)) }
{
    let last = put_together(out, 0, music)?;
    let delta = tick_of(music.end) - last;
    out.put_end(delta)
}

/// Appends the events of notes that are in the order of their beginnings, group by group, and the end of the track.
fn put_in_turn(out: &mut TrackBytes, music: VoiceMusic) -> Result<(), AllocError>
    requires within { IsMusicWithin music }
    requires programs { music.programs.now ≡ [] }
    requires turn { AreInTurn music.notes.now }
    ensures { OnOk result (out.new ≡ out.old
        ++ track_body (tick_at music.entry.end.0) (music_events music.entry)) }
{
    let end = music.end;
    let channel = music.channel;
    let mut before = 0;
    let mut left = music.notes;
    while !left.is_empty() {
        let (start, _) = first_group(left);
        let (later, group) = left.split_at(start);
        before = put_group(music.alloc, out, before, end, channel, group)?;
        left = later;
    }
    let delta = tick_of(end) - before;
    out.put_end(delta)
}

/// Appends the events of notes in their order, from the tick `before` on, and returns the tick of the last. Most groups are
/// one note.
#[inline(always)]
fn put_group(
    alloc: Global,
    out: &mut TrackBytes,
    before: u32,
    end: Grains,
    channel: u8,
    notes: &[Sounding],
) -> Result<u32, AllocError>
    requires channel { channel < 16 }
    requires end { end.0 ≤ grains_of_the_latest_end }
    requires notes { IsVoiceWithin end notes.now }
    requires in_time { Follows (tick_at end.0) before (in_order (voice_events channel [] notes.now)) }
    ensures bytes { OnOk result (out.new ≡ out.old
        ++ timed_events before (in_order (voice_events channel [] notes.now))) }
    ensures last { IfOk result (λ last. last ≡ tick_after before (in_order (voice_events channel [] notes.now))) }
{
    match notes {
        [note] => put_sounding(out, before, end, channel, note),
        _ => {
            let music = VoiceMusic {
                alloc,
                end,
                channel,
                programs: &[],
                notes,
            };
            put_together(out, before, music)
        }
    }
}

/// Appends the on and the off of a note, from the tick `before` on, and returns the tick of the last event so far.
#[inline(always)]
fn put_sounding(
    out: &mut TrackBytes,
    before: u32,
    end: Grains,
    channel: u8,
    note: &Sounding,
) -> Result<u32, AllocError>
    requires channel { channel < 16 }
    requires end { end.0 ≤ grains_of_the_latest_end }
    requires note { IsSoundingWithin end note.now }
    requires in_time { Follows (tick_at end.0) before (note_events channel note.now) }
    ensures bytes { OnOk result (out.new ≡ out.old ++ timed_events before (note_events channel note.now)) }
    ensures last { IfOk result (λ last. last ≡ tick_after before (note_events channel note.now)) }
{
    let on = tick_of(note.on);
    let off = tick_of(note.off);
    if on == off {
        return Ok(before);
    }
    let begins = [0x90 + channel, note.key, note.velocity];
    let ends = [0x80 + channel, note.key, RELEASE_VELOCITY];
    let rest = on - before;
    let length = off - on;
    put_both(out, rest, begins, length, ends)?;
    Ok(off)
}

/// Appends the events of a voice in their order, from the tick `before` on, and returns the tick of the last.
#[inline(never)]
fn put_together(out: &mut TrackBytes, before: u32, music: VoiceMusic) -> Result<u32, AllocError>
    requires within { IsMusicWithin music }
    requires in_time { Follows (tick_at music.end.0) before
        (in_order (music_events music)) }
    ensures bytes { OnOk result (out.new ≡ out.old
        ++ timed_events before (in_order (music_events music.entry))) }
    ensures last { IfOk result (λ last.
        last ≡ tick_after before (in_order (music_events music.entry))) }
{
    let events = events_of_voice(music.alloc, music.end, music.programs, music.notes)?;
    put_ordered(out, before, music.end, music.channel, events)
}

/// Appends events of a voice in their order, from the tick `before` on, and returns the tick of the last.
fn put_ordered(
    out: &mut TrackBytes,
    before: u32,
    end: Grains,
    channel: u8,
    events: Vec<VoiceEvent>,
) -> Result<u32, AllocError>
    requires channel { channel < 16 }
    requires end { end.0 ≤ grains_of_the_latest_end }
    requires in_time { Follows (tick_at end.0) before (in_order (map (event_at channel) events.items)) }
    ensures bytes { OnOk result (out.new ≡ out.old
        ++ timed_events before (in_order (map (event_at channel) events.items))) }
    ensures last { IfOk result (λ last. last ≡ tick_after before (in_order (map (event_at channel) events.items))) }
{
    let ordered = order_voice(events)?;
    let mut at = before;
    let mut left = ordered.as_slice();
    while let [event, others @ ..] = left {
        let delta = event.tick - at;
        match others {
            [off, rest @ ..] if is_note(event, off) => {
                let ends = [0x80 + channel, off.key, off.value];
                let begins = [0x90 + channel, event.key, event.value];
                put_both(out, delta, begins, off.tick - event.tick, ends)?;
                at = off.tick;
                left = rest;
            }
            _ => {
                put_voice_event(out, delta, channel, event)?;
                at = event.tick;
                left = others;
            }
        }
    }
    Ok(at)
}
