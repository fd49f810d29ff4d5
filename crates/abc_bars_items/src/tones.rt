//! The tones of a note or chord, in little memory.

ghost use Rattle.std.specs.Prelude.{◌≡◌, [], ◌∷◌, IfOk};
ghost use Rattle.abc_bars_items.specs.TonesView.{viewed_tones};

use crate::item::Tone;
use abc_text::{Shared, ShortSequence};
use abc_time::Grains;
use std::alloc::{AllocError, Global};
use std::marker::Model;

/// How tones are stored.
#[derive(Drop)]
pub enum StoredTones {
    /// One tone, in its parts: the small ones are beside the tag.
    One {
        key: Option<u8>,
        velocity: u8,
        tied: bool,
        length: Grains,
    },
    List(Shared<ShortSequence<Tone>>),
}

/// The tones of a note or chord in order. One tone, the usual case, is stored here. A list is stored apart and shared by
/// copies, since a book has very many tones.
#[derive(Drop)]
pub struct Tones {
    stored: StoredTones,
}

impl Model for Tones {
    ghost use Rattle.std.specs.Prelude.{List};
    ghost use Rattle.abc_bars_items.specs.declared.item.Tone.{Tone};
    ghost use Rattle.abc_bars_items.specs.StoredTones.{stored_tones};

    ghost Value = { List Tone };

    ghost view = { λ tones. stored_tones tones.stored };
}

/// Tones as a caller reads them.
pub enum TonesView<'a> {
    One(Tone),
    List(&'a [Tone]),
}

impl Tones {
    /// One tone.
    pub fn one(tone: Tone) -> Tones
        ensures { result ≡ tone ∷ [] }
    {
        Tones {
            stored: StoredTones::One {
                key: tone.key,
                velocity: tone.velocity,
                tied: tone.tied,
                length: tone.length,
            },
        }
    }

    /// These tones. It returns an error if an allocation fails.
    pub fn of(alloc: Global, tones: ShortSequence<Tone>) -> Result<Tones, AllocError>
        ensures { IfOk result (λ made. made ≡ tones) }
    {
        if let [tone] = tones.as_slice() {
            return Ok(Tones::one(*tone));
        }
        let tones = Shared::new(alloc, tones)?;
        Ok(Tones {
            stored: StoredTones::List(tones),
        })
    }

    /// The tones in order.
    pub fn view(&self) -> TonesView<'_>
        ensures { viewed_tones result ≡ self.now }
    {
        match &self.stored {
            StoredTones::One {
                key,
                velocity,
                tied,
                length,
            } => TonesView::One(Tone {
                length: *length,
                key: *key,
                velocity: *velocity,
                tied: *tied,
            }),
            StoredTones::List(tones) => TonesView::List(tones.get().as_slice()),
        }
    }
}

impl Clone for Tones {
    ghost is_clone = { λ tones copy. copy ≡ tones };

    fn clone(&self) -> Result<Tones, AllocError> {
        let stored = match &self.stored {
            StoredTones::One {
                key,
                velocity,
                tied,
                length,
            } => StoredTones::One {
                key: *key,
                velocity: *velocity,
                tied: *tied,
                length: *length,
            },
            StoredTones::List(tones) => StoredTones::List(tones.share()?),
        };
        Ok(Tones { stored })
    }
}
