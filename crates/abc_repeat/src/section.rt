//! The first section of each letter.

ghost use Rattle.std.specs.Prelude.{◌≡◌, ℕ, ◌+◌, ◌<◌};
ghost use Rattle.std.specs.Char.{is_ascii_uppercase};
ghost use Rattle.abc_repeat.specs.Section.{first_section, section_of};

/// The number of letters that a section may have.
const LETTERS: usize = 26;

/// The first section of each letter A to Z, of the sections counted from 1.
#[derive(Drop)]
pub(crate) struct FirstSections {
    by_letter: [Option<usize>; LETTERS],
}

impl FirstSections {
    /// Returns the first sections of the sections with these letters.
    pub(crate) fn of(letters: &[u8]) -> FirstSections
        ensures { (letter : ℕ) → section_of result letter ≡ first_section letters.now letter }
    {
        let mut by_letter = [None; LETTERS];
        for (at, letter) in letters.iter().enumerate() {
            if letter.is_ascii_uppercase() {
                let place = (*letter - b'A') as usize;
                by_letter[place] = by_letter[place].or(Some(at + 1));
            }
        }
        FirstSections { by_letter }
    }

    /// Returns the first section of a letter; none for another byte.
    pub(crate) fn get(&self, letter: u8) -> Option<usize>
        ensures { result ≡ section_of self.now letter }
    {
        if letter.is_ascii_uppercase() {
            self.by_letter[(letter - b'A') as usize]
        } else {
            None
        }
    }
}
