//! Laws of the value of a field K:.

ghost use Rattle.abc_bars.specs.KeyFieldLaws.{LastListedCounts, NamedModesAdd, OthersAreMajor, OtherRunsAreRefused};

/// An accepted K: with a signature alters each letter by the last accidental that it lists for the letter. If it lists none, its
/// tonic and mode decide (ABC 2.1 section 3.1.14).
pub fn listed_accidentals()
    ensures { LastListedCounts }
{}

/// The first three letters of the run after the tonic of a K: decide its mode, capitals or not, or `m` does (ABC 2.1 section
/// 3.1.14). A mode adds its sharps to those of the major key. Without such a run the key is major, or the value is refused if
/// another run of letters directly follows the tonic.
pub fn modes_of_keys()
    ensures modes { NamedModesAdd }
    ensures major { OthersAreMajor }
    ensures refused { OtherRunsAreRefused }
{}
