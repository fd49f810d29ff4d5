//! Laws of the readers. Each function has no body: its contract is the law.

ghost use Rattle.abc_marks_readers.specs.ChordKind.{ReadsKinds};
ghost use Rattle.abc_marks_readers.specs.Decoration.{ReadsDecorations};

/// The kind of chord that is read is the one of the table (ABC 2.1 section 4.18).
pub fn one_kind()
    ensures { ReadsKinds }
{}

/// The decoration that is read is the one of the table (ABC 2.1 section 4.14).
pub fn one_decoration()
    ensures { ReadsDecorations }
{}
