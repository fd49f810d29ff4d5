//! Line classes, the text read of a line, and its tokens, by the definitions of `abc_scan`.
#![tactic(auto, unfolding(crate::specs::Opened::music))]

ghost use Rattle.std.specs.Prelude.{◌≡◌, true, false, pos, negsuc, [], ◌∷◌, codes, drop, map, replicate, take};
ghost use Rattle.abc_scan.specs.declared.line_class.LineClass.TheVariants.{Blank, Comment, Directive, Field, Music};
ghost use Rattle.abc_scan.specs.declared.length.WrittenLength.TheVariants.{Factor, Refused};
ghost use Rattle.abc_text.specs.declared.accidental.Accidental.TheVariants.{DoubleSharp};
ghost use Rattle.abc_text.specs.declared.letter.Letter.TheVariants.{C};
ghost use Rattle.abc_scan.specs.declared.broken.Direction.TheVariants.{Left, Right};
ghost use Rattle.abc_scan.specs.declared.directive.Directive.TheVariants as directives;
ghost use Rattle.abc_scan.specs.declared.directive.Reach.TheVariants.{Octave};
ghost use Rattle.abc_scan.specs.declared.dynamic.Dynamic.TheVariants.{Ppp, Pp, P, Mp, Mf, F, Ff, Fff};
ghost use Rattle.abc_scan.specs.declared.chord_part.ChordPartKind.TheVariants as parts;
ghost use Rattle.abc_scan.specs.declared.token.TokenKind.TheVariants as kinds;
ghost use Rattle.abc_scan.specs.Line.{tokens_of};
ghost use Rattle.abc_scan.specs.Length.{length_at};
ghost use Rattle.abc_scan.specs.Class.{class_of};
ghost use Rattle.abc_scan.specs.Note.{octave};
ghost use Rattle.abc_scan.specs.Text.{content};
ghost use Rattle.tests_text.specs.Values.{bar_token, blank, c_part, c_token, chord_token, double_bar, kinds_of};
ghost use Rattle.tests_text.specs.Values.{part, plain, token};
ghost use Rattle.tests_text.specs.VoiceStates.{broken, mark};

/// Blank lines and comments. ABC 2.1 section 2.2. Only spaces and tabs are blanks, and one carriage return is dropped
/// at the end: not in ABC 2.1.
pub fn blanks_and_comments()
    ensures empty { class_of [] ≡ Blank }
    ensures blanks { class_of (codes " \t") ≡ Blank }
    ensures one_return { class_of (codes "\r") ≡ Blank }
    ensures two_returns { class_of (codes "\r\r") ≡ Music }
    ensures comment { class_of (codes "% C") ≡ Comment }
    ensures comment_after_blanks { class_of (codes "\t % C") ≡ Comment }
    ensures unknown_directive { class_of (codes "%%landscape 1") ≡ Comment }
    ensures escaped { class_of (codes "\\% C") ≡ Music }
{}

/// A program: `%%MIDI`, `program` and a number of one to nine digits, with blanks between them, in the first column, and
/// after it blanks or a comment alone. It is abc2midi's own directive; the rest is not in ABC 2.1.
pub fn programs()
    ensures accepted { map class_of (codes "%%MIDI program 1" ∷ codes "%%MIDI \t program  41 \t" ∷ []) ≡ replicate 2 Directive }
    ensures ends { map class_of (codes "%%MIDI program 41 % flute" ∷ codes "%%MIDI program 5%x" ∷ codes "%%MIDI program 5\r" ∷ [])
        ≡ replicate 3 Directive }
    ensures other_ends { map class_of (codes "%%MIDI program 5\\%x" ∷ codes "%%MIDI program 5\r\r" ∷ []) ≡ replicate 2 Comment }
    ensures nine_digits { class_of (codes "%%MIDI program 000000005") ≡ Directive }
    ensures ten_digits { class_of (codes "%%MIDI program 0000000005") ≡ Comment }
    ensures numbers { map class_of (codes "%%MIDI program 2 41" ∷ codes "%%MIDI program % 41" ∷ []) ≡ replicate 2 Comment }
    ensures words { map class_of (codes "%%MIDI Program 5" ∷ codes "%%MIDIprogram 5" ∷ codes "%%MIDI program5" ∷ [])
        ≡ replicate 3 Comment }
    ensures after_a_blank { class_of (codes " %%MIDI program 5") ≡ Comment }
{}

/// The reach of accidentals. ABC 2.1 section 11.3; the first column is not in ABC 2.1.
pub fn reaches()
    ensures words { map class_of (codes "%%propagate-accidentals not"
        ∷ codes "%%propagate-accidentals\toctave % c and C' are one" ∷ codes "%%propagate-accidentals pitch%" ∷ [])
        ≡ replicate 3 Directive }
    ensures other_words { map class_of (codes "%%propagate-accidentals pitches" ∷ codes "%%propagate-accidentals on"
        ∷ codes "%%propagate-accidentals Not" ∷ codes "%%propagate-accidentals" ∷ []) ≡ replicate 4 Comment }
    ensures after_a_blank { class_of (codes "\t%%propagate-accidentals not") ≡ Comment }
{}

/// Fields begin at column 1 with a letter or `+` and a colon. ABC 2.1 sections 3 and 3.3.
pub fn fields()
    ensures reference { class_of (codes "X:1") ≡ Field 88 }
    ensures small_letter { class_of (codes "w:la") ≡ Field 119 }
    ensures continued { class_of (codes "+:more") ≡ Field 43 }
    ensures after_a_blank { class_of (codes " X:1") ≡ Music }
    ensures digit { class_of (codes "1:") ≡ Music }
    ensures colon_alone { class_of (codes "C:") ≡ Field 67 }
    ensures no_colon { class_of (codes "C D") ≡ Music }
{}

/// A letter of a note or of a rest before a repeat bar is music; the class looks at the comment too. Not in ABC 2.1.
pub fn notes_before_repeat_bars()
    ensures notes { map class_of (codes "C:|" ∷ codes "g::" ∷ []) ≡ replicate 2 Music }
    ensures rests { map class_of (codes "z:|" ∷ codes "x::" ∷ []) ≡ replicate 2 Music }
    ensures bar_rest { class_of (codes "Z:|") ≡ Field 90 }
    ensures reference { class_of (codes "X:|") ≡ Field 88 }
    ensures letters { map (λ letter. class_of (letter ∷ codes ":|")) (codes "ABCDEFGabcdefgxz") ≡ replicate 16 Music }
    ensures other_letters { map (λ letter. class_of (letter ∷ codes ":|")) (codes "HWXYZhwy+")
        ≡ map (λ letter. Field letter) (codes "HWXYZhwy+") }
    ensures no_note { class_of (codes "H:|") ≡ Field 72 }
    ensures no_bar { class_of (codes "C:1D") ≡ Field 67 }
    ensures comment { class_of (codes "C:%|") ≡ Field 67 }
{}

/// The text read of a line: without one carriage return at its end, and then the part before its comment. A `%` after
/// one or two backslashes begins no comment. ABC 2.1 section 2.2; single backslashes are not in ABC 2.1.
pub fn what_is_read()
    ensures comment { content (codes "C D % E\r") ≡ codes "C D " }
    ensures comment_alone { content (codes "%") ≡ [] }
    ensures escaped { content (codes "T:a \\% b % c") ≡ codes "T:a \\% b " }
    ensures two_backslashes { content (codes "\\\\% a") ≡ codes "\\\\% a" }
    ensures escaped_and_not { content (codes "\\%% a") ≡ codes "\\%" }
    ensures inside_quotes { content (codes "\"a%b\"C") ≡ codes "\"a" }
    ensures two_returns { content (codes "C\r\r") ≡ codes "C\r" }
{}

/// Lengths as written: 3/2, a half, a quarter. ABC 2.1 section 4.3. Zero, ten digits and thirty slashes are refused:
/// not in ABC 2.1.
pub fn written_lengths()
    ensures plain { length_at [] ≡ Factor 1 1 }
    ensures three_halves { length_at (codes "3/2") ≡ Factor 3 2 }
    ensures half { length_at (codes "/") ≡ Factor 1 2 }
    ensures quarter { length_at (codes "//") ≡ Factor 1 4 }
    ensures third { length_at (codes "/3") ≡ Factor 1 3 }
    ensures three_quarters { length_at (codes "3//") ≡ Factor 3 4 }
    ensures zero { length_at (codes "0") ≡ Refused }
    ensures over_zero { length_at (codes "1/0") ≡ Refused }
    ensures nine_digits { length_at (codes "000000002") ≡ Factor 2 1 }
    ensures ten_digits { length_at (codes "0000000002") ≡ Refused }
    ensures over_ten_digits { length_at (codes "1/0000000001") ≡ Refused }
    ensures most_slashes { length_at (replicate 29 47) ≡ Factor 1 536870912 }
    ensures more_slashes { length_at (replicate 30 47) ≡ Refused }
{}

/// The octaves of `C,',`, `C,,,,,` and `C,,,,,,`; `c` and `C'` are one. ABC 2.1 section 4.1.
pub fn octaves()
    ensures capital { octave 67 [] ≡ pos 0 }
    ensures down_up_down { octave 67 (codes ",',") ≡ negsuc 0 }
    ensures five_down { octave 67 (codes ",,,,,") ≡ negsuc 4 }
    ensures six_down { octave 67 (codes ",,,,,,") ≡ negsuc 5 }
    ensures small { octave 99 [] ≡ pos 1 }
    ensures capital_up { octave 67 (codes "'") ≡ pos 1 }
{}

/// The tokens of `C3/2 C/ C// C0 C1/17 C`: notes, and a blank between each two. ABC 2.1 section 4.3.
pub fn tokens_of_lengths()
    ensures first_six { take 6 (tokens_of (codes "C3/2 C/ C// C0 C1/17 C")) ≡ c_token (pos 0) (Factor 3 2) 0 4 ∷ blank 4 5
        ∷ c_token (pos 0) (Factor 1 2) 5 7 ∷ blank 7 8 ∷ c_token (pos 0) (Factor 1 4) 8 11 ∷ blank 11 12 ∷ [] }
    ensures others { drop 6 (tokens_of (codes "C3/2 C/ C// C0 C1/17 C")) ≡ c_token (pos 0) Refused 12 14 ∷ blank 14 15
        ∷ c_token (pos 0) (Factor 1 17) 15 20 ∷ blank 20 21 ∷ c_token (pos 0) plain 21 22 ∷ [] }
{}

/// The tokens of `C,,,,, C,,,,,, C`. ABC 2.1 section 4.1.
pub fn tokens_of_low_notes()
    ensures { tokens_of (codes "C,,,,, C,,,,,, C") ≡
        c_token (negsuc 4) plain 0 6 ∷ blank 6 7 ∷ c_token (negsuc 5) plain 7 14 ∷ blank 14 15 ∷ c_token (pos 0) plain 15 16 ∷ [] }
{}

/// The longest token comes first: `C//2` is `C//` and a byte that begins no token, and of three signs the first is no
/// token. ABC 2.1 sections 4.2, 4.3 and 4.5; tokens for such bytes are not in ABC 2.1.
pub fn longest_tokens()
    ensures slashes { tokens_of (codes "C//2") ≡ c_token (pos 0) (Factor 1 4) 0 3 ∷ token kinds.BadByte 3 4 ∷ [] }
    ensures signs { tokens_of (codes "^^^c") ≡ token kinds.BadByte 0 1
        ∷ token (kinds.Note (record { accidental = Some DoubleSharp; letter = C; octave = pos 1; length = plain })) 1 4 ∷ [] }
    ensures rest { tokens_of (codes "z3/2") ≡ token (kinds.Rest (Factor 3 2)) 0 4 ∷ [] }
    ensures bar_line { tokens_of (codes "C|") ≡ c_token (pos 0) plain 0 1
        ∷ token (kinds.Bar (record { closes = 0; opens = 0; double = false })) 1 2 ∷ [] }
{}

/// Bar lines of two signs are double. ABC 2.1 section 4.8.
pub fn tokens_of_double_bars()
    ensures thin { tokens_of (codes "C||") ≡ c_token (pos 0) plain 0 1 ∷ token (double_bar 0) 1 3 ∷ [] }
    ensures thick { tokens_of (codes "C|]") ≡ c_token (pos 0) plain 0 1 ∷ token (double_bar 0) 1 3 ∷ [] }
    ensures before { tokens_of (codes "[|C") ≡ token (double_bar 0) 0 2 ∷ c_token (pos 0) plain 2 3 ∷ [] }
    ensures repeated { tokens_of (codes "C:|]") ≡ c_token (pos 0) plain 0 1 ∷ token (double_bar 1) 1 4 ∷ [] }
{}

/// Repeat bars. Colons before the strokes close and those after them open; k colons alone close and open k - 1 times. ABC 2.1
/// section 4.8; what double means, and three colons alone, are not in ABC 2.1.
pub fn tokens_of_repeat_bars()
    ensures open { tokens_of (codes "|:") ≡ bar_token 0 1 false 0 2 ∷ [] }
    ensures close { tokens_of (codes ":|") ≡ bar_token 1 0 false 0 2 ∷ [] }
    ensures both { tokens_of (codes ":|:") ≡ bar_token 1 1 false 0 3 ∷ [] }
    ensures double { tokens_of (codes ":||:") ≡ bar_token 1 1 true 0 4 ∷ [] }
    ensures colons { tokens_of (codes "::") ≡ bar_token 1 1 true 0 2 ∷ [] }
    ensures three_colons { tokens_of (codes ":::") ≡ bar_token 2 2 true 0 3 ∷ [] }
    ensures played_three_times { tokens_of (codes "|::::|") ≡ bar_token 0 4 false 0 5 ∷ bar_token 0 0 false 5 6 ∷ [] }
    ensures one_colon { tokens_of (codes ":") ≡ token kinds.BadByte 0 1 ∷ [] }
{}

/// Ending marks: numbers, ranges and lists of them, up to 32. Directly after a bar line the bracket may be left out. ABC 2.1
/// sections 4.9 and 4.10; the bound and the refusals are not in ABC 2.1. Pass i is bit i - 1.
pub fn tokens_of_endings()
    ensures first { tokens_of (codes "[1") ≡ token (kinds.Ending (Some 1)) 0 2 ∷ [] }
    ensures range { tokens_of (codes "[1-3") ≡ token (kinds.Ending (Some 7)) 0 4 ∷ [] }
    ensures list { tokens_of (codes "[1,3,5-7") ≡ token (kinds.Ending (Some 117)) 0 8 ∷ [] }
    ensures last { tokens_of (codes "[32") ≡ token (kinds.Ending (Some 2147483648)) 0 3 ∷ [] }
    ensures refused { kinds_of (tokens_of (codes "[33 [0 [2-1")) ≡ kinds.Ending None ∷ kinds.Blank ∷ kinds.Ending None ∷ kinds.Blank
        ∷ kinds.Ending None ∷ [] }
    ensures after_a_bar { tokens_of (codes "|2") ≡ bar_token 0 0 false 0 1 ∷ token (kinds.Ending (Some 2)) 1 2 ∷ [] }
    ensures after_a_blank { tokens_of (codes "| 2") ≡ bar_token 0 0 false 0 1 ∷ blank 1 2 ∷ token kinds.BadByte 2 3 ∷ [] }
    ensures unfinished { kinds_of (tokens_of (codes "[1, [1-2-3")) ≡ kinds.Ending (Some 1) ∷ kinds.BadByte ∷ kinds.Blank
        ∷ kinds.Ending (Some 3) ∷ kinds.Tie ∷ kinds.BadByte ∷ [] }
{}

/// Tokens without effect: quoted text, decorations, grace groups, spaces, and single bytes. ABC 2.1 sections 4.7, 4.11, 4.12,
/// 4.14, 4.16, 4.18, 4.19, 6.1 and 8.1. A byte that opens one and is not closed is no token: not in ABC 2.1.
pub fn tokens_without_effect()
    ensures quoted { tokens_of (codes "\"Am7\"C") ≡ token kinds.NoEffect 0 5 ∷ c_token (pos 0) plain 5 6 ∷ [] }
    ensures grace_notes { tokens_of (codes "{/gag}C") ≡ token kinds.NoEffect 0 6 ∷ c_token (pos 0) plain 6 7 ∷ [] }
    ensures decoration { tokens_of (codes "!trill!C") ≡ token kinds.NoEffect 0 7 ∷ c_token (pos 0) plain 7 8 ∷ [] }
    ensures spaces { tokens_of (codes "yy10C") ≡ token kinds.NoEffect 0 1 ∷ token kinds.NoEffect 1 4 ∷ c_token (pos 0) plain 4 5
        ∷ [] }
    ensures marks { kinds_of (tokens_of (codes "`.~\\$#*;?@()")) ≡ replicate 12 kinds.NoEffect }
    ensures capitals { kinds_of (tokens_of (codes "HIJKLMNOPQRSTUVW")) ≡ replicate 16 kinds.NoEffect }
    ensures small_letters { kinds_of (tokens_of (codes "hijklmnopqrstuvw")) ≡ replicate 16 kinds.NoEffect }
    ensures bad_bytes { kinds_of (tokens_of (codes "Y&+,/'5]}")) ≡ replicate 9 kinds.BadByte }
    ensures unclosed { map (λ line. kinds_of (tokens_of line)) (codes "\"" ∷ codes "!" ∷ codes "{" ∷ codes "[" ∷ [])
        ≡ replicate 4 (kinds.Unclosed ∷ []) }
{}

/// Tuplet marks: p, and after colons q and r, which may be left out. ABC 2.1 section 4.13.
pub fn tokens_of_tuplets()
    ensures all { tokens_of (codes "(3:2:4") ≡ token (kinds.Tuplet (mark 3 (Some 2) (Some 4))) 0 6 ∷ [] }
    ensures no_r { tokens_of (codes "(3:2") ≡ token (kinds.Tuplet (mark 3 (Some 2) None)) 0 4 ∷ [] }
    ensures no_q { tokens_of (codes "(3::4") ≡ token (kinds.Tuplet (mark 3 None (Some 4))) 0 5 ∷ [] }
    ensures p_alone { tokens_of (codes "(12C") ≡ token (kinds.Tuplet (mark 12 None None)) 0 3 ∷ c_token (pos 0) plain 3 4 ∷ [] }
    ensures before_a_bar { tokens_of (codes "(3:|") ≡ token (kinds.Tuplet (mark 3 None None)) 0 3 ∷ bar_token 0 0 false 3 4 ∷ [] }
    ensures slur { tokens_of (codes "(C)") ≡ token kinds.NoEffect 0 1 ∷ c_token (pos 0) plain 1 2 ∷ token kinds.NoEffect 2 3 ∷ [] }
{}

/// Marks of broken rhythm: up to three of one direction. ABC 2.1 section 4.4; that there are at most three is not in ABC 2.1.
pub fn tokens_of_broken_rhythm()
    ensures right { tokens_of (codes ">>>>") ≡ token (kinds.Broken (broken Right 3)) 0 3 ∷ token (kinds.Broken (broken Right 1)) 3 4
        ∷ [] }
    ensures left { tokens_of (codes "<<>") ≡ token (kinds.Broken (broken Left 2)) 0 2 ∷ token (kinds.Broken (broken Right 1)) 2 3
        ∷ [] }
{}

/// Inline fields and chords. No chord has a bracket or a bar line inside. ABC 2.1 sections 3.2 and 4.17; a bracket that is not
/// closed is not in ABC 2.1.
pub fn tokens_in_brackets()
    ensures field { tokens_of (codes "[K: G ]") ≡ token (kinds.InlineField (record { letter = 75; value = codes "G" })) 0 7 ∷ [] }
    ensures bar_inside { tokens_of (codes "[r:a|[b]") ≡ token (kinds.InlineField (record { letter = 114; value = codes "a|[b" }))
        0 8 ∷ [] }
    ensures chord { tokens_of (codes "[C C]") ≡ chord_token (c_part 1 2 ∷ part parts.NoEffect 2 3 ∷ c_part 3 4 ∷ []) 0 5 ∷ [] }
    ensures length_after { tokens_of (codes "[C]3/2")
        ≡ token (kinds.Chord (record { parts = c_part 1 2 ∷ []; length = Factor 3 2 })) 0 6 ∷ [] }
    ensures bar_in_a_chord { tokens_of (codes "[C|") ≡ token kinds.Unclosed 0 1 ∷ c_token (pos 0) plain 1 2
        ∷ bar_token 0 0 false 2 3 ∷ [] }
    ensures bracket_in_a_chord { tokens_of (codes "[C[C]") ≡ token kinds.Unclosed 0 1 ∷ c_token (pos 0) plain 1 2
        ∷ chord_token (c_part 1 2 ∷ []) 2 5 ∷ [] }
    ensures open_field { kinds_of (tokens_of (codes "[K:H")) ≡ kinds.Unclosed ∷ kinds.NoEffect ∷ kinds.BadByte ∷ kinds.NoEffect
        ∷ [] }
{}

/// A dynamic is a token. Another decoration has no effect, and a decoration that is not closed is no token. In a chord
/// a dynamic has no effect. ABC 2.1 section 4.14; the last is not in ABC 2.1.
pub fn tokens_of_dynamics()
    ensures between_notes { tokens_of (codes "C!f!C!foo!C") ≡
        c_token (pos 0) plain 0 1 ∷ token (kinds.Dynamic F) 1 4
        ∷ c_token (pos 0) plain 4 5 ∷ token kinds.NoEffect 5 10 ∷ c_token (pos 0) plain 10 11 ∷ [] }
    ensures names { kinds_of (tokens_of (codes "!ppp!!pp!!p!!mp!!mf!!f!!ff!!fff!"))
        ≡ map (λ dynamic. kinds.Dynamic dynamic) (Ppp ∷ Pp ∷ P ∷ Mp ∷ Mf ∷ F ∷ Ff ∷ Fff ∷ []) }
    ensures loudest { tokens_of (codes "!fff!!ppp!") ≡ token (kinds.Dynamic Fff) 0 5 ∷ token (kinds.Dynamic Ppp) 5 10 ∷ [] }
    ensures middle { tokens_of (codes "!mp!!mf!") ≡ token (kinds.Dynamic Mp) 0 4 ∷ token (kinds.Dynamic Mf) 4 8 ∷ [] }
    ensures too_many { tokens_of (codes "!ffff!") ≡ token kinds.NoEffect 0 6 ∷ [] }
    ensures with_a_blank { tokens_of (codes "!p !") ≡ token kinds.NoEffect 0 4 ∷ [] }
    ensures open { tokens_of (codes "!p") ≡ token kinds.Unclosed 0 1 ∷ token kinds.NoEffect 1 2 ∷ [] }
    ensures in_a_chord { tokens_of (codes "[C!f!]") ≡ chord_token (c_part 1 2 ∷ part parts.NoEffect 2 5 ∷ []) 0 6 ∷ [] }
{}

/// A directive line is one token, with its comment and without its carriage return. Its number is the one written. Not in ABC 2.1.
pub fn tokens_of_directives()
    ensures program { tokens_of (codes "%%MIDI program 128 % a\r") ≡ token (kinds.Directive (directives.Program 128)) 0 22 ∷ [] }
    ensures reach { tokens_of (codes "%%propagate-accidentals octave") ≡ token (kinds.Directive (directives.Reach Octave)) 0 30
        ∷ [] }
    ensures none { tokens_of (codes "%%MIDI program 2 41") ≡ [] }
{}

/// A field line is one token, without its comment; a blank line and a comment have none. Not in ABC 2.1.
pub fn lines_without_music()
    ensures field { tokens_of (codes "T:a % b") ≡ token (kinds.Field (record { letter = 84; value = codes "a" })) 0 4 ∷ [] }
    ensures blank { tokens_of (codes " \r") ≡ [] }
    ensures comment { tokens_of (codes " % C") ≡ [] }
{}
