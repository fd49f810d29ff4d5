//! The commands of an input and their answers, as docs/protocol.md has them. Not in ABC 2.1.
#![tactic(auto)]

ghost use Rattle.std.specs.Prelude.{◌≡◌, true, false, None, Some, [], ◌∷◌, codes};
ghost use Rattle.std.specs.Option.{option_map};
ghost use Rattle.abc_lines.specs.Edits.{deletion, insertion, replacement};
ghost use Rattle.abc_lines.specs.declared.edit_error.EditError.TheVariants.{BadLine, BadRange, TooLarge};
ghost use Rattle.abc2midi_live.specs.Answer.{end_line, failed_line, hex_line, refusal, report_line, stored_line, truncated_line};
ghost use Rattle.abc2midi_live.specs.Answer.{unknown_line};
ghost use Rattle.abc2midi_live.specs.Command.{command_of};
ghost use Rattle.abc2midi_live.specs.Transcript.{input_lines, requests, transcript};
ghost use Rattle.abc2midi_live.specs.Transcript.{Edits, CutOff, Ends};
ghost use Rattle.abc2midi_live.specs.declared.Command.TheVariants as commands;

/// The commands. Leading zeros are allowed, and one carriage return at the end of a line is dropped.
#[tactic(auto, unfolding(crate::specs::Opened::commands))]
pub fn commands_of_lines()
    ensures insert { command_of (codes "insert 1 4") ≡ commands.Insert 1 4 }
    ensures replace { command_of (codes "replace 2 3 0") ≡ commands.Replace 2 3 0 }
    ensures delete { command_of (codes "delete 2 3") ≡ commands.Delete 2 3 }
    ensures faults { command_of (codes "faults") ≡ commands.Faults }
    ensures titles { command_of (codes "titles") ≡ commands.Titles }
    ensures hex { command_of (codes "hex 000000007") ≡ commands.Hex 7 }
    ensures build { command_of (codes "build") ≡ commands.Build }
    ensures quit { command_of (codes "quit\r") ≡ commands.Quit }
    ensures most_lines { command_of (codes "insert 1 1048576") ≡ commands.Insert 1 1048576 }
    ensures most_new_lines { command_of (codes "replace 1 2 1048576") ≡ commands.Replace 1 2 1048576 }
{}

/// Lines that are no command.
#[tactic(auto, unfolding(crate::specs::Opened::commands))]
pub fn lines_without_command()
    ensures empty { command_of [] ≡ commands.Unknown }
    ensures name { command_of (codes "jump 1") ≡ commands.Unknown }
    ensures capital { command_of (codes "Quit") ≡ commands.Unknown }
    ensures spaced { command_of (codes "delete  2 3") ≡ commands.Unknown }
    ensures ended_by_a_space { command_of (codes "quit ") ≡ commands.Unknown }
    ensures returned_twice { command_of (codes "quit\r\r") ≡ commands.Unknown }
    ensures few { command_of (codes "insert 1") ≡ commands.Unknown }
    ensures many { command_of (codes "delete 1 2 3") ≡ commands.Unknown }
    ensures ten_digits { command_of (codes "hex 0000000007") ≡ commands.Unknown }
    ensures sign { command_of (codes "hex +7") ≡ commands.Unknown }
    ensures too_many_lines { command_of (codes "insert 1 1048577") ≡ commands.Unknown }
    ensures too_many_new_lines { command_of (codes "replace 1 2 1048577") ≡ commands.Unknown }
{}

/// The answers of one line.
#[tactic(auto, unfolding(crate::specs::Opened::answers_in_a_line))]
pub fn answers_in_a_line()
    ensures edited { report_line (1 ∷ 12 ∷ []) (7 ∷ []) ≡ codes "ok written 1 12 removed 7\n" }
    ensures unchanged { report_line [] [] ≡ codes "ok written removed\n" }
    ensures bad_range { refusal BadRange ≡ codes "error BadRange\n" }
    ensures bad_line { refusal BadLine ≡ codes "error BadLine\n" }
    ensures too_large { refusal TooLarge ≡ codes "error TooLarge\n" }
    ensures hex { hex_line (Some (77 ∷ 84 ∷ 0 ∷ 255 ∷ [])) ≡ codes "4D5400FF\n" }
    ensures no_file { hex_line None ≡ codes "none\n" }
    ensures written { stored_line 5 (Some []) ≡ codes "written 5.mid\n" }
    ensures removed { stored_line 10 None ≡ codes "removed 10.mid\n" }
    ensures failed { failed_line 0 ≡ codes "failed 0.mid\n" }
    ensures end { end_line ≡ codes "end\n" }
    ensures unknown { unknown_line ≡ codes "error command\n" }
    ensures truncated { truncated_line ≡ codes "error truncated\n" }
{}

/// A command takes the lines after it, whatever they are. The last line counts once the input has ended, if it is not empty.
#[tactic(auto, unfolding(crate::specs::Opened::inputs, crate::specs::Opened::commands))]
pub fn lines_of_commands()
    ensures lines { input_lines true (codes "a\n\nb") ≡ codes "a" ∷ [] ∷ codes "b" ∷ [] }
    ensures ended { input_lines true (codes "a\n") ≡ codes "a" ∷ [] }
    ensures more { input_lines false (codes "a\nb") ≡ codes "a" ∷ [] }
    ensures inserted { requests 0 (codes "insert 1 2" ∷ codes "quit" ∷ codes "hex 1" ∷ codes "quit" ∷ [])
        ≡ Edits (insertion 1 (codes "quit" ∷ codes "hex 1" ∷ [])) ∷ Ends ∷ [] }
    ensures replaced { requests 0 (codes "replace 3 4 1" ∷ codes "a" ∷ codes "delete 1 2" ∷ [])
        ≡ Edits (replacement 3 4 (codes "a" ∷ [])) ∷ Edits (deletion 1 2) ∷ [] }
    ensures cut_off { requests 0 (codes "insert 1 2" ∷ codes "a" ∷ []) ≡ CutOff ∷ [] }
{}

/// What is written for inputs that leave the text empty: nothing after `quit`, and after lines that are cut off.
#[tactic(auto, unfolding(crate::specs::Opened::inputs, crate::specs::Opened::commands, crate::specs::Opened::edits, crate::specs::Opened::answers_in_a_line))]
pub fn answers_to_inputs()
    ensures nothing { option_map (λ out. out.text) (transcript None [] []) ≡ Some [] }
    ensures unknown { option_map (λ out. out.text) (transcript None (codes "jump\nquit\njump\n") [])
        ≡ Some (codes "error command\n") }
    ensures refused { option_map (λ out. out.text) (transcript None (codes "insert 2 1\nquit\ndelete 1 1") [])
        ≡ Some (codes "error BadRange\nerror BadRange\n") }
    ensures truncated { option_map (λ out. out.text) (transcript None (codes "jump\ninsert 1 2\njump\n") [])
        ≡ Some (codes "error command\nerror truncated\n") }
{}
