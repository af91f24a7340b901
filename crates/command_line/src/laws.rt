//! Laws of the command line. A caller's proof cites a law by calling it; the call does nothing at run time.

ghost use Rattle.std.specs.Prelude.{ℕ, [], ◌∷◌, None, Some, List, codes, ◌≡◌};
ghost use Rattle.clap.specs.Walk.{Text};
ghost use Rattle.lock_rules.specs.declared.calls.TheConstants.{MAX_SESSIONS};
ghost use Rattle.command_line.specs.declared.args.CommandRequest.{CommandRequest as RequestValue};
ghost use Rattle.command_line.specs.declared.args.TheConstants.{MAX_STREAMED_SESSIONS, MAX_TURNS};
ghost use Rattle.command_line.specs.declared.args.Delivery.TheVariants as Delivery;
ghost use Rattle.command_line.specs.declared.args.Form.TheVariants as Form;
ghost use Rattle.command_line.specs.CommandLine.{Ask, AskCheck, AskDump, AskExplain, AskHelp, AskNothing, AskReplay, AskReplayInPieces, AskRun, AskRunInPieces, AskShell, AskShow, AskStats, AskTimeline, AskVersion};
ghost use Rattle.command_line.specs.Streams.{SkipComments, WantHints, input_file, output_file};

/// A command line asks for at most one command with its numbers. A command line that asks for a command asks neither for
/// help nor for the version.
pub fn words_ask_for_one_thing()
    ensures one { (words : List Text) (r q : RequestValue) → Ask words r → Ask words q → r ≡ q }
    ensures sessions { (words : List Text) (m n : ℕ) → AskReplay words m → AskReplay words n → m ≡ n }
    ensures whole_or_pieces { (words : List Text) (m n : ℕ) → AskReplay words m → ¬ AskReplayInPieces words n }
    ensures run_whole_or_pieces { (words : List Text) (m n t u : ℕ) → AskRun words m t → ¬ AskRunInPieces words n u }
    ensures command_or_help { (words : List Text) (r : RequestValue) → Ask words r → ¬ AskHelp words }
    ensures command_or_version { (words : List Text) (r : RequestValue) → Ask words r → ¬ AskVersion words }
    ensures replay_or_help { (words : List Text) (n : ℕ) → AskReplay words n → ¬ AskHelp words }
{}

/// Eight command lines, of `replay`, `run`, `check`, `show`, `explain` and `timeline`, with what each asks for. If the number of sessions
/// is left out, it is 256; if the number of tries is, it is the greatest. Others, also refused ones, are tested on the program
/// (`checks/program-tables`).
pub fn words_ask_as_documented()
    ensures left_out { AskReplay (codes "glm" ∷ codes "replay" ∷ []) 256 }
    ensures apart { AskReplay (codes "glm" ∷ codes "replay" ∷ codes "--sessions" ∷ codes "7" ∷ []) 7 }
    ensures stream { AskReplayInPieces (codes "glm" ∷ codes "replay" ∷ codes "--stream" ∷ []) 256 }
    ensures run { AskRun (codes "glm" ∷ codes "run" ∷ []) 256 MAX_TURNS }
    ensures check { AskCheck (codes "glm" ∷ codes "check" ∷ []) 256 Delivery.Whole }
    ensures show { AskShow (codes "glm" ∷ codes "show" ∷ []) 256 None Form.Lines }
    ensures explain { AskExplain (codes "glm" ∷ codes "explain" ∷ []) 256 None Form.Lines }
    ensures timeline { AskTimeline (codes "glm" ∷ codes "timeline" ∷ []) 256 None None }
{}

/// Command lines with the files that they name: `-` is a standard stream, and so is a file that is left out. No command takes two
/// files to read, and `shell` takes none. Each other command has the flags `--comments` and `--hints`.
pub fn words_name_files()
    ensures none { (input_file (codes "glm" ∷ codes "replay" ∷ []) ≡ None) × (output_file (codes "glm" ∷ codes "replay" ∷ []) ≡ None) }
    ensures read { AskReplay (codes "glm" ∷ codes "replay" ∷ codes "a.csv" ∷ []) 256 × (input_file (codes "glm" ∷ codes "replay" ∷ codes "a.csv" ∷ []) ≡ Some (codes "a.csv")) }
    ensures dash { AskCheck (codes "glm" ∷ codes "check" ∷ codes "-" ∷ []) 256 Delivery.Whole × (input_file (codes "glm" ∷ codes "check" ∷ codes "-" ∷ []) ≡ None) }
    ensures between { input_file (codes "glm" ∷ codes "run" ∷ codes "--stream" ∷ codes "a.csv" ∷ codes "--turns=9" ∷ []) ≡ Some (codes "a.csv") }
    ensures write { AskCheck (codes "glm" ∷ codes "check" ∷ codes "-o" ∷ codes "b.txt" ∷ []) 256 Delivery.Whole × (output_file (codes "glm" ∷ codes "check" ∷ codes "-o" ∷ codes "b.txt" ∷ []) ≡ Some (codes "b.txt")) }
    ensures write_long { output_file (codes "glm" ∷ codes "show" ∷ codes "--output=b.txt" ∷ []) ≡ Some (codes "b.txt") }
    ensures write_dash { output_file (codes "glm" ∷ codes "explain" ∷ codes "-o" ∷ codes "-" ∷ []) ≡ None }
    ensures two { AskNothing (codes "glm" ∷ codes "replay" ∷ codes "a.csv" ∷ codes "b.csv" ∷ []) }
    ensures shell_file { AskNothing (codes "glm" ∷ codes "shell" ∷ codes "a.csv" ∷ []) }
    ensures no_target { AskNothing (codes "glm" ∷ codes "replay" ∷ codes "-o" ∷ []) }
    ensures comments { SkipComments (codes "glm" ∷ codes "replay" ∷ codes "--comments" ∷ []) }
    ensures no_comments { ¬ SkipComments (codes "glm" ∷ codes "replay" ∷ []) }
    ensures hints { WantHints (codes "glm" ∷ codes "check" ∷ codes "--hints" ∷ []) }
    ensures no_hints { ¬ WantHints (codes "glm" ∷ codes "check" ∷ []) }
{}
