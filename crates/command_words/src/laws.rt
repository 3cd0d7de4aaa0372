//! What the words ask for. Each function does nothing: its contract is the law.
ghost use Rattle.std.specs.Prelude.{◌≡◌, ◌∷◌, ℕ, List, [], Some, None, false, codes};
ghost use Rattle.std.specs.List.{All};
ghost use Rattle.std.specs.Str.{IsUtf8};
ghost use Rattle.command_words.specs.Taken.{AskFor};
ghost use Rattle.command_words.specs.Words.{settings_of};

use crate::reading::Settings;

/// What clap makes of the words, said without clap: the words that are taken are those that ask for settings, and they ask for one.
pub fn taken_words()
    ensures asked { (words : List (List ℕ)) (settings : Settings) → All IsUtf8 words → settings_of words ≡ Some settings → AskFor words settings }
    ensures taken { (words : List (List ℕ)) (settings : Settings) → AskFor words settings → settings_of words ≡ Some settings }
    ensures one { (words : List (List ℕ)) (settings others : Settings) → AskFor words settings → AskFor words others → settings ≡ others }
{}

/// No words ask for four workers.
pub fn no_words()
    ensures { settings_of [] ≡ Some (record { workers = 4; generate = None; sessions = false }) }
{}

/// Words that the command doesn't take.
pub fn refused_words()
    ensures help { settings_of (codes "--help" ∷ []) ≡ None }
    ensures short_help { settings_of (codes "-h" ∷ []) ≡ None }
    ensures version { settings_of (codes "--version" ∷ []) ≡ None }
    ensures unknown { settings_of (codes "--session" ∷ []) ≡ None }
    ensures positional { settings_of (codes "x" ∷ []) ≡ None }
    ensures empty { settings_of ([] ∷ []) ≡ None }
    ensures abbreviated { settings_of (codes "--work" ∷ codes "4" ∷ []) ≡ None }
    ensures no_value { settings_of (codes "--workers" ∷ []) ≡ None }
    ensures option_for_value { settings_of (codes "--workers" ∷ codes "--gen" ∷ codes "1" ∷ []) ≡ None }
    ensures twice { settings_of (codes "--workers" ∷ codes "1" ∷ codes "--workers=2" ∷ []) ≡ None }
    ensures gen_with_sessions { settings_of (codes "--gen" ∷ codes "1" ∷ codes "--sessions" ∷ []) ≡ None }
    ensures sessions_twice { settings_of (codes "--sessions" ∷ codes "--sessions" ∷ []) ≡ None }
    ensures sessions_value { settings_of (codes "--sessions=x" ∷ []) ≡ None }
    ensures behind_dashes { settings_of (codes "--" ∷ codes "--gen" ∷ codes "1" ∷ []) ≡ None }
{}

/// Values that aren't numbers in the range.
pub fn refused_values()
    ensures zero { settings_of (codes "--workers" ∷ codes "0" ∷ []) ≡ None }
    ensures too_many { settings_of (codes "--workers" ∷ codes "17" ∷ []) ≡ None }
    ensures leading_zero { settings_of (codes "--workers" ∷ codes "04" ∷ []) ≡ None }
    ensures plus { settings_of (codes "--workers" ∷ codes "+4" ∷ []) ≡ None }
    ensures minus { settings_of (codes "--workers=-4" ∷ []) ≡ None }
    ensures no_digits { settings_of (codes "--workers=" ∷ []) ≡ None }
    ensures letters { settings_of (codes "--workers" ∷ codes "4a" ∷ []) ≡ None }
    ensures generate_zero { settings_of (codes "--gen" ∷ codes "0" ∷ []) ≡ None }
    ensures generate_too_many { settings_of (codes "--gen" ∷ codes "100001" ∷ []) ≡ None }
{}
