//! Laws of what is written. Each function does nothing: its contract is the law.
ghost use Rattle.std.specs.Prelude.{◌≡◌, ◌≤◌, ◌∷◌, ◌++◌, [], ℕ, List, Some};
ghost use Rattle.sessions.specs.Switches.{kind_of, switch_to};
ghost use Rattle.proof_server.specs.Bundles.{switch_line};
ghost use Rattle.proof_server.specs.declared.counts.Counts.{Counts as CountsMeaning};
ghost use Rattle.proof_server.specs.Generating.{AreCounts};

use session_laws::laws::replies;

/// The replies to generated jobs, where none lacks memory, have one list of counts.
pub fn generated_counts()
    ensures { (n : ℕ) (a b : CountsMeaning) → AreCounts n a → AreCounts n b → a ≡ b }
{
    replies();
}

/// The line that the replies of a session stand behind is, without its newline, the switch to that session in a bundle.
pub fn switch_lines()
    ensures { (session : ℕ) → session ≤ 15 → (line : List ℕ) × (switch_line session ≡ line ++ 10 ∷ []) × (kind_of line ≡ switch_to (Some session)) }
{}
