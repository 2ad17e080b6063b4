ghost use Rattle.std.specs.Prelude.{◌≡◌, ◌≤◌, ◌++◌, ℕ, List, [], ◌∷◌, length, All};
ghost use Rattle.countdown_bank.specs.Bank.{BankState};
ghost use Rattle.flow.specs.declared.program.ProgramParts.{ProgramParts};
ghost use Rattle.flow.specs.State.{Ending};
ghost use Rattle.study_runs.specs.declared.plan.StudyPlan.{StudyPlan};
ghost use Rattle.study_runs.specs.MadeRun.{IsMadeRun, IsPrintable, line_from};
ghost use Rattle.study_runs.specs.Runs.{AreRunsFrom};

use flow::one_ending;

/// A law: a seed, a rate and a number make one run.
pub fn one_made_run()
    ensures bank { (seed rate number : ℕ) (a b : BankState) (x y : List ℕ) → IsMadeRun seed rate number a x → IsMadeRun seed rate number b y → a ≡ b }
    ensures input { (seed rate number : ℕ) (a b : BankState) (x y : List ℕ) → IsMadeRun seed rate number a x → IsMadeRun seed rate number b y → x ≡ y }
{}

/// A law: the input of a made run is one line of at most 63 printable bytes.
pub fn made_lines_are_printable()
    ensures { (words : ℕ → ℕ) → (bytes : List ℕ) × (line_from words ≡ bytes ++ 10 ∷ []) × (length bytes ≤ 63) × All IsPrintable bytes }
{}

/// A law: a program, a plan and a number make one list of so many runs.
pub fn one_study()
    ensures { (p : ProgramParts) (plan : StudyPlan) (number : ℕ) (a b : List Ending) → AreRunsFrom p plan number a → AreRunsFrom p plan number b
        → length a ≡ length b → a ≡ b }
{
    one_ending();
    one_made_run();
}
