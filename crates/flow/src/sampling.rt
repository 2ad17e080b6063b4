ghost use Rattle.std.specs.Prelude.{◌≡◌, ◌↔◌, ◌+◌, ◌%◌, ◌<◌, ◌≤◌, ℕ, List, [], ◌∷◌, ◌++◌, if◌then◌else◌, length, IsTrue};
ghost use Rattle.cbi_base.specs.declared.observation.Observation.{Observation};
ghost use Rattle.flow.specs.Sampling.{IsSampled, IsPositive, is_sampled, samples};

/// Laws of the sampled numbers of a bank: the first one is its first number, and two neighbours differ by one of its numbers.
pub fn sampled_numbers()
    ensures first { (bank : ℕ → ℕ) → IsSampled bank (bank 0) }
    ensures least { (bank : ℕ → ℕ) (number : ℕ) → IsSampled bank number → bank 0 ≤ number }
    ensures neighbours { (bank : ℕ → ℕ) (one next : ℕ) → IsPositive bank → IsSampled bank one → IsSampled bank next → one < next
        → ((between : ℕ) → one < between → between < next → IsSampled bank between → ⊥) → (draws : ℕ) × (next ≡ one + bank draws) }
    ensures test { (bank : ℕ → ℕ) (number : ℕ) → IsPositive bank → IsTrue (is_sampled bank number) ↔ IsSampled bank number }
{}

/// Laws of the sampled visits: one more visit is sampled where its number is; a bank of ones samples each visit; and one of equal
/// numbers `n` each n-th.
pub fn sampled_visits()
    ensures more { (bank : ℕ → ℕ) (visits : List Observation) (visit : Observation)
        → samples bank (visits ++ visit ∷ []) ≡ samples bank visits ++ (if is_sampled bank (length visits + 1) then visit ∷ [] else []) }
    ensures ones { (bank : ℕ → ℕ) (visits : List Observation) → ((draws : ℕ) → bank draws ≡ 1) → samples bank visits ≡ visits }
    ensures every { (bank : ℕ → ℕ) (n number : ℕ) → 1 ≤ n → ((draws : ℕ) → bank draws ≡ n) → IsSampled bank number ↔ ((1 ≤ number) × (number % n ≡ 0)) }
{}
