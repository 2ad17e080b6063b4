ghost use Rattle.std.specs.Prelude.{◌≡◌, ℕ};
ghost use Rattle.cbi_base.specs.Objects.{Objects, GivesNull, object_allocated, new_undefined};
ghost use Rattle.cbi_base.specs.declared.scalar.Scalar.TheVariants as scalar;

/// `malloc` gives null, and makes nothing, exactly where no cells are asked for, the live cells would pass their limit, or the greatest number
/// of objects was made. Else it gives the first cell of a new object of so many undefined cells (C99 7.20.3.3).
pub fn allocation_laws()
    ensures null { (cells : ℕ) (o : Objects) → GivesNull cells o
        → ((object_allocated cells o).0 ≡ scalar.Null) × ((object_allocated cells o).1 ≡ o) }
    ensures new { (cells : ℕ) (o : Objects) → ¬ (GivesNull cells o)
        → ((object_allocated cells o).0 ≡ scalar.Place o.made 0) × ((object_allocated cells o).1 ≡ new_undefined cells o) }
{}
