//! What the definition of objects means, in laws. Each function is empty: its contract is the law.

ghost use Rattle.std.specs.Prelude.{◌≡◌, ℕ, Ok, true};
ghost use Rattle.cbi_base.specs.declared.scalar.Scalar.{Scalar};
ghost use Rattle.cbi_base.specs.declared.scalar.Want.{Want};
ghost use Rattle.cbi_base.specs.Objects.{Objects, is_wanted, loaded_value, value_stored};
ghost use Rattle.c_store.specs.Word.{cell_of};

/// A load finds the value that was stored at the same place, and a store leaves every other cell as it is.
pub fn store_laws()
    ensures found { (number offset : ℕ) (value : Scalar) (before after : Objects) (want : Want)
        → value_stored (Scalar.Place number offset) value before ≡ Ok after → is_wanted want value ≡ true
        → loaded_value want (Scalar.Place number offset) after ≡ Ok value }
    ensures others { (number offset other at : ℕ) (value : Scalar) (before after : Objects)
        → value_stored (Scalar.Place number offset) value before ≡ Ok after → (other ≡ number → at ≡ offset → ⊥)
        → cell_of other at after ≡ cell_of other at before }
{}
