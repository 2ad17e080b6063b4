ghost use Rattle.std.specs.Prelude.{◌≡◌, ◌↔◌, IsTrue, List, Ok};
ghost use Rattle.cbi_base.specs.declared.operators.Binary.{Binary};
ghost use Rattle.cbi_base.specs.declared.scalar.Kind.{Kind};
ghost use Rattle.c_types_rules.specs.declared.layout.StructType.{StructType};
ghost use Rattle.c_types_rules.specs.Conversions.{of_kind, value_of};
ghost use Rattle.c_types_rules.specs.Laws.{result_kind};
ghost use Rattle.c_types_rules.specs.Operators.{typed_binary_operation};
ghost use Rattle.c_types_rules.specs.TypeTree.{TypeTree, same_type};

/// Two types are the same exactly where their trees are equal.
pub fn same_type_is_equality()
    ensures { (a b : TypeTree) → IsTrue (same_type a b) ↔ (a ≡ b) }
{}

/// An operator on two numbers has the type of the number that it calculates: that of the kind to which the operands are
/// converted, and `int` for a comparison.
pub fn numbers_keep_their_kind()
    ensures { (structs : List StructType) (o : Binary) (k l : Kind)
        → typed_binary_operation structs o (value_of (of_kind k)) (value_of (of_kind l)) ≡ Ok (value_of (of_kind (result_kind o k l))) }
{}
