ghost use Rattle.std.specs.Prelude.{◌≡◌};
ghost use Rattle.std.specs.Ordering.{int_cmp};
ghost use Rattle.c_values.specs.Relation.{relation_of};

/// How a number stands to another.
#[derive(Clone, Copy, Debug, PartialEq, Eq)]
pub enum Relation {
    Less,
    Equal,
    Greater,
}

/// How the left number stands to the right one.
pub fn relate(left: i64, right: i64) -> Relation
    ensures { result ≡ relation_of (int_cmp left right) }
{
    if left < right {
        return Relation::Less;
    }
    if left > right {
        return Relation::Greater;
    }
    Relation::Equal
}
