ghost use Rattle.std.specs.Prelude.{◌≡◌};
ghost use Rattle.value_lines.specs.ValueLines.{push_of, int_of, node_with_word};
ghost use Rattle.flow.specs.declared.node.Node.TheVariants.{Move};

use crate::words::{int, read_kind};
use cbi_base::{Fields, one_number, read_signed};
use flow::Node;

/// The node whose line has these fields after `push`.
pub fn read_push(fields: &mut Fields<'_>) -> Option<Node>
    ensures { result ≡ push_of fields.old }
{
    let first = fields.next()?;
    let second = fields.next()?;
    let kind = read_kind(first)?;
    let value = read_signed(second)?;
    let next = one_number(fields)?;
    Some(Node::Push { kind, value, next })
}

/// The node whose line has these fields after `move`.
pub fn read_move(fields: &mut Fields<'_>) -> Option<Node>
    ensures { result ≡ node_with_word int_of Move fields.old }
{
    let size = int(fields.next()?)?;
    let next = one_number(fields)?;
    Some(Node::Move { size, next })
}
