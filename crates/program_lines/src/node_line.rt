ghost use Rattle.std.specs.Prelude.{◌≡◌};
ghost use Rattle.cbi_base.specs.Numbers.{one_number};
ghost use Rattle.program_lines.specs.Words.{kind_of, want_of, binary_of, order_of, unary_of};
ghost use Rattle.program_lines.specs.NodeLines.{node_of, valued_node, paired_node, worded_node, plain_node, bare_node, threefold_node, control_node};
ghost use Rattle.program_lines.specs.NodeLines.{outer_node, zero_of, node_with_word, node_with_three_numbers};
ghost use Rattle.flow.specs.declared.node.Node.TheVariants.{Load, Math, Order, Sole, Convert, Format, Spell, Choose};

use crate::operations::{binary, order, unary};
use crate::words::want;
use cbi_base::{Fields, one_number, read_number, two_numbers};
use flow::Node;
use value_lines::{read_kind, read_move, read_push};

fn zero(fields: &mut Fields<'_>) -> Option<Node>
    ensures { result ≡ zero_of fields.old }
{
    let first = fields.next()?;
    let second = fields.next()?;
    let index = read_number(first)?;
    let want = want(second)?;
    let next = one_number(fields)?;
    Some(Node::Zero { index, want, next })
}

fn load(fields: &mut Fields<'_>) -> Option<Node>
    ensures { result ≡ node_with_word want_of Load fields.old }
{
    let want = want(fields.next()?)?;
    let next = one_number(fields)?;
    Some(Node::Load { want, next })
}

fn math(fields: &mut Fields<'_>) -> Option<Node>
    ensures { result ≡ node_with_word binary_of Math fields.old }
{
    let op = binary(fields.next()?)?;
    let next = one_number(fields)?;
    Some(Node::Math { op, next })
}

fn ordering(fields: &mut Fields<'_>) -> Option<Node>
    ensures { result ≡ node_with_word order_of Order fields.old }
{
    let op = order(fields.next()?)?;
    let next = one_number(fields)?;
    Some(Node::Order { op, next })
}

fn sole(fields: &mut Fields<'_>) -> Option<Node>
    ensures { result ≡ node_with_word unary_of Sole fields.old }
{
    let op = unary(fields.next()?)?;
    let next = one_number(fields)?;
    Some(Node::Sole { op, next })
}

fn conversion(fields: &mut Fields<'_>) -> Option<Node>
    ensures { result ≡ node_with_word kind_of Convert fields.old }
{
    let kind = read_kind(fields.next()?)?;
    let next = one_number(fields)?;
    Some(Node::Convert { kind, next })
}

fn format(fields: &mut Fields<'_>) -> Option<Node>
    ensures { result ≡ node_with_three_numbers Format fields.old }
{
    let text = read_number(fields.next()?)?;
    let (count, next) = two_numbers(fields)?;
    Some(Node::Format { text, count, next })
}

fn spell(fields: &mut Fields<'_>) -> Option<Node>
    ensures { result ≡ node_with_three_numbers Spell fields.old }
{
    let index = read_number(fields.next()?)?;
    let (text, next) = two_numbers(fields)?;
    Some(Node::Spell { index, text, next })
}

fn choose(fields: &mut Fields<'_>) -> Option<Node>
    ensures { result ≡ node_with_three_numbers Choose fields.old }
{
    let weight = read_number(fields.next()?)?;
    let (fast, slow) = two_numbers(fields)?;
    Some(Node::Choose { weight, fast, slow })
}

// The kinds of input, output, memory and the countdown, whose line has a successor alone.
fn outer_node(word: &[u8], fields: &mut Fields<'_>) -> Option<Node>
    ensures { result ≡ outer_node word.now fields.old }
{
    if word == b"get".as_slice() {
        let next = one_number(fields)?;
        return Some(Node::Get { next });
    }
    if word == b"put".as_slice() {
        let next = one_number(fields)?;
        return Some(Node::Put { next });
    }
    if word == b"puts".as_slice() {
        let next = one_number(fields)?;
        return Some(Node::Puts { next });
    }
    if word == b"alloc".as_slice() {
        let next = one_number(fields)?;
        return Some(Node::Alloc { next });
    }
    if word == b"free".as_slice() {
        let next = one_number(fields)?;
        return Some(Node::Free { next });
    }
    if word == b"check".as_slice() {
        let next = one_number(fields)?;
        return Some(Node::Check { next });
    }
    if word == b"import".as_slice() {
        let next = one_number(fields)?;
        return Some(Node::Import { next });
    }
    if word == b"export".as_slice() {
        let next = one_number(fields)?;
        return Some(Node::Export { next });
    }
    None
}

// The kinds of calls and sites, whose line has two numbers.
fn control_node(word: &[u8], fields: &mut Fields<'_>) -> Option<Node>
    ensures { result ≡ control_node word.now fields.old }
{
    if word == b"call".as_slice() {
        let (function, next) = two_numbers(fields)?;
        return Some(Node::Call { function, next });
    }
    if word == b"clear".as_slice() {
        let (index, next) = two_numbers(fields)?;
        return Some(Node::Clear { index, next });
    }
    if word == b"mark".as_slice() {
        let (site, next) = two_numbers(fields)?;
        return Some(Node::Mark { site, next });
    }
    if word == b"skip".as_slice() {
        let (by, next) = two_numbers(fields)?;
        return Some(Node::Skip { by, next });
    }
    if word == b"test".as_slice() {
        let (site, next) = two_numbers(fields)?;
        return Some(Node::Test { site, next });
    }
    outer_node(word, fields)
}

// The kinds whose line has three numbers.
fn threefold_node(word: &[u8], fields: &mut Fields<'_>) -> Option<Node>
    ensures { result ≡ threefold_node word.now fields.old }
{
    if word == b"format".as_slice() {
        return format(fields);
    }
    if word == b"spell".as_slice() {
        return spell(fields);
    }
    if word == b"choose".as_slice() {
        return choose(fields);
    }
    control_node(word, fields)
}

// The kinds whose line is their word.
fn bare_node(word: &[u8], fields: &mut Fields<'_>) -> Option<Node>
    ensures { result ≡ bare_node word.now fields.old }
{
    if word == b"return".as_slice() {
        return if fields.is_empty() {
            Some(Node::Return)
        } else {
            None
        };
    }
    if word == b"leave".as_slice() {
        return if fields.is_empty() {
            Some(Node::Leave)
        } else {
            None
        };
    }
    if word == b"exit".as_slice() {
        return if fields.is_empty() {
            Some(Node::Exit)
        } else {
            None
        };
    }
    if word == b"abort".as_slice() {
        return if fields.is_empty() {
            Some(Node::Abort)
        } else {
            None
        };
    }
    threefold_node(word, fields)
}

// The kinds of operands and control, whose line has a successor alone.
fn plain_node(word: &[u8], fields: &mut Fields<'_>) -> Option<Node>
    ensures { result ≡ plain_node word.now fields.old }
{
    if word == b"null".as_slice() {
        let next = one_number(fields)?;
        return Some(Node::Null { next });
    }
    if word == b"store".as_slice() {
        let next = one_number(fields)?;
        return Some(Node::Store { next });
    }
    if word == b"dup".as_slice() {
        let next = one_number(fields)?;
        return Some(Node::Dup { next });
    }
    if word == b"drop".as_slice() {
        let next = one_number(fields)?;
        return Some(Node::Drop { next });
    }
    if word == b"swap".as_slice() {
        let next = one_number(fields)?;
        return Some(Node::Swap { next });
    }
    if word == b"over".as_slice() {
        let next = one_number(fields)?;
        return Some(Node::Over { next });
    }
    if word == b"pass".as_slice() {
        let next = one_number(fields)?;
        return Some(Node::Pass { next });
    }
    if word == b"again".as_slice() {
        let next = one_number(fields)?;
        return Some(Node::Again { next });
    }
    bare_node(word, fields)
}

// The kinds whose line has a word.
fn worded_node(word: &[u8], fields: &mut Fields<'_>) -> Option<Node>
    ensures { result ≡ worded_node word.now fields.old }
{
    if word == b"load".as_slice() {
        return load(fields);
    }
    if word == b"math".as_slice() {
        return math(fields);
    }
    if word == b"order".as_slice() {
        return ordering(fields);
    }
    if word == b"sole".as_slice() {
        return sole(fields);
    }
    if word == b"convert".as_slice() {
        return conversion(fields);
    }
    plain_node(word, fields)
}

// The kinds of places and forks, whose line has two numbers.
fn paired_node(word: &[u8], fields: &mut Fields<'_>) -> Option<Node>
    ensures { result ≡ paired_node word.now fields.old }
{
    if word == b"local".as_slice() {
        let (index, next) = two_numbers(fields)?;
        return Some(Node::Local { index, next });
    }
    if word == b"global".as_slice() {
        let (index, next) = two_numbers(fields)?;
        return Some(Node::Global { index, next });
    }
    if word == b"text".as_slice() {
        let (index, next) = two_numbers(fields)?;
        return Some(Node::Text { index, next });
    }
    if word == b"member".as_slice() {
        let (offset, next) = two_numbers(fields)?;
        return Some(Node::Member { offset, next });
    }
    if word == b"span".as_slice() {
        let (size, next) = two_numbers(fields)?;
        return Some(Node::Span { size, next });
    }
    if word == b"fork".as_slice() {
        let (yes, no) = two_numbers(fields)?;
        return Some(Node::Fork { yes, no });
    }
    worded_node(word, fields)
}

// The kinds whose line has a value.
fn valued_node(word: &[u8], fields: &mut Fields<'_>) -> Option<Node>
    ensures { result ≡ valued_node word.now fields.old }
{
    if word == b"push".as_slice() {
        return read_push(fields);
    }
    if word == b"move".as_slice() {
        return read_move(fields);
    }
    if word == b"zero".as_slice() {
        return zero(fields);
    }
    paired_node(word, fields)
}

/// The node whose line has these fields.
#[tactic(auto, unfolding(crate::specs::NodeLines::node_of))]
pub fn read_node(fields: &mut Fields<'_>) -> Option<Node>
    ensures { result ≡ node_of fields.old }
{
    let word = fields.next()?;
    valued_node(word, fields)
}
