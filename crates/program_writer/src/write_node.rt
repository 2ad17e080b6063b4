ghost use Rattle.std.specs.Prelude.{◌≡◌, ◌++◌, ◌∷◌, codes, decimal, map, OnOk};
ghost use Rattle.std.specs.Fmt.{signed_decimal};
ghost use Rattle.cbi_base.specs.Text.{line_with_newline, line_of_fields};
ghost use Rattle.flow.specs.Spelling.{kind_word, node_fields, want_word};
ghost use Rattle.program_writer.specs.Written.{rows_text};

use crate::write_words::{
    binary_word, kind_word, order_word, push_field, push_number, push_signed, unary_word, want_word,
};
use cbi_base::{Kind, Memory, Want};
use flow::Node;

// `WORD`.
fn push_word(out: &mut Vec<u8>, word: &[u8]) -> Result<(), Memory>
    ensures { OnOk result (out.new.items ≡ out.old.items ++ word.now) }
{
    out.extend_from_slice(word)?;
    Ok(())
}

// `WORD NEXT`.
fn push_plain(out: &mut Vec<u8>, word: &[u8], next: u32) -> Result<(), Memory>
    ensures { OnOk result (out.new.items ≡ out.old.items ++ (word.now ++ 32 ∷ decimal next)) }
{
    out.extend_from_slice(word)?;
    push_number(out, u64::from(next))
}

// `WORD FIRST NEXT`.
fn push_paired(out: &mut Vec<u8>, word: &[u8], first: u32, next: u32) -> Result<(), Memory>
    ensures { OnOk result (out.new.items ≡ out.old.items ++ (word.now ++ 32 ∷ (decimal first ++ 32 ∷ decimal next))) }
{
    push_plain(out, word, first)?;
    push_number(out, u64::from(next))
}

// `WORD FIRST SECOND NEXT`.
fn push_threefold(
    out: &mut Vec<u8>,
    word: &[u8],
    first: u32,
    second: u32,
    next: u32,
) -> Result<(), Memory>
    ensures { OnOk result (out.new.items ≡ out.old.items ++ (word.now ++ 32 ∷ (decimal first ++ 32 ∷ (decimal second ++ 32 ∷ decimal next)))) }
{
    push_paired(out, word, first, second)?;
    push_number(out, u64::from(next))
}

// `WORD FIELD NEXT`.
fn push_worded(out: &mut Vec<u8>, word: &[u8], field: &[u8], next: u32) -> Result<(), Memory>
    ensures { OnOk result (out.new.items ≡ out.old.items ++ (word.now ++ 32 ∷ (field.now ++ 32 ∷ decimal next))) }
{
    out.extend_from_slice(word)?;
    push_field(out, field)?;
    push_number(out, u64::from(next))
}

fn push_push(out: &mut Vec<u8>, kind: Kind, value: i64, next: u32) -> Result<(), Memory>
    ensures { OnOk result (out.new.items ≡ out.old.items ++ (codes "push" ++ 32 ∷ (kind_word kind
        ++ 32 ∷ (signed_decimal value ++ 32 ∷ decimal next)))) }
{
    out.extend_from_slice(b"push ")?;
    out.extend_from_slice(kind_word(kind))?;
    out.push(b' ')?;
    push_signed(out, value)?;
    push_number(out, u64::from(next))
}

fn push_move(out: &mut Vec<u8>, size: i32, next: u32) -> Result<(), Memory>
    ensures { OnOk result (out.new.items ≡ out.old.items ++ (codes "move" ++ 32 ∷ (signed_decimal size ++ 32 ∷ decimal next))) }
{
    out.extend_from_slice(b"move ")?;
    push_signed(out, i64::from(size))?;
    push_number(out, u64::from(next))
}

fn push_zero(out: &mut Vec<u8>, index: u32, want: Want, next: u32) -> Result<(), Memory>
    ensures { OnOk result (out.new.items ≡ out.old.items ++ (codes "zero" ++ 32 ∷ (decimal index ++ 32 ∷ (want_word want ++ 32 ∷ decimal next)))) }
{
    push_plain(out, b"zero", index)?;
    push_field(out, want_word(want))?;
    push_number(out, u64::from(next))
}

// Appends what the line of a node says.
fn push_fields(out: &mut Vec<u8>, node: Node) -> Result<(), Memory>
    ensures { OnOk result (out.new.items ≡ out.old.items ++ line_of_fields (node_fields node)) }
{
    match node {
        Node::Push { kind, value, next } => push_push(out, kind, value, next),
        Node::Null { next } => push_plain(out, b"null", next),
        Node::Local { index, next } => push_paired(out, b"local", index, next),
        Node::Global { index, next } => push_paired(out, b"global", index, next),
        Node::Text { index, next } => push_paired(out, b"text", index, next),
        Node::Load { want, next } => push_worded(out, b"load", want_word(want), next),
        Node::Store { next } => push_plain(out, b"store", next),
        Node::Move { size, next } => push_move(out, size, next),
        Node::Member { offset, next } => push_paired(out, b"member", offset, next),
        Node::Span { size, next } => push_paired(out, b"span", size, next),
        Node::Math { op, next } => push_worded(out, b"math", binary_word(op), next),
        Node::Order { op, next } => push_worded(out, b"order", order_word(op), next),
        Node::Sole { op, next } => push_worded(out, b"sole", unary_word(op), next),
        Node::Convert { kind, next } => push_worded(out, b"convert", kind_word(kind), next),
        Node::Dup { next } => push_plain(out, b"dup", next),
        Node::Drop { next } => push_plain(out, b"drop", next),
        Node::Swap { next } => push_plain(out, b"swap", next),
        Node::Over { next } => push_plain(out, b"over", next),
        Node::Pass { next } => push_plain(out, b"pass", next),
        Node::Fork { yes, no } => push_paired(out, b"fork", yes, no),
        Node::Again { next } => push_plain(out, b"again", next),
        Node::Call { function, next } => push_paired(out, b"call", function, next),
        Node::Return => push_word(out, b"return"),
        Node::Leave => push_word(out, b"leave"),
        Node::Get { next } => push_plain(out, b"get", next),
        Node::Put { next } => push_plain(out, b"put", next),
        Node::Puts { next } => push_plain(out, b"puts", next),
        Node::Format { text, count, next } => push_threefold(out, b"format", text, count, next),
        Node::Alloc { next } => push_plain(out, b"alloc", next),
        Node::Free { next } => push_plain(out, b"free", next),
        Node::Exit => push_word(out, b"exit"),
        Node::Abort => push_word(out, b"abort"),
        Node::Check { next } => push_plain(out, b"check", next),
        Node::Clear { index, next } => push_paired(out, b"clear", index, next),
        Node::Zero { index, want, next } => push_zero(out, index, want, next),
        Node::Spell { index, text, next } => push_threefold(out, b"spell", index, text, next),
        Node::Mark { site, next } => push_paired(out, b"mark", site, next),
        Node::Skip { by, next } => push_paired(out, b"skip", by, next),
        Node::Test { site, next } => push_paired(out, b"test", site, next),
        Node::Choose { weight, fast, slow } => push_threefold(out, b"choose", weight, fast, slow),
        Node::Import { next } => push_plain(out, b"import", next),
        Node::Export { next } => push_plain(out, b"export", next),
    }
}

// Appends the line of a node.
fn push_node(out: &mut Vec<u8>, node: Node) -> Result<(), Memory>
    ensures { OnOk result (out.new.items ≡ out.old.items ++ line_with_newline (line_of_fields (node_fields node))) }
{
    push_fields(out, node)?;
    out.push(b'\n')?;
    Ok(())
}

/// Appends the lines of nodes.
pub fn push_nodes(out: &mut Vec<u8>, nodes: &[Node]) -> Result<(), Memory>
    ensures { OnOk result (out.new.items ≡ out.old.items ++ rows_text (map node_fields nodes.now)) }
{
    let mut rest = nodes;
    while let [node, after @ ..] = rest {
        push_node(out, *node)?;
        rest = after;
    }
    Ok(())
}
