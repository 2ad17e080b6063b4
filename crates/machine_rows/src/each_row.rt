ghost use Rattle.std.specs.Prelude.{◌≡◌, OnOk, IfSome, IfNone, is_none};
ghost use Rattle.flow.specs.Words.{statics_of, NumbersFit, row_effect, view};
ghost use Rattle.machine_rows.specs.Data.{data_of};
ghost use Rattle.machine_rows.specs.Effects.{IsActed, is_control};

use crate::now::Now;
use crate::stop::Stop;
use crate::{rows, texts};
use flow::{Node, Program};

/// What a node does to the data, where control goes on at its one successor; None for a node that does more. Those are told from each other
/// behind this match, so that one jump leads to a row.
#[inline(always)]
#[tactic(auto, unfolding(flow::specs::Rows::row_effect))]
pub fn row(program: &Program, now: &mut Now<'_>, node: &Node) -> Option<Result<u32, Stop>>
    requires { NumbersFit (view node.now) }
    ensures effect { IfSome result (λ done. IsActed (statics_of program.now) (view node.now) (data_of now.old) done (data_of now.new)) }
    ensures kept { IfSome result (λ done. OnOk done (now.new.operands.below ≡ now.old.operands.below)) }
    ensures control { is_none result ≡ is_control (view node.now) }
    ensures same { IfNone result (now.new ≡ now.old) }
{
    match node {
        Node::Push { kind, value, next } => Some(rows::push(now, *kind, *value, *next)),
        Node::Null { next } => Some(rows::null(now, *next)),
        Node::Local { index, next } => Some(rows::local(now, *index, *next)),
        Node::Global { index, next } => Some(rows::global(now, *index, *next)),
        Node::Text { index, next } => Some(texts::text(program, now, *index, *next)),
        Node::Load { want, next } => Some(rows::load(now, *want, *next)),
        Node::Store { next } => Some(rows::store(now, *next)),
        Node::Move { size, next } => Some(rows::moves(now, *size, *next)),
        Node::Member { offset, next } => Some(rows::member(now, *offset, *next)),
        Node::Span { size, next } => Some(rows::span(now, *size, *next)),
        Node::Math { op, next } => Some(rows::math(now, *op, *next)),
        Node::Order { op, next } => Some(rows::order(now, *op, *next)),
        Node::Sole { op, next } => Some(rows::sole(now, *op, *next)),
        Node::Convert { kind, next } => Some(rows::converts(now, *kind, *next)),
        Node::Dup { next } => Some(rows::dup(now, *next)),
        Node::Drop { next } => Some(rows::drop_top(now, *next)),
        Node::Swap { next } => Some(rows::swap(now, *next)),
        Node::Over { next } => Some(rows::over(now, *next)),
        Node::Pass { next } => Some(Ok(*next)),
        Node::Get { next } => Some(rows::get(now, *next)),
        Node::Put { next } => Some(rows::put(now, *next)),
        Node::Puts { next } => Some(texts::puts(now, *next)),
        Node::Format { text, count, next } => Some(texts::format(
            program, now, *text, *count, *next,
        )),
        Node::Alloc { next } => Some(rows::alloc(now, *next)),
        Node::Free { next } => Some(rows::free(now, *next)),
        Node::Check { next } => Some(rows::check(now, *next)),
        Node::Clear { index, next } => Some(rows::clear(now, *index, *next)),
        Node::Zero { index, want, next } => Some(rows::zero(now, *index, *want, *next)),
        Node::Spell { index, text, next } => Some(texts::spell(program, now, *index, *text, *next)),
        Node::Exit
        | Node::Abort
        | Node::Fork { .. }
        | Node::Again { .. }
        | Node::Call { .. }
        | Node::Return
        | Node::Leave
        | Node::Mark { .. }
        | Node::Skip { .. }
        | Node::Test { .. }
        | Node::Choose { .. }
        | Node::Import { .. }
        | Node::Export { .. } => None,
    }
}
