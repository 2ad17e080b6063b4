//! Expressions as text: each operator with its operands in one pair of parentheses, a chain with its level first.
use c_syntax::{Base, Constant, Expr, Link, PostfixOperator};
use cases_rows::Page;
use cbi_base::Seq;

/// A constant: its kind and its value.
pub(crate) fn constant(page: &mut Page, constant: Constant) {
    page.debug(constant.kind);
    page.say(":");
    page.debug(constant.value);
}

fn stars(page: &mut Page, stars: u32) {
    for _ in 0..stars {
        page.say("*");
    }
}

/// A type's words, and a star for each pointer.
pub(crate) fn pointers(page: &mut Page, base: &Base, count: u32) {
    match base {
        Base::Void { .. } => page.say("void"),
        Base::Char { .. } => page.say("char"),
        Base::Int { .. } => page.say("int"),
        Base::Unsigned { int: true, .. } => page.say("unsigned int"),
        Base::Unsigned { int: false, .. } => page.say("unsigned"),
        Base::Struct { tag, .. } => {
            page.say("struct ");
            page.put(tag.bytes());
        }
    }
    stars(page, count);
}

/// Each with a space before it.
#[cycle(shown)]
pub(crate) fn exprs(page: &mut Page, exprs: &[Expr]) {
    for x in exprs {
        page.say(" ");
        expr(page, x);
    }
}

#[cycle(shown)]
fn links(page: &mut Page, links: &[Link]) {
    for link in links {
        page.say(" ");
        page.debug(link.sign);
        page.say(" ");
        expr(page, &link.operand);
    }
}

#[cycle(shown)]
fn postfix(page: &mut Page, operator: &PostfixOperator) {
    match operator {
        PostfixOperator::Index { index, .. } => {
            page.say(" [");
            expr(page, index);
            page.say("]");
        }
        PostfixOperator::Member { name, .. } => {
            page.say(" .");
            page.put(name.bytes());
        }
        PostfixOperator::Arrow { name, .. } => {
            page.say(" ->");
            page.put(name.bytes());
        }
        PostfixOperator::Increment { .. } => page.say(" ++"),
        PostfixOperator::Decrement { .. } => page.say(" --"),
    }
}

#[cycle(shown)]
fn operators(page: &mut Page, operators: &[PostfixOperator]) {
    for operator in operators {
        postfix(page, operator);
    }
}

/// An operator between operands, with them.
#[cycle(shown)]
fn between(page: &mut Page, x: &Expr) {
    match x {
        Expr::Assign {
            sign,
            target,
            value,
            ..
        } => {
            page.debug(*sign);
            page.say(" ");
            expr(page, target);
            page.say(" ");
            expr(page, value);
        }
        Expr::Conditional {
            condition,
            first,
            second,
            ..
        } => {
            page.say("? ");
            expr(page, condition);
            page.say(" ");
            expr(page, first);
            page.say(" ");
            expr(page, second);
        }
        Expr::Chain {
            level,
            first,
            links: more,
        } => {
            page.number(*level);
            page.say(" ");
            expr(page, first);
            links(page, more.as_slice());
        }
        _ => (),
    }
}

/// An operator before or behind its operand, or a call, with it.
#[cycle(shown)]
fn beside(page: &mut Page, x: &Expr) {
    match x {
        Expr::Prefix {
            operator,
            operand,
            ..
        } => {
            page.debug(*operator);
            page.say(" ");
            expr(page, operand);
        }
        Expr::Postfix {
            primary,
            operators: behind,
        } => {
            page.say("post ");
            expr(page, primary);
            operators(page, behind.as_slice());
        }
        Expr::Call {
            name,
            arguments,
            ..
        } => {
            page.say("call ");
            page.put(name.bytes());
            exprs(page, arguments.as_slice());
        }
        _ => (),
    }
}

/// Operands alone or in parentheses, or a type's words.
#[cycle(shown)]
fn alone(page: &mut Page, x: &Expr) {
    match x {
        Expr::Comma { operands, .. } => {
            page.say(",");
            exprs(page, operands.as_slice());
        }
        Expr::Cast {
            base,
            stars,
            operand,
            ..
        } => {
            page.say("cast ");
            pointers(page, base, *stars);
            page.say(" ");
            expr(page, operand);
        }
        Expr::SizeOfType { base, stars, .. } => {
            page.say("sizeof ");
            pointers(page, base, *stars);
        }
        Expr::Paren { inner, .. } => {
            page.say("paren ");
            expr(page, inner);
        }
        _ => (),
    }
}

/// What stands between an operator's parentheses.
#[cycle(shown)]
fn parts(page: &mut Page, x: &Expr) {
    match x {
        Expr::Assign { .. } | Expr::Conditional { .. } | Expr::Chain { .. } => between(page, x),
        Expr::Prefix { .. } | Expr::Postfix { .. } | Expr::Call { .. } => beside(page, x),
        _ => alone(page, x),
    }
}

/// The parts of a string, each as it is written but for its escapes.
fn strings(page: &mut Page, parts: &[Seq<u8>]) {
    for part in parts {
        page.say("\"");
        page.put(part.as_slice());
        page.say("\"");
    }
}

#[cycle(shown)]
pub(crate) fn expr(page: &mut Page, x: &Expr) {
    match x {
        Expr::Name { name, .. } => page.put(name.bytes()),
        Expr::Constant { kind, value, .. } => constant(
            page,
            Constant {
                kind: *kind,
                value: *value,
            },
        ),
        Expr::Strings { parts: read, .. } => strings(page, read.as_slice()),
        Expr::Null { .. } => page.say("NULL"),
        Expr::EndOfFile { .. } => page.say("EOF"),
        _ => {
            page.say("(");
            parts(page, x);
            page.say(")");
        }
    }
}
