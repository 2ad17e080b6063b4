//! Statements and declarations as text: each with its parts in one pair of parentheses or braces.
use crate::expressions::{constant, expr, exprs, pointers};
use c_syntax::{Bound, Declaration, Declarator, Entry, Expr, ForStart, Initial, Start, Statement};
use cases_rows::Page;

pub(crate) fn bound(page: &mut Page, bound: Bound) {
    page.say("[");
    if let Some(length) = bound.length {
        constant(page, length);
    }
    page.say("]");
}

pub(crate) fn declarator(page: &mut Page, declarator: &Declarator) {
    for _ in 0..declarator.stars {
        page.say("*");
    }
    page.put(declarator.name.bytes());
    for one in declarator.bounds.as_slice() {
        bound(page, *one);
    }
}

fn initial(page: &mut Page, initial: &Initial) {
    match initial {
        Initial::Value { value } => expr(page, value),
        Initial::Braced { items, comma, .. } => {
            page.say("{");
            exprs(page, items.as_slice());
            if *comma {
                page.say(" ,");
            }
            page.say("}");
        }
    }
}

fn start(page: &mut Page, start: &Start) {
    page.say(" ");
    declarator(page, &start.declarator);
    if let Some(value) = &start.initial {
        page.say("=");
        initial(page, value);
    }
}

pub(crate) fn declaration(page: &mut Page, declaration: &Declaration) {
    page.say("(");
    pointers(page, &declaration.base, 0);
    for one in declaration.starts.as_slice() {
        start(page, one);
    }
    page.say(")");
}

fn optional(page: &mut Page, x: &Option<Expr>) {
    page.say(" ");
    match x {
        None => page.say("-"),
        Some(x) => expr(page, x),
    }
}

fn for_start(page: &mut Page, start: &ForStart) {
    match start {
        ForStart::Declares { declaration: named } => {
            page.say(" ");
            declaration(page, named);
        }
        ForStart::Computes { expr } => optional(page, expr),
    }
}

#[cycle(shown_statement)]
fn entry(page: &mut Page, entry: &Entry) {
    page.say(" ");
    match entry {
        Entry::Declaration { declaration: named } => declaration(page, named),
        Entry::Statement { statement: one } => statement(page, one),
    }
}

/// In braces.
#[cycle(shown_statement)]
pub(crate) fn entries(page: &mut Page, entries: &[Entry]) {
    page.say("{");
    for one in entries {
        entry(page, one);
    }
    page.say("}");
}

#[cycle(shown_statement)]
fn branching(page: &mut Page, x: &Statement) {
    match x {
        Statement::If {
            condition,
            first,
            second,
            ..
        } => {
            page.say("if ");
            expr(page, condition);
            page.say(" ");
            statement(page, first);
            if let Some(other) = second {
                page.say(" else ");
                statement(page, other);
            }
        }
        Statement::Do {
            body,
            condition,
            ..
        } => {
            page.say("do ");
            statement(page, body);
            page.say(" ");
            expr(page, condition);
        }
        _ => (),
    }
}

#[cycle(shown_statement)]
fn looping(page: &mut Page, x: &Statement) {
    match x {
        Statement::While {
            condition,
            body,
            ..
        } => {
            page.say("while ");
            expr(page, condition);
            page.say(" ");
            statement(page, body);
        }
        Statement::For {
            start,
            condition,
            step,
            body,
            ..
        } => {
            page.say("for");
            for_start(page, start);
            optional(page, condition);
            optional(page, step);
            page.say(" ");
            statement(page, body);
        }
        _ => (),
    }
}

#[cycle(shown_statement)]
fn statement(page: &mut Page, x: &Statement) {
    match x {
        Statement::Block { entries: inner, .. } => entries(page, inner.as_slice()),
        Statement::Empty { .. } => page.say(";"),
        Statement::Expr { expr: x, .. } => expr(page, x),
        Statement::Return { value, .. } => {
            page.say("return");
            optional(page, value);
        }
        Statement::Break { .. } => page.say("break"),
        Statement::Continue { .. } => page.say("continue"),
        Statement::If { .. } | Statement::Do { .. } => {
            page.say("(");
            branching(page, x);
            page.say(")");
        }
        _ => {
            page.say("(");
            looping(page, x);
            page.say(")");
        }
    }
}
