//! Items as text.
use crate::expressions::pointers;
use crate::statements::{bound, declaration, declarator, entries};
use c_syntax::{Item, Members, Param, ParamName, Params, Tree};
use cases_rows::Page;

fn members(page: &mut Page, members: &Members) {
    page.say(" (");
    pointers(page, &members.base, 0);
    for one in members.declarators.as_slice() {
        page.say(" ");
        declarator(page, one);
    }
    page.say(")");
}

fn param_name(page: &mut Page, name: &ParamName) {
    page.say(" ");
    page.put(name.name.bytes());
    if let Some(one) = name.bound {
        bound(page, one);
    }
}

fn param(page: &mut Page, param: &Param) {
    page.say(" ");
    pointers(page, &param.base, param.stars);
    if let Some(name) = &param.name {
        param_name(page, name);
    }
}

fn params(page: &mut Page, params: &Params) {
    match params {
        Params::Empty => page.say(" ()"),
        Params::Void => page.say(" (void)"),
        Params::List { list } => {
            page.say(" (");
            for one in list.as_slice() {
                param(page, one);
            }
            page.say(" )");
        }
    }
}

fn item(page: &mut Page, item: &Item) {
    match item {
        Item::Struct {
            tag,
            members: lines,
            ..
        } => {
            page.say("struct ");
            page.put(tag.bytes());
            for line in lines.as_slice() {
                members(page, line);
            }
        }
        Item::Function {
            base,
            stars,
            name,
            params: taken,
            body,
            ..
        } => {
            pointers(page, base, *stars);
            page.say(" ");
            page.put(name.bytes());
            params(page, taken);
            if let Some(inner) = body {
                page.say(" ");
                entries(page, inner.as_slice());
            }
        }
        Item::Declaration { declaration: named } => declaration(page, named),
    }
}

/// Adds the items of a tree, with a newline between each two.
pub fn show_tree(page: &mut Page, tree: &Tree) {
    for one in tree.items.as_slice() {
        if !page.is_empty() {
            page.say("\n");
        }
        item(page, one);
    }
}
