ghost use Rattle.std.specs.Prelude.{◌≡◌, IfOk};
ghost use Rattle.c_syntax.specs.Tokens.{lines_of};
ghost use Rattle.c_parser.specs.Parsed.{IsParsed, AreRead};
ghost use Rattle.c_parser.specs.ItemAnswers.{ItemRead};

use crate::error::ParseError;
use c_parser_expressions::{Reader, Stop};
use c_parser_items::item;
use c_syntax::{Item, Tokens, Tree};
use cbi_base::Seq;
use std::alloc::{AllocError, Global};

/// How deep the parts of a tree may nest.
const DEEPEST: u32 = 200;

/// The next item. A refusal says where it begins.
fn next_item(alloc: Global, reader: &mut Reader<'_>) -> Result<Item, ParseError>
    ensures { ItemRead reader.old reader.new result }
{
    let start = reader.at();
    match item(alloc, reader, DEEPEST) {
        Ok(item) => Ok(item),
        Err(Stop::Refused { index }) => Err(ParseError::Syntax {
            index,
            item: start as usize,
        }),
        Err(Stop::Memory) => Err(ParseError::Memory),
    }
}

/// All items of a text, of which there is one at least.
fn items(alloc: Global, tokens: &Tokens) -> Result<Vec<Item>, ParseError>
    ensures { AreRead tokens.now result }
{
    let mut reader = Reader::new(tokens.as_slice());
    let mut items = Vec::new(alloc);
    'items: while !reader.is_empty() {
        let item = next_item(alloc, &mut reader)?;
        items.push(item)?;
    }
    if items.is_empty() {
        return Err(ParseError::Syntax { index: 0, item: 0 });
    }
    Ok(items)
}

/// The line of each token.
fn lines(alloc: Global, tokens: &Tokens) -> Result<Vec<u32>, AllocError>
    ensures { IfOk result (λ v. v.items ≡ lines_of tokens.now) }
{
    tokens
        .as_slice()
        .iter()
        .map(|token| token.line)
        .collect(alloc)
}

/// The tree of a list of tokens.
pub(crate) fn tree(alloc: Global, tokens: &Tokens) -> Result<Tree, ParseError>
    ensures { IsParsed tokens.now result }
{
    let items = items(alloc, tokens)?;
    let lines = lines(alloc, tokens)?;
    Ok(Tree {
        items: Seq::from_vec(items),
        lines: Seq::from_vec(lines),
    })
}
