ghost use Rattle.std.specs.Prelude.{◌≡◌, ◌≤◌, ℕ, length, IfOk};
ghost use Rattle.c_syntax.specs.Plain.{plain_tree};
ghost use Rattle.flow.specs.Limits.{text_limit};
ghost use Rattle.c_meaning.specs.Words.{string_literals, number_from, texts_of, head_site};
ghost use Rattle.lower_trees.specs.Places.{all_at};

use crate::places::add;
use crate::string_walk::strings_of_items;
use crate::strings::StringAt;
use c_syntax::Tree;
use cbi_base::{Memory, Seq};
use flow::Text;
use std::alloc::Global;

/// All strings of a tree.
fn strings_of_tree(alloc: Global, tree: &Tree) -> Result<Seq<StringAt>, Memory>
    ensures { IfOk result (λ strings. strings ≡ string_literals (plain_tree tree.now)) }
{
    let mut strings = Seq::new(alloc);
    strings_of_items(alloc, &mut strings, tree.items.as_slice())?;
    Ok(strings)
}

/// The strings as texts of a program.
fn texts_of(alloc: Global, strings: &[StringAt]) -> Result<Seq<Text>, Memory>
    ensures { IfOk result (λ texts. texts ≡ texts_of strings.now) }
{
    let mut texts = Vec::new(alloc);
    for string in strings {
        let bytes = Vec::from_slice(alloc, string.bytes())?;
        texts.push(Text {
            bytes: Seq::from_vec(bytes),
        })?;
    }
    Ok(Seq::from_vec(texts))
}

/// The numbers of the strings, by token.
#[tactic(auto, using(crate::proofs::Placed::first_alone))]
fn strings_by_token(alloc: Global, strings: &[StringAt]) -> Result<Vec<Seq<u32>>, Memory>
    requires { length strings.now ≤ text_limit }
    ensures { IfOk result (λ lists. (token : ℕ) → head_site (all_at lists.items token) ≡ number_from 0 token strings.now) }
{
    let mut lists = Vec::new(alloc);
    let mut number: u32 = 0;
    for string in strings {
        add(alloc, &mut lists, string.token(), number)?;
        number += 1;
    }
    Ok(lists)
}

/// The strings of a tree: their numbers, by token, and the texts of a program that they are.
#[derive(Drop)]
pub struct TextLists {
    pub numbers: Vec<Seq<u32>>,
    pub texts: Seq<Text>,
}

/// The strings of a tree, by token and as texts.
pub fn text_lists(alloc: Global, tree: &Tree) -> Result<TextLists, Memory>
    requires { length (string_literals (plain_tree tree.now)) ≤ text_limit }
    ensures numbers { IfOk result (λ lists. (token : ℕ)
        → head_site (all_at lists.numbers.items token) ≡ number_from 0 token (string_literals (plain_tree tree.now))) }
    ensures texts { IfOk result (λ lists. lists.texts ≡ texts_of (string_literals (plain_tree tree.now))) }
{
    let strings = strings_of_tree(alloc, tree)?;
    Ok(TextLists {
        numbers: strings_by_token(alloc, strings.as_slice())?,
        texts: texts_of(alloc, strings.as_slice())?,
    })
}
