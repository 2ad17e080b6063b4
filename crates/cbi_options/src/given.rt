ghost use Rattle.std.specs.Prelude.{◌≡◌, ◌↔◌, [], ◌∷◌, ◌++◌, None, Some, MatchOption, IfOk, OnOk, option_map, map, true, false};
ghost use Rattle.std.specs.Prelude.{if◌then◌else◌};
ghost use Rattle.std.specs.List.{list_all};
ghost use Rattle.cbi_options.specs.WordRule.{shape_of, has_value, name_in, value_in, is_value, given_by_words, none_given, texts_of};
ghost use Rattle.cbi_options.specs.Options.{value_of, are_single, is_one_of, has_name};

use crate::word::Word;
use cbi_base::{Memory, Seq};
use std::alloc::Global;

/// What a word is, before the first `--`.
#[derive(Clone, Copy, Debug, PartialEq, Eq)]
pub enum Shape {
    /// `--`: all words after it are positionals.
    End,
    /// A longer word that begins with `--`.
    Option,
    /// Another word that begins with `-`, but `-` alone.
    Refused,
    /// Any other word, `-` and the empty one among them.
    Positional,
}

/// An option that the words give, with its dashes, and its value.
#[derive(Debug, Drop)]
pub struct Choice {
    pub name: Word,
    pub value: Word,
}

/// What the words after a command give, each in the order of the words.
#[derive(Debug, Drop)]
pub struct Given {
    pub options: Seq<Choice>,
    pub positionals: Seq<Word>,
}

fn shape_of(word: &str) -> Shape
    ensures { result ≡ shape_of word.now }
{
    match word.as_bytes() {
        [b'-', b'-'] => Shape::End,
        [b'-', b'-', ..] => Shape::Option,
        [b'-', _, ..] => Shape::Refused,
        _ => Shape::Positional,
    }
}

// Whether a word can be the value of the option before it: `-`, or a word that doesn't begin with `-`.
fn is_value(word: &str) -> bool
    ensures { result ≡ is_value word.now }
{
    match word.as_bytes() {
        [b'-', _, ..] => false,
        _ => true,
    }
}

// The name and the value in an option that has both.
fn parts_of(word: &str) -> Option<(&str, &str)>
    ensures { MatchOption result (has_value word.now ≡ false)
        (λ parts. (has_value word.now ≡ true) × (parts.0.now ≡ name_in word.now) × (parts.1.now ≡ value_in word.now)) }
{
    word.split_once('=')
}

impl Given {
    /// Nothing is given.
    pub fn new(alloc: Global) -> Given
        ensures { result ≡ none_given }
    {
        Given {
            options: Seq::new(alloc),
            positionals: Seq::new(alloc),
        }
    }

    fn add_option(&mut self, alloc: Global, name: &str, value: &str) -> Result<(), Memory>
        ensures { OnOk result (self.new ≡ record self.old { options = self.old.options ++ record { name = name.now; value = value.now } ∷ [] }) }
    {
        let choice = Choice {
            name: Word::new(alloc, name)?,
            value: Word::new(alloc, value)?,
        };
        self.options.push(choice)
    }

    fn add_positional(&mut self, alloc: Global, word: &str) -> Result<(), Memory>
        ensures { OnOk result (self.new ≡ record self.old { positionals = self.old.positionals ++ word.now ∷ [] }) }
    {
        let word = Word::new(alloc, word)?;
        self.positionals.push(word)
    }

    fn add_positionals(&mut self, alloc: Global, words: &[String]) -> Result<(), Memory>
        ensures { OnOk result (self.new ≡ record self.old { positionals = self.old.positionals ++ texts_of words.now }) }
    {
        for word in words {
            self.add_positional(alloc, word.as_str())?;
        }
        Ok(())
    }

    /// The value of the option with this name.
    pub fn value_of(&self, name: &str) -> Option<&str>
        ensures { option_map (λ value. value.now) result ≡ value_of name.now self.now.options }
    {
        let option = (self.options.as_slice().iter()).find(|option| option.name.as_str() == name)?;
        Some(option.value.as_str())
    }

    /// A copy of that value.
    pub fn copy_of(&self, alloc: Global, name: &str) -> Result<Option<Word>, Memory>
        ensures { IfOk result (λ value. value ≡ value_of name.now self.now.options) }
    {
        let Some(value) = self.value_of(name) else {
            return Ok(None);
        };
        let word = Word::new(alloc, value)?;
        Ok(Some(word))
    }

    /// Whether each option is one of these.
    pub fn has_only(&self, names: &[&str]) -> bool
        ensures { result ≡ list_all (λ option. is_one_of (map (λ name. name.now) names.now) option.name) self.now.options }
    {
        (self.options.as_slice().iter()).all(|option| is_one_of(names, option.name.as_str()))
    }

    /// Whether no option comes twice.
    pub fn are_single(&self) -> bool
        ensures { result ≡ are_single self.now.options }
    {
        let mut rest = self.options.as_slice();
        while let [option, after @ ..] = rest {
            if has_name(after, option.name.as_str()) {
                return false;
            }
            rest = after;
        }
        true
    }
}

// Whether the name is one of these.
fn is_one_of(names: &[&str], name: &str) -> bool
    ensures { result ≡ is_one_of (map (λ n. n.now) names.now) name.now }
{
    let mut rest = names;
    while let [known, after @ ..] = rest {
        if *known == name {
            return true;
        }
        rest = after;
    }
    false
}

// Whether one of the options has this name.
fn has_name(options: &[Choice], name: &str) -> bool
    ensures { result ≡ has_name name.now options.now }
{
    options.iter().any(|option| option.name.as_str() == name)
}

impl Given {
    // Adds what the words give to nothing; answers whether they keep the rule.
    fn add_words(&mut self, alloc: Global, words: &[String]) -> Result<bool, Memory>
        requires { self.old ≡ none_given }
        ensures { IfOk result (λ kept. given_by_words None (texts_of words.now) ≡ if kept then Some self.new else None) }
    {
        let mut waiting: Option<&str> = None;
        let mut rest = words;
        while let [word, after @ ..] = rest {
            let word = word.as_str();
            rest = after;
            if let Some(name) = waiting {
                if !is_value(word) {
                    return Ok(false);
                }
                self.add_option(alloc, name, word)?;
                waiting = None;
                continue;
            }
            match shape_of(word) {
                Shape::End => {
                    self.add_positionals(alloc, rest)?;
                    return Ok(true);
                }
                Shape::Refused => return Ok(false),
                Shape::Positional => {
                    self.add_positional(alloc, word)?;
                    continue;
                }
                Shape::Option => {}
            }
            match parts_of(word) {
                Some((name, value)) => {
                    self.add_option(alloc, name, value)?;
                }
                None => waiting = Some(word),
            }
        }
        Ok(waiting.is_none())
    }
}

/// Cuts the words after a command into options with their values and positionals; None where a word breaks the rule.
pub fn cut(alloc: Global, words: &[String]) -> Result<Option<Given>, Memory>
    ensures { IfOk result (λ given. given ≡ given_by_words None (texts_of words.now)) }
{
    let mut given = Given::new(alloc);
    if given.add_words(alloc, words)? {
        Ok(Some(given))
    } else {
        Ok(None)
    }
}
