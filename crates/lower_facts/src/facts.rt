ghost use Rattle.std.specs.Prelude.{◌≡◌, ℕ, map};
ghost use Rattle.c_types.specs.Answers.{known_of, tree_of};
ghost use Rattle.c_meaning.specs.Words.{string_literals, number_from, texts_of, head_site, is_branch, is_pair, is_return, main_of, sites_from};
ghost use Rattle.lower_trees.specs.Bodies.{definition_places};
ghost use Rattle.lower_trees.specs.Places.{all_at};
ghost use Rattle.lower_facts.specs.Signatures.{signature_of_entry};

use crate::function_types::Signature;
use crate::functions::{Functions, functions_of};
use crate::values::{element_type, object_cells, value_type};
use c_meaning::{Called, ValueType};
use c_syntax::{Base, Entry, Expr, Item};
use c_types::Checked;
use c_types_expressions::Variable;
use c_types_rules::{CType, StructType, library_named};
use cbi_base::{Memory, Name, Scalar, Seq};
use flow::{Site, SiteTable, Slot, Text};
use lower_trees::{
    SiteLists, TextLists, at_token, behind_token, body_numbered, first_at, named_cells, site_lists,
    text_lists, token_of,
};
use std::alloc::Global;

/// What is known of a checked tree and a site table, by token.
#[derive(Drop)]
pub struct TreeFacts<'a> {
    checked: &'a Checked,
    table: &'a SiteTable,
    sites: SiteLists,
    strings: TextLists,
    functions: Functions,
    ghost branches_stand: { (token : ℕ) → all_at sites.branches.items token ≡ sites_from 0 is_branch token table.now.sites },
    ghost returns_stand: { (token : ℕ) → all_at sites.returns.items token ≡ sites_from 0 is_return token table.now.sites },
    ghost pairs_stand: { (token : ℕ) → all_at sites.pairs.items token ≡ sites_from 0 is_pair token table.now.sites },
    ghost strings_stand: { (token : ℕ) → head_site (all_at strings.numbers.items token) ≡ number_from 0 token (string_literals (tree_of checked.now)) },
    ghost texts_stand: { strings.texts ≡ texts_of (string_literals (tree_of checked.now)) },
    ghost signatures_stand: { functions.signatures ≡ map (signature_of_entry (known_of checked.now)) (known_of checked.now).definitions },
    ghost bodies_stand: { functions.bodies.items ≡ definition_places 0 (tree_of checked.now).items },
    ghost main_stands: { functions.main ≡ main_of (known_of checked.now) },
}

impl<'a> TreeFacts<'a> {
    ghost use Rattle.std.specs.Prelude.{◌≡◌, ◌≤◌, ◌+◌, IfOk, option_map, length};
    ghost use Rattle.std.specs.Option.{option_copied};
    ghost use Rattle.c_syntax.specs.Plain.{plain_entries, plain_expr, plain_item};
    ghost use Rattle.c_types_rules.specs.Plain.{plain_type};
    ghost use Rattle.c_types.specs.Answers.{declared_at, known_of, tree_of};
    ghost use Rattle.c_types.specs.Fault.{walk_tree};
    ghost use Rattle.c_types_expressions.specs.Walked.{Fine};
    ghost use Rattle.flow.specs.Limits.{text_limit};
    ghost use Rattle.c_meaning.specs.Words.{string_literals, called_as, token_of, type_of};
    ghost use Rattle.lower_facts.specs.Signatures.{AreSized};
    ghost use Rattle.lower_facts.specs.Facts.{facts_in, known_in, sites_in, source_in, string_place, table_in, tree_in};

    /// What is known of a checked tree and a table of its sites.
    pub fn new(
        alloc: Global,
        checked: &'a Checked,
        table: &'a SiteTable,
    ) -> Result<TreeFacts<'a>, Memory>
        requires strings { length (string_literals (tree_of checked.now)) ≤ text_limit }
        requires sized { AreSized (known_of checked.now) }
        ensures tree { IfOk result (λ f. tree_in f ≡ tree_of checked.now) }
        ensures known { IfOk result (λ f. known_in f ≡ known_of checked.now) }
        ensures sites { IfOk result (λ f. table_in f ≡ table.now.sites) }
    {
        Ok(TreeFacts {
            checked,
            table,
            sites: site_lists(alloc, table.sites())?,
            strings: text_lists(alloc, checked.tree())?,
            functions: functions_of(alloc, checked)?,
        })
    }

    /// The items of the tree, of which is known what the walk through it comes to.
    pub fn items(&self) -> &[Item]
        ensures items { map plain_item result.now ≡ (tree_in self.now).items }
        ensures walked { walk_tree (tree_in self.now) ≡ Fine tt (known_in self.now) }
    {
        self.checked.facts();
        self.checked.tree().items.as_slice()
    }

    /// The type of the expression whose own token it is, an array as such.
    pub fn type_at(&self, token: u32) -> Option<ValueType>
        ensures { result ≡ (facts_in self.now).type_at token }
    {
        match self.checked.type_at(token as usize) {
            None => None,
            Some(ctype) => Some(value_type(self.checked.structs(), ctype)),
        }
    }

    /// The type of the expression, an array as such.
    pub fn type_of(&self, expr: &Expr) -> Option<ValueType>
        ensures { result ≡ type_of (facts_in self.now) (plain_expr expr.now) }
    {
        self.type_at(token_of(expr))
    }

    /// How many cells an object of that type has, where it has any.
    pub fn cells_at(&self, token: u32) -> Option<u32>
        ensures { result ≡ (facts_in self.now).cells_at token }
    {
        match self.checked.type_at(token as usize) {
            None => None,
            Some(ctype) => object_cells(self.checked.structs(), ctype),
        }
    }

    /// How many cells an object of a named type has, where it has any: its base, with so many stars.
    pub fn named_cells(&self, base: &Base, stars: u32) -> Option<u32>
        ensures { result ≡ (facts_in self.now).named_cells base.now stars }
    {
        named_cells(self.checked, base, stars)
    }

    /// The variable that the name at the token declares or names.
    pub fn slot_at(&self, token: u32) -> Option<Slot>
        ensures { result ≡ (facts_in self.now).slot_at token }
    {
        match self.checked.variable_at(token as usize) {
            None => None,
            Some(Variable::Global { index }) => Some(Slot::Global { index }),
            Some(Variable::Local { index }) => Some(Slot::Local { index }),
        }
    }

    /// The type of that variable, an array as such.
    pub fn declared_at(&self, token: u32) -> Option<ValueType>
        ensures { result ≡ (facts_in self.now).declared_at token }
    {
        match self.checked.declared_type(token as usize) {
            None => None,
            Some(ctype) => Some(value_type(self.checked.structs(), ctype)),
        }
    }

    /// The type of the variable whose name stands at the token, as it was declared.
    pub fn declared_type(&self, token: u32) -> Option<&CType>
        ensures { option_map plain_type (option_copied result) ≡ declared_at (known_in self.now) token }
    {
        self.checked.declared_type(token as usize)
    }

    /// The structs, by their numbers.
    pub fn structs(&self) -> &[StructType]
        ensures { result.now ≡ (known_in self.now).structs }
    {
        self.checked.structs()
    }

    /// The type of its elements, where it is an array.
    pub fn element_at(&self, token: u32) -> Option<ValueType>
        ensures { result ≡ (facts_in self.now).element_at token }
    {
        match self.checked.declared_type(token as usize) {
            None => None,
            Some(ctype) => element_type(self.checked.structs(), ctype),
        }
    }

    /// The offset in cells of the member that a `.` or `->` at the token names.
    pub fn offset_at(&self, token: u32) -> Option<u32>
        ensures { result ≡ (facts_in self.now).offset_at token }
    {
        self.checked.offset_at(token as usize)
    }

    /// The number of the defined function whose call has its name at the token.
    pub fn function_at(&self, token: u32) -> Option<u32>
        ensures { result ≡ (facts_in self.now).function_at token }
    {
        self.checked.function_at(token as usize)
    }

    /// What a call with this name at the token calls.
    pub fn called_as(&self, token: u32, name: &Name) -> Called
        ensures { result ≡ called_as ((facts_in self.now).function_at token) name.now }
    {
        if let Some(number) = self.function_at(token) {
            return Called::Function { number };
        }
        match library_named(name.bytes()) {
            None => Called::Unknown,
            Some(function) => Called::Library { function },
        }
    }

    /// The number of the string at the token.
    pub fn text_at(&self, token: u32) -> Option<u32>
        ensures { result ≡ (facts_in self.now).text_at token }
    {
        first_at(self.strings.numbers.as_slice(), token)
    }

    /// The place of the first byte of the string at the token.
    pub fn text_place(&self, token: u32) -> Option<Scalar>
        ensures { result ≡ option_map (string_place (facts_in self.now)) ((facts_in self.now).text_at token) }
    {
        match self.text_at(token) {
            None => None,
            Some(number) => Some(Scalar::Place {
                object: self.global_count() as u64 + number as u64,
                offset: 0,
            }),
        }
    }

    /// The strings, by their numbers.
    pub fn texts(&self) -> &[Text]
        ensures { result.now ≡ (facts_in self.now).statics.texts }
    {
        self.strings.texts.as_slice()
    }

    /// The strings, by their numbers, where nothing else is asked any more.
    pub fn into_texts(self) -> Seq<Text>
        ensures { result ≡ (facts_in self.entry).statics.texts }
    {
        let TreeFacts { strings, .. } = self;
        let TextLists { texts, numbers: _ } = strings;
        texts
    }

    /// How many globals there are. The strings are the objects after them.
    pub fn global_count(&self) -> u32
        ensures { result ≡ (facts_in self.now).statics.globals }
    {
        self.checked.globals()
    }

    /// The signature of a defined function, by its number.
    #[tactic(auto, using(crate::proofs::Signed::signature_found))]
    pub fn signature(&self, number: u32) -> Option<&Signature>
        ensures { option_copied result ≡ (facts_in self.now).signature number }
    {
        match self.functions.signatures.as_slice().get(number as usize) {
            None => None,
            Some(signature) => signature.as_ref(),
        }
    }

    /// The site of the condition at the token.
    pub fn branch_at(&self, token: u32) -> Option<u32>
        ensures { result ≡ (sites_in self.now).branch_at token }
    {
        first_at(self.sites.branches.as_slice(), token)
    }

    /// The site of the returned value at the token.
    pub fn return_at(&self, token: u32) -> Option<u32>
        ensures { result ≡ (sites_in self.now).return_at token }
    {
        first_at(self.sites.returns.as_slice(), token)
    }

    /// The sites of the variable that is assigned at the token.
    pub fn pairs_at(&self, token: u32) -> &[u32]
        ensures { result.now ≡ (sites_in self.now).pairs_at token }
    {
        at_token(self.sites.pairs.as_slice(), token)
    }

    /// The sites of the variable that is assigned at the token behind this one.
    pub fn pairs_behind(&self, token: u32) -> &[u32]
        ensures { result.now ≡ (sites_in self.now).pairs_at (token + 1) }
    {
        behind_token(self.sites.pairs.as_slice(), token)
    }

    /// The site with this number.
    pub fn site(&self, number: u32) -> Option<&Site>
        ensures { option_copied result ≡ (sites_in self.now).site number }
    {
        self.table.sites().get(number as usize)
    }

    /// The body of a defined function, by its number.
    pub fn body(&self, number: u32) -> Option<&[Entry]>
        ensures { option_map plain_entries (option_copied result) ≡ (source_in self.now).body number }
    {
        let items = self.checked.tree().items.as_slice();
        body_numbered(items, self.functions.bodies.as_slice(), number)
    }

    /// The number of the function `main`.
    pub fn main(&self) -> u32
        ensures { result ≡ (source_in self.now).main }
    {
        self.functions.main
    }

    /// How many functions are defined.
    pub fn function_count(&self) -> usize
        ensures { result ≡ length (known_in self.now).definitions }
    {
        self.checked.definitions().len()
    }
}
