ghost use Rattle.std.specs.Prelude.{◌≡◌, option_copied};
ghost use Rattle.c_types.specs.Answers.{span_holds};

use crate::answers::{ends_behind, note_at};
use c_syntax::Tree;
use c_types_expressions::{Definition, FunctionEntry, Meaning, Variable, VariableEntry, Walk};
use c_types_rules::{CType, StructType, Type, cells_of};
use cbi_base::Name;
use std::marker::Model;

/// A tree without a fault, with what is known of it.
#[derive(Drop)]
pub struct Checked {
    tree: Tree,
    walk: Walk,
}

impl Model for Checked {
    ghost use Rattle.std.specs.Coded.{codes};
    ghost use Rattle.c_syntax.specs.contracts.tree.Tree as whole_tree;
    ghost use Rattle.c_types_expressions.specs.contracts.walk.Walk as whole_walk;
    ghost use Rattle.c_types.specs.CheckedTree.{CheckedTree, ComesTo};

    ghost Value = { CheckedTree };

    ghost coded = { Prim.hlevel (codes, whole_tree.the_row.coded, whole_walk.the_row.coded) };

    ghost view = { λ c. record { tree = c.tree; walk = c.walk } };

    ghost invariant = { λ c. ComesTo c.tree c.walk };
}

/// Why a tree is refused: the number of the kind of its first fault and the index of the token at which that stands, or
/// want of memory.
#[derive(Clone, Copy, Debug)]
pub enum TypeFault {
    BadType { kind: u8, index: usize },
    Memory,
}

/// Whether the token lies in a scope that begins behind the variable's name and has this last token.
fn span_holds(token: u32, variable: Option<&VariableEntry>, end: Option<&Option<u32>>) -> bool
    ensures { result ≡ span_holds token (option_copied variable.entry) (option_copied end.entry) }
{
    match (variable, end) {
        (Some(entry), Some(end)) => entry.from < token && ends_behind(token, end),
        _ => false,
    }
}

impl Checked {
    ghost use Rattle.std.specs.Prelude.{◌≡◌, ◌≤◌, IsTrue, option_copied, option_map};
    ghost use Rattle.c_syntax.specs.Words.{IsKeptTree, plain_tree};
    ghost use Rattle.c_types_rules.specs.Words.{plain_type, cells_of, is_complete, most_cells};
    ghost use Rattle.c_types.specs.Answers.{IsChecked, declared_at, function_at, known_of, offset_at, place_at, scope_holds, tree_of, type_at, variable_at};
    ghost use Rattle.c_types.specs.Fault.{walk_tree};
    ghost use Rattle.c_types_expressions.specs.Words.{declared_meaning, Fine};

    /// A tree through which the walk came, with what it came to know.
    pub(crate) fn new(tree: Tree, walk: Walk) -> Checked
        requires walked { walk_tree (plain_tree tree) ≡ Fine tt walk }
        requires kept { IsKeptTree (plain_tree tree) }
        ensures same { tree_of result ≡ plain_tree tree }
        ensures known { known_of result ≡ walk }
    {
        Checked { tree, walk }
    }

    /// What is known of a checked tree is always what the walk through it comes to, and the tree is one that a parser gives. It does nothing: a
    /// caller learns it.
    pub fn facts(&self)
        ensures walked { IsChecked self.now }
        ensures kept { IsKeptTree (tree_of self.now) }
    {
        let _tree = &self.tree;
    }

    /// The tree itself.
    pub fn tree(&self) -> &Tree
        ensures { plain_tree result.now ≡ tree_of self.now }
    {
        &self.tree
    }

    /// The size of an object of the type, in cells.
    pub fn size_of(&self, ctype: &CType) -> u32
        requires complete { IsTrue (is_complete (known_of self.now).structs (plain_type ctype.now)) }
        requires within { cells_of (known_of self.now).structs (plain_type ctype.now) ≤ most_cells }
        ensures { result ≡ cells_of (known_of self.now).structs (plain_type ctype.now) }
    {
        cells_of(self.walk.structs.as_slice(), ctype)
    }

    /// The type of the expression whose own token it is.
    pub fn type_at(&self, token: usize) -> Option<&CType>
        ensures { option_map plain_type (option_copied result) ≡ type_at (known_of self.now) token }
    {
        match self.walk.types.as_slice().get(token) {
            Some(Some(ctype)) => Some(ctype.shape()),
            _ => None,
        }
    }

    /// The place, among all variables in the order of their declarations, of the variable that the name at the token
    /// declares or names.
    pub fn place_at(&self, token: usize) -> Option<u32>
        ensures { result ≡ place_at (known_of self.now) token }
    {
        note_at(self.walk.variables_at.as_slice(), token)
    }

    /// The variable that the name at the token declares or names.
    pub fn variable_at(&self, token: usize) -> Option<Variable>
        ensures { result ≡ variable_at (known_of self.now) token }
    {
        match self.place_at(token) {
            None => None,
            Some(place) => match self.walk.variables.as_slice().get(place as usize) {
                None => None,
                Some(entry) => Some(entry.variable),
            },
        }
    }

    /// The type of that variable, an array as such.
    pub fn declared_type(&self, token: usize) -> Option<&CType>
        ensures { option_map plain_type (option_copied result) ≡ declared_at (known_of self.now) token }
    {
        match self.place_at(token) {
            None => None,
            Some(place) => match self.walk.declared_types.as_slice().get(place as usize) {
                None => None,
                Some(ctype) => Some(ctype.shape()),
            },
        }
    }

    /// The offset in cells of the member that a `.` or `->` at the token names.
    pub fn offset_at(&self, token: usize) -> Option<u32>
        ensures { result ≡ offset_at (known_of self.now) token }
    {
        note_at(self.walk.offsets_at.as_slice(), token)
    }

    /// The number of the defined function whose call has its name at the token.
    pub fn function_at(&self, token: usize) -> Option<u32>
        ensures { result ≡ function_at (known_of self.now) token }
    {
        match note_at(self.walk.functions_at.as_slice(), token) {
            None => None,
            Some(place) => note_at(self.walk.defined_as.as_slice(), place as usize),
        }
    }

    /// All variables, in the order of their declarations.
    pub fn variables(&self) -> &[VariableEntry]
        ensures { result.now ≡ (known_of self.now).variables }
    {
        self.walk.variables.as_slice()
    }

    /// All declared functions, in the order of their first declarations.
    pub fn functions(&self) -> &[FunctionEntry]
        ensures { result.now ≡ (known_of self.now).functions }
    {
        self.walk.functions.as_slice()
    }

    /// The defined functions, by their numbers.
    pub fn definitions(&self) -> &[Definition]
        ensures { result.now ≡ (known_of self.now).definitions }
    {
        self.walk.definitions.as_slice()
    }

    /// The structs, by their numbers.
    pub fn structs(&self) -> &[StructType]
        ensures { result.now ≡ (known_of self.now).structs }
    {
        self.walk.structs.as_slice()
    }

    /// The types of the variables, in the order of their declarations, an array as such.
    pub fn declared_types(&self) -> &[Type]
        ensures { result.now ≡ (known_of self.now).declared_types }
    {
        self.walk.declared_types.as_slice()
    }

    /// How many globals there are.
    pub fn globals(&self) -> u32
        ensures { result ≡ (known_of self.now).globals }
    {
        self.walk.globals
    }

    /// The number of each declared function's definition.
    pub fn defined_as(&self) -> &[Option<u32>]
        ensures { result.now ≡ (known_of self.now).defined_as }
    {
        self.walk.defined_as.as_slice()
    }

    /// What a name was declared as outside all functions.
    pub fn find(&self, name: &Name) -> Option<Meaning>
        ensures { result ≡ declared_meaning name.now (known_of self.now).names }
    {
        self.walk.names.find(name)
    }

    /// Whether the token lies in the scope of the variable at this place.
    pub fn scope_holds(&self, place: usize, token: u32) -> bool
        ensures { result ≡ scope_holds (known_of self.now) place token }
    {
        let variables = self.walk.variables.as_slice();
        let ends = self.walk.ends.as_slice();
        span_holds(token, variables.get(place), ends.get(place))
    }
}
