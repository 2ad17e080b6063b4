ghost use Rattle.std.specs.Prelude.{◌≡◌, [], IfOk, map, option_map};
ghost use Rattle.std.specs.List.{All};
ghost use Rattle.c_syntax.specs.Plain.{plain_initial, plain_start};
ghost use Rattle.c_types_rules.specs.Plain.{plain_type};
ghost use Rattle.cbi_base.specs.declared.scalar.Scalar.TheVariants.{Place};
ghost use Rattle.flow.specs.Statics as statics;
ghost use Rattle.flow.specs.Statics.{cell_value};
ghost use Rattle.c_meaning.specs.Globals.{cells_of_structs, static_object};
ghost use Rattle.c_meaning.specs.Globals as meaning;
ghost use Rattle.lower_facts.specs.Facts.{facts_in, known_in};
ghost use Rattle.lower_globals.specs.Objects.{all_objects, initial_object, objects_in};
ghost use Rattle.lower_globals.specs.Starts.{IfFirst, IsBegun, IsFirst, IsGlobalStart};

use crate::global_cells::given_to;
use crate::zeros::{filled_up, struct_zeros, zero_cells};
use c_syntax::{Initial, Start};
use c_types_rules::CType;
use cbi_base::{Memory, Scalar, Seq};
use flow::{Cell, Global};
use lower_facts::{TreeFacts, element_type, value_type};
use std::alloc::Global as Heap;

/// The cell that holds the place of a string.
fn place_cell(globals: u32, object: u64, offset: u32) -> Cell
    requires { IsFirst globals (Place object offset) }
    ensures { cell_value globals result ≡ Place object offset }
{
    let _offset = offset;
    Cell::Text {
        index: (object - globals as u64) as u32,
    }
}

/// The cell that holds the value.
fn cell_of(globals: u32, value: Scalar) -> Cell
    requires { IsFirst globals value }
    ensures { cell_value globals result ≡ value }
{
    match value {
        Scalar::Number { kind, value } => Cell::Number { kind, value },
        Scalar::Null => Cell::Null,
        Scalar::Place { object, offset } => place_cell(globals, object, offset),
        Scalar::Undefined => unreachable!(),
    }
}

/// The global that begins with these values.
fn global_with(alloc: Heap, globals: u32, values: &[Scalar]) -> Result<Global, Memory>
    requires { All (IsFirst globals) values.now }
    ensures { IfOk result (λ g. statics.object_of_global globals g ≡ static_object values.now) }
{
    let mut cells = Vec::new(alloc);
    for value in values {
        cells.push(cell_of(globals, *value))?;
    }
    Ok(Global {
        cells: Seq::from_vec(cells),
    })
}

/// The global of the type, with this initialiser; None where the initialiser gives it nothing.
fn object_with(
    alloc: Heap,
    facts: &TreeFacts<'_>,
    zeros: &[Seq<Scalar>],
    ctype: &CType,
    initial: &Option<Initial>,
) -> Result<Option<Global>, Memory>
    requires zeros { zeros.now ≡ cells_of_structs (known_in facts.now).structs [] }
    requires begins { IsGlobalStart (option_map plain_initial initial.now) }
    requires cells { IfFirst (facts_in facts.now).statics.globals
        (initial_object (facts_in facts.now) (known_in facts.now) (plain_type ctype.now) (option_map plain_initial initial.now)) }
    ensures { IfOk result (λ g. option_map (statics.object_of_global (facts_in facts.now).statics.globals) g
        ≡ initial_object (facts_in facts.now) (known_in facts.now) (plain_type ctype.now) (option_map plain_initial initial.now)) }
{
    let structs = facts.structs();
    let of = value_type(structs, ctype);
    let Some(given) = given_to(alloc, facts, of, element_type(structs, ctype), initial)? else {
        return Ok(None);
    };
    let zeros = zero_cells(alloc, zeros, ctype)?;
    let values = filled_up(zeros.as_slice(), given)?;
    let global = global_with(alloc, facts.global_count(), values.as_slice())?;
    Ok(Some(global))
}

/// The global of a declared variable; None where its initialiser gives it nothing.
fn global_of(
    alloc: Heap,
    facts: &TreeFacts<'_>,
    zeros: &[Seq<Scalar>],
    start: &Start,
) -> Result<Option<Global>, Memory>
    requires zeros { zeros.now ≡ cells_of_structs (known_in facts.now).structs [] }
    requires begun { IsBegun (facts_in facts.now) (known_in facts.now) (plain_start start.now) }
    ensures { IfOk result (λ g. option_map (statics.object_of_global (facts_in facts.now).statics.globals) g
        ≡ meaning.global_object (facts_in facts.now) (known_in facts.now) (plain_start start.now)) }
{
    match facts.declared_type(start.declarator.name_token) {
        None => Ok(None),
        Some(ctype) => object_with(alloc, facts, zeros, ctype, &start.initial),
    }
}

/// The globals of variables that are declared outside all functions, where these are the zeros of the structs; None where the initialiser
/// of one gives it nothing.
pub fn globals_of_starts(
    alloc: Heap,
    facts: &TreeFacts<'_>,
    zeros: &[Seq<Scalar>],
    starts: &[Start],
) -> Result<Option<Seq<Global>>, Memory>
    requires zeros { zeros.now ≡ cells_of_structs (known_in facts.now).structs [] }
    requires begun { All (IsBegun (facts_in facts.now) (known_in facts.now)) (map plain_start starts.now) }
    ensures { IfOk result (λ gs. objects_in facts.now gs ≡ all_objects facts.now (map plain_start starts.now)) }
{
    let mut globals = Vec::new(alloc);
    for start in starts {
        let Some(global) = global_of(alloc, facts, zeros, start)? else {
            return Ok(None);
        };
        globals.push(global)?;
    }
    Ok(Some(Seq::from_vec(globals)))
}

/// Zero in each cell of each struct, by its number: what globals begin with. They take as many values as the structs have cells together.
pub fn zeros_of_structs(alloc: Heap, facts: &TreeFacts<'_>) -> Result<Seq<Seq<Scalar>>, Memory>
    ensures { IfOk result (λ zeros. zeros ≡ cells_of_structs (known_in facts.now).structs []) }
{
    struct_zeros(alloc, facts.structs())
}
