ghost use Rattle.std.specs.Prelude.{◌≡◌, ◌≤◌, map, drop, take, IfOk, Some};
ghost use Rattle.c_types_rules.specs.Sizes.{cells_of, most_cells};
ghost use Rattle.c_meaning.specs.Facts as facts;
ghost use Rattle.c_meaning.specs.Known.{computed_type, signature_with};
ghost use Rattle.c_types.specs.Answers.{known_of};
ghost use Rattle.lower_facts.specs.Signatures.{AllSized, AreSized, signature_of_entry};

use crate::values::value_type;
use c_meaning::ValueType;
use c_types::Checked;
use c_types_expressions::{Definition, FunctionEntry};
use c_types_rules::{CType, StructType, Type, cells_of};
use cbi_base::{Memory, Seq};
use std::alloc::Global;
use std::marker::Model;

/// The types of a function's parameters and of its result, and the sizes of its variables in cells, the parameters first.
#[derive(Drop)]
pub struct Signature {
    params: Seq<ValueType>,
    gives: ValueType,
    locals: Seq<u32>,
}

impl Model for Signature {
    ghost use Rattle.c_meaning.specs.Facts as facts;

    ghost Value = { facts.Signature };

    ghost view = { λ s. record { params = s.params; result = s.gives; locals = s.locals } };
}

impl Signature {
    fn of(params: Seq<ValueType>, gives: ValueType, locals: Seq<u32>) -> Signature
        ensures { result ≡ record { params = params; result = gives; locals = locals } }
    {
        Signature {
            params,
            gives,
            locals,
        }
    }

    /// The types of the parameters.
    pub fn params(&self) -> &[ValueType]
        ensures { result.now ≡ self.now.params }
    {
        self.params.as_slice()
    }

    /// The type of the result.
    pub fn gives(&self) -> ValueType
        ensures { result ≡ self.now.result }
    {
        self.gives
    }

    /// The sizes of the variables.
    pub fn locals(&self) -> &[u32]
        ensures { result.now ≡ self.now.locals }
    {
        self.locals.as_slice()
    }
}

/// What the types are where values are computed.
fn value_types(
    alloc: Global,
    structs: &[StructType],
    types: &[Type],
) -> Result<Seq<ValueType>, Memory>
    ensures { IfOk result (λ values. values ≡ map (computed_type structs.now) types.now) }
{
    let mut values = Vec::new(alloc);
    for ctype in types {
        values.push(value_type(structs, ctype.shape()))?;
    }
    Ok(Seq::from_vec(values))
}

/// The size of an object of the type, which is no larger than an object may be.
fn exact_cells(structs: &[StructType], ctype: &Type) -> u32
    requires { cells_of structs.now ctype.now ≤ most_cells }
    ensures { result ≡ cells_of structs.now ctype.now }
{
    cells_of(structs, ctype.shape())
}

/// The sizes of objects of these types.
fn sizes(alloc: Global, structs: &[StructType], types: &[Type]) -> Result<Seq<u32>, Memory>
    requires { AllSized structs.now types.now }
    ensures { IfOk result (λ sizes. sizes ≡ map (cells_of structs.now) types.now) }
{
    let mut sizes = Vec::new(alloc);
    for ctype in types {
        sizes.push(exact_cells(structs, ctype))?;
    }
    Ok(Seq::from_vec(sizes))
}

/// So many types from this one on, or as many as there are.
fn span(types: &[Type], first: usize, count: usize) -> &[Type]
    ensures { result.now ≡ take count (drop first types.now) }
{
    let first = first.min(types.len());
    let left = &types[first..];
    &left[..count.min(left.len())]
}

/// The signature of a defined function.
fn signature_of_function(
    alloc: Global,
    checked: &Checked,
    definition: Definition,
    function: &FunctionEntry,
) -> Result<Signature, Memory>
    requires { AreSized (known_of checked.now) }
    ensures { IfOk result (λ s. Some s ≡ signature_with (known_of checked.now) definition (Some function.now)) }
{
    let structs = checked.structs();
    let first = definition.first as usize;
    let variables = span(checked.declared_types(), first, definition.count as usize);
    let params = value_types(alloc, structs, function.ctype.params.as_slice())?;
    let gives = value_type(structs, function.ctype.gives.shape());
    let locals = sizes(alloc, structs, variables)?;
    Ok(Signature::of(params, gives, locals))
}

/// The signature of a defined function, where its function is there.
fn signature_of_entry(
    alloc: Global,
    checked: &Checked,
    definition: Definition,
) -> Result<Option<Signature>, Memory>
    requires { AreSized (known_of checked.now) }
    ensures { IfOk result (λ s. s ≡ signature_of_entry (known_of checked.now) definition) }
{
    match checked.functions().get(definition.function as usize) {
        None => Ok(None),
        Some(function) => {
            let signature = signature_of_function(alloc, checked, definition, function)?;
            Ok(Some(signature))
        }
    }
}

/// The signatures of the defined functions, in their order.
pub(crate) fn signatures(alloc: Global, checked: &Checked) -> Result<Seq<Option<Signature>>, Memory>
    requires { AreSized (known_of checked.now) }
    ensures { IfOk result (λ ss. ss ≡ map (signature_of_entry (known_of checked.now)) (known_of checked.now).definitions) }
{
    let mut signatures = Vec::new(alloc);
    for definition in checked.definitions() {
        signatures.push(signature_of_entry(alloc, checked, *definition)?)?;
    }
    Ok(Seq::from_vec(signatures))
}
