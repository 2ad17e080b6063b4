ghost use Rattle.std.specs.Prelude.{◌≡◌, [], IfOk, OnOk, length};
ghost use Rattle.c_types_walk.specs.ItemWalk.{has_length, is_among, is_length, is_named, listed_params, looked_param, named_param, param_type};
ghost use Rattle.c_types_walk.specs.ItemWalk.{scalar_param, types_of, walk_param, walk_params, with_param, with_params};
ghost use Rattle.c_types_expressions.specs.Words.{HasRoomLeft, HasRoom, Fine, IsWalked};

use c_syntax::{Bound, Constant, Param, ParamName, Params};
use c_types_expressions::{
    Parameter, Stop, Walk, add_variable, base_type, is_reserved, with_stars,
};
use c_types_rules::{FaultKind, Type, is_scalar, pointer_to};
use cbi_base::{Memory, Name, Seq};
use std::alloc::Global;

/// The parameters between the parentheses.
pub fn listed(params: &Params) -> &[Param]
    ensures { result.now ≡ listed_params params.now }
{
    match params {
        Params::Empty | Params::Void => &[],
        Params::List { list } => list.as_slice(),
    }
}

/// Whether this is the name.
fn is_named(name: &Name, other: &Option<Name>) -> bool
    ensures { result ≡ is_named name.now other.now }
{
    match other {
        None => false,
        Some(other) => other.bytes() == name.bytes(),
    }
}

/// Whether a parameter has the name.
fn is_among(name: &Name, params: &[Parameter]) -> bool
    ensures { result ≡ is_among name.now params.now }
{
    for param in params {
        if is_named(name, &param.name) {
            return true;
        }
    }
    false
}

/// Whether the constant, if there is one, is a length.
fn is_length(length: &Option<Constant>) -> bool
    ensures { result ≡ is_length length.now }
{
    match length {
        None => true,
        Some(c) => 1 <= c.value,
    }
}

/// Whether the bound of a parameter, if there is one, is none or a length.
fn has_length(bound: &Option<Bound>) -> bool
    ensures { result ≡ has_length bound.now }
{
    match bound {
        None => true,
        Some(bound) => is_length(&bound.length),
    }
}

/// A parameter that is declared as an array is a pointer.
fn param_type(alloc: Global, bound: &Option<Bound>, ctype: Type) -> Result<Type, Memory>
    ensures { IfOk result (λ t. t ≡ param_type bound.now ctype) }
{
    match bound {
        None => Ok(ctype),
        Some(_) => pointer_to(alloc, ctype),
    }
}

/// A parameter is a scalar.
fn scalar_param(
    walk: &mut Walk,
    index: u32,
    bound: &Option<Bound>,
    param: Parameter,
) -> Result<Parameter, Stop>
    ensures walked { IsWalked (scalar_param index bound.now param.ctype param walk.old) result walk.new }
    ensures left { OnOk result (HasRoomLeft 0 0 walk.old walk.new) }
{
    if is_scalar(param.ctype.shape()) && has_length(bound) {
        return Ok(param);
    }
    Err(Stop::fault(FaultKind::Object, index))
}

/// A parameter with a name, of this type or with this type of elements.
fn named_param(
    alloc: Global,
    walk: &mut Walk,
    index: u32,
    known: &ParamName,
    ctype: Type,
    before: &[Parameter],
) -> Result<Parameter, Stop>
    ensures walked { IsWalked (named_param index known.now ctype before.now walk.old) result walk.new }
    ensures left { OnOk result (HasRoomLeft 0 0 walk.old walk.new) }
{
    if is_reserved(&known.name) || is_among(&known.name, before) {
        return Err(Stop::fault(FaultKind::Redeclared, index));
    }
    let ctype = param_type(alloc, &known.bound, ctype)?;
    let name = Some(known.name.try_clone()?);
    let token = known.token;
    let param = Parameter { token, name, ctype };
    scalar_param(walk, index, &known.bound, param)
}

/// A parameter. It needs a name where the function has a body.
fn looked_param(
    alloc: Global,
    walk: &mut Walk,
    body: bool,
    param: &Param,
    ctype: Type,
    before: &[Parameter],
) -> Result<Parameter, Stop>
    ensures walked { IsWalked (looked_param body param.now.token param.now.name ctype before.now walk.old) result walk.new }
    ensures left { OnOk result (HasRoomLeft 0 0 walk.old walk.new) }
{
    let token = param.token;
    match &param.name {
        Some(known) => named_param(alloc, walk, token, known, ctype, before),
        None => {
            if body {
                return Err(Stop::fault(FaultKind::Unknown, token));
            }
            let name = None;
            scalar_param(walk, token, &None, Parameter { token, name, ctype })
        }
    }
}

/// A parameter, behind those before it.
fn walk_param(
    alloc: Global,
    walk: &mut Walk,
    body: bool,
    param: &Param,
    before: &[Parameter],
) -> Result<Parameter, Stop>
    ensures walked { IsWalked (walk_param body param.now before.now walk.old) result walk.new }
    ensures left { OnOk result (HasRoomLeft 0 0 walk.old walk.new) }
{
    let base = base_type(walk, &param.base)?;
    let ctype = with_stars(alloc, param.stars, &base)?;
    looked_param(alloc, walk, body, param, ctype, before)
}

/// The parameters of a function, which may have a body.
pub fn walk_params(
    alloc: Global,
    walk: &mut Walk,
    body: bool,
    params: &[Param],
) -> Result<Seq<Parameter>, Stop>
    ensures walked { IsWalked (walk_params body params.now [] walk.old) result walk.new }
    ensures many { IfOk result (λ ps. length ps ≡ length params.now) }
    ensures left { OnOk result (HasRoomLeft 0 0 walk.old walk.new) }
{
    let mut done = Seq::new(alloc);
    for param in params {
        let next = walk_param(alloc, walk, body, param, done.as_slice())?;
        done.push(next)?;
    }
    Ok(done)
}

/// The types of the parameters.
pub fn types_of(alloc: Global, params: &[Parameter]) -> Result<Seq<Type>, Memory>
    ensures { IfOk result (λ ts. ts ≡ types_of params.now) }
{
    let mut types = Seq::new(alloc);
    for param in params {
        types.push(param.ctype.try_clone(alloc)?)?;
    }
    Ok(types)
}

/// A parameter becomes a local, if it has a name.
fn add_param(alloc: Global, walk: &mut Walk, param: &Parameter) -> Result<(), Stop>
    requires { HasRoom 1 walk.old }
    ensures walked { IsWalked (Fine tt (with_param param.now.token param.now.name param.now.ctype walk.old)) result walk.new }
    ensures left { OnOk result (HasRoomLeft 1 0 walk.old walk.new) }
{
    match &param.name {
        None => Ok(()),
        Some(name) => {
            let ctype = param.ctype.try_clone(alloc)?;
            add_variable(walk, false, param.token, name, ctype)
        }
    }
}

/// The parameters become locals.
pub fn add_params(alloc: Global, walk: &mut Walk, params: &[Parameter]) -> Result<(), Stop>
    requires { HasRoom (length params.now) walk.old }
    ensures walked { IsWalked (Fine tt (with_params params.now walk.old)) result walk.new }
    ensures left { OnOk result (HasRoomLeft (length params.now) 0 walk.old walk.new) }
{
    for param in params {
        add_param(alloc, walk, param)?;
    }
    Ok(())
}
