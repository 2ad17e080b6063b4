ghost use Rattle.std.specs.Prelude.{◌≡◌, IfOk, [], ◌∷◌};
ghost use Rattle.cbi_base.specs.Format.{is_conversion};
ghost use Rattle.c_types_rules.specs.Conversions.{decayed_type};
ghost use Rattle.c_types_rules.specs.Library.{library_named, library_called, one_scalar, conversion_takes, fits_format, typed_printf};
ghost use Rattle.c_types_rules.specs.Plain.{plain_type};
ghost use Rattle.c_types_rules.specs.TypeTree.{Char, Pointer, same_type};
ghost use Rattle.c_types_rules.specs.declared.library.Library.TheVariants as library;

use crate::conversions::{is_arithmetic, is_scalar_value, value_of};
use crate::ctype::{CType, Type, same_type};
use crate::fault::FaultKind;
use crate::function::{FunctionType, called};
use crate::operand::{Looked, Operand};
use cbi_base::{Memory, Seq};
use std::alloc::Global;

/// A function of the library.
#[derive(Clone, Copy, Debug, PartialEq, Eq)]
pub enum Library {
    Getchar,
    Putchar,
    Puts,
    Malloc,
    Free,
    Exit,
    Abort,
    Assert,
    Printf,
}

/// The function of the library with this name.
pub fn library_named(name: &[u8]) -> Option<Library>
    ensures { result ≡ library_named name.now }
{
    if name == b"getchar".as_slice() {
        Some(Library::Getchar)
    } else if name == b"putchar".as_slice() {
        Some(Library::Putchar)
    } else if name == b"puts".as_slice() {
        Some(Library::Puts)
    } else if name == b"malloc".as_slice() {
        Some(Library::Malloc)
    } else if name == b"free".as_slice() {
        Some(Library::Free)
    } else if name == b"exit".as_slice() {
        Some(Library::Exit)
    } else if name == b"abort".as_slice() {
        Some(Library::Abort)
    } else if name == b"assert".as_slice() {
        Some(Library::Assert)
    } else if name == b"printf".as_slice() {
        Some(Library::Printf)
    } else {
        None
    }
}

/// The type of a function of no parameters.
fn of_nothing(alloc: Global, gives: CType) -> FunctionType
    ensures { result ≡ record { gives = plain_type gives; params = [] } }
{
    FunctionType {
        gives: Type::new(gives),
        params: Seq::new(alloc),
    }
}

/// The type of a function of one parameter.
fn of_one(alloc: Global, gives: CType, param: CType) -> Result<FunctionType, Memory>
    ensures { IfOk result (λ f. f ≡ record { gives = plain_type gives; params = plain_type param ∷ [] }) }
{
    let mut function = of_nothing(alloc, gives);
    function.params.push(Type::new(param))?;
    Ok(function)
}

/// A pointer to the type.
fn pointer(alloc: Global, to: CType) -> Result<CType, Memory>
    ensures { IfOk result (λ t. plain_type t ≡ Pointer (plain_type to)) }
{
    let to = Box::new(alloc, to)?;
    Ok(CType::Pointer { to })
}

/// `assert` takes one scalar.
fn one_scalar(arguments: &[Operand]) -> Looked
    ensures { result ≡ library_called library.Assert arguments.now }
{
    match arguments {
        [x] => {
            if is_scalar_value(x) {
                return Ok(value_of(CType::Void));
            }
        }
        _ => {}
    }
    Err(FaultKind::Arguments)
}

/// A call of a function of the library as an operand. `printf` is none.
pub fn library_called(
    alloc: Global,
    function: Library,
    arguments: &[Operand],
) -> Result<Looked, Memory>
    ensures { IfOk result (λ r. r ≡ library_called function arguments.now) }
{
    let ctype = match function {
        Library::Getchar => of_nothing(alloc, CType::Int),
        Library::Putchar => of_one(alloc, CType::Int, CType::Int)?,
        Library::Puts => of_one(alloc, CType::Int, pointer(alloc, CType::Char)?)?,
        Library::Malloc => of_one(alloc, pointer(alloc, CType::Void)?, CType::Unsigned)?,
        Library::Free => of_one(alloc, CType::Void, pointer(alloc, CType::Void)?)?,
        Library::Exit => of_one(alloc, CType::Void, CType::Int)?,
        Library::Abort => of_nothing(alloc, CType::Void),
        Library::Assert => return Ok(one_scalar(arguments)),
        Library::Printf => {
            return Ok(Err(FaultKind::Arguments));
        }
    };
    called(alloc, &ctype, arguments)
}

/// Whether the type is `char *`, as an array's value too.
fn is_text(ctype: &CType) -> bool
    ensures { result ≡ same_type (decayed_type (plain_type ctype.now)) (Pointer Char) }
{
    match ctype {
        CType::Pointer { to } => same_type(to, &CType::Char),
        CType::Array { of, .. } => same_type(of, &CType::Char),
        CType::Void | CType::Char | CType::Int => false,
        CType::Unsigned | CType::Struct { .. } => false,
    }
}

/// Whether the conversion with this letter takes the value.
fn converts(letter: u8, x: &Operand) -> bool
    ensures { result ≡ conversion_takes letter x.now }
{
    if letter == b's' {
        is_text(x.ctype.shape())
    } else {
        is_arithmetic(x.ctype.shape())
    }
}

/// Whether the letter begins a conversion.
fn is_conversion(letter: u8) -> bool
    ensures { result ≡ is_conversion letter }
{
    matches!(letter, b'd' | b'u' | b'c' | b's')
}

/// Whether a format has just the conversions of `printf` and `%%`, and an argument for each conversion.
fn fits_format(format: &[u8], arguments: &[Operand]) -> bool
    ensures { result ≡ fits_format format.now arguments.now }
{
    let mut format = format;
    let mut arguments = arguments;
    while let [first, rest @ ..] = format {
        format = rest;
        if *first != b'%' {
            continue;
        }
        let [letter, rest @ ..] = rest else {
            return false;
        };
        format = rest;
        if *letter == b'%' {
            continue;
        }
        let [x, others @ ..] = arguments else {
            return false;
        };
        if !is_conversion(*letter) || !converts(*letter, x) {
            return false;
        }
        arguments = others;
    }
    arguments.is_empty()
}

/// A whole `printf`, whose format has these bytes.
pub fn printed(format: &[u8], arguments: &[Operand]) -> Looked
    ensures { result ≡ typed_printf format.now arguments.now }
{
    if fits_format(format, arguments) {
        return Ok(value_of(CType::Int));
    }
    Err(FaultKind::Arguments)
}
