ghost use Rattle.std.specs.Prelude.{◌≡◌, IfOk};
ghost use Rattle.c_types_rules.specs.Plain.{plain_type};
ghost use Rattle.c_types_rules.specs.TypeTree.{Pointer, same_type, same_types};

use cbi_base::Memory;
use std::alloc::Global;
use std::marker::Model;

/// A type of the language. An array whose length isn't known yet has length 0. A struct's tag is its number, from 0 in the
/// order of the definitions.
#[derive(Debug, Drop)]
pub enum CType {
    Void,
    Char,
    Int,
    Unsigned,
    Pointer { to: Box<CType> },
    Array { of: Box<CType>, length: u32 },
    Struct { tag: u32 },
}

/// An equal type.
fn copy_ctype(alloc: Global, ctype: &CType) -> Result<CType, Memory>
    ensures { IfOk result (λ t. plain_type t ≡ plain_type ctype.now) }
{
    match ctype {
        CType::Void => Ok(CType::Void),
        CType::Char => Ok(CType::Char),
        CType::Int => Ok(CType::Int),
        CType::Unsigned => Ok(CType::Unsigned),
        CType::Pointer { to } => {
            let to = copy_ctype(alloc, to)?;
            Ok(CType::Pointer {
                to: Box::new(alloc, to)?,
            })
        }
        CType::Array { of, length } => {
            let of = copy_ctype(alloc, of)?;
            Ok(CType::Array {
                of: Box::new(alloc, of)?,
                length: *length,
            })
        }
        CType::Struct { tag } => Ok(CType::Struct { tag: *tag }),
    }
}

/// Whether two types are the same.
pub fn same_type(left: &CType, right: &CType) -> bool
    ensures { result ≡ same_type (plain_type left.now) (plain_type right.now) }
{
    match left {
        CType::Void => matches!(right, CType::Void),
        CType::Char => matches!(right, CType::Char),
        CType::Int => matches!(right, CType::Int),
        CType::Unsigned => matches!(right, CType::Unsigned),
        CType::Pointer { to } => match right {
            CType::Pointer { to: other } => same_type(to, other),
            CType::Void | CType::Char | CType::Int | CType::Unsigned => false,
            CType::Array { .. } | CType::Struct { .. } => false,
        },
        CType::Array { of, length } => match right {
            CType::Array {
                of: other,
                length: second,
            } => *length == *second && same_type(of, other),
            CType::Void | CType::Char | CType::Int | CType::Unsigned => false,
            CType::Pointer { .. } | CType::Struct { .. } => false,
        },
        CType::Struct { tag } => match right {
            CType::Struct { tag: other } => *tag == *other,
            CType::Void | CType::Char | CType::Int | CType::Unsigned => false,
            CType::Pointer { .. } | CType::Array { .. } => false,
        },
    }
}

/// A type that contracts see as its tree.
#[derive(Debug, Drop)]
pub struct Type {
    shape: CType,
}

impl Model for Type {
    ghost use Rattle.c_types_rules.specs.TypeTree.{TypeTree, coded_type};

    ghost Value = { TypeTree };

    ghost coded = { coded_type };

    ghost use Rattle.c_types_rules.specs.Plain.{plain_type};

    ghost view = { λ t. plain_type t.shape };
}

impl Type {
    /// The type with this shape.
    pub fn new(shape: CType) -> Type
        ensures { result ≡ plain_type shape }
    {
        Type { shape }
    }

    /// The shape itself.
    pub fn into_shape(self) -> CType
        ensures { plain_type result ≡ self }
    {
        let Type { shape } = self;
        shape
    }

    /// The shape, to be looked at.
    pub fn shape(&self) -> &CType
        ensures { plain_type result.now ≡ self.now }
    {
        &self.shape
    }

    /// An equal type.
    pub fn try_clone(&self, alloc: Global) -> Result<Type, Memory>
        ensures { IfOk result (λ t. t ≡ self.now) }
    {
        Ok(Type {
            shape: copy_ctype(alloc, &self.shape)?,
        })
    }
}

/// A pointer to the type.
pub fn pointer_to(alloc: Global, to: Type) -> Result<Type, Memory>
    ensures { IfOk result (λ t. t ≡ Pointer to) }
{
    let to = Box::new(alloc, to.into_shape())?;
    Ok(Type::new(CType::Pointer { to }))
}

/// Whether two lists have the same types.
pub fn same_types(left: &[Type], right: &[Type]) -> bool
    ensures { result ≡ same_types left.now right.now }
{
    let mut left = left;
    let mut right = right;
    while let [first, more @ ..] = left {
        let [other, others @ ..] = right else {
            return false;
        };
        if !same_type(first.shape(), other.shape()) {
            return false;
        }
        left = more;
        right = others;
    }
    right.is_empty()
}
