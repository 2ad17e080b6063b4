ghost use Rattle.std.specs.Prelude.{◌≡◌, ◌↔◌, ℕ, List, IfOk, IsSome, IfSome, IsTrue};
ghost use Rattle.std.specs.List.{list_all};
ghost use Rattle.cbi_base.specs.Name.{IsName, begins_name, is_letter, is_name_byte};

use crate::memory::Memory;
use std::alloc::Global;
use std::marker::Model;

/// The longest name, in bytes.
const LONGEST_NAME: usize = 63;

/// A name: a letter or `_`, then letters, digits and `_`, of at most 63 bytes. Contracts see it as the list of its bytes.
#[derive(Debug, Drop)]
pub struct Name {
    bytes: Vec<u8>,
}

impl Model for Name {
    ghost Value = { List ℕ };

    ghost view = { λ n. n.bytes.items };

    ghost invariant = { λ n. IsName n.bytes.items };
}

/// Whether the byte is a letter or `_` (C99 6.4.2.1).
pub fn is_letter(b: u8) -> bool
    ensures { result ≡ is_letter b }
{
    b.is_ascii_alphabetic() || b == b'_'
}

/// Whether the byte can stand in a name: a letter, `_` or a digit.
pub fn is_name_byte(b: u8) -> bool
    ensures { result ≡ is_name_byte b }
{
    is_letter(b) || b.is_ascii_digit()
}

/// Whether a name can begin with these bytes.
pub fn begins_name(bytes: &[u8]) -> bool
    ensures { result ≡ begins_name bytes.now }
{
    match bytes {
        [] => false,
        [first, ..] => is_letter(*first),
    }
}

fn runs_as_name(bytes: &[u8]) -> bool
    ensures { result ≡ list_all is_name_byte bytes.now }
{
    bytes.iter().all(|b| is_name_byte(*b))
}

/// Whether the bytes have the form of a name.
pub fn is_name(bytes: &[u8]) -> bool
    ensures { IsTrue result ↔ IsName bytes.now }
{
    if bytes.len() > LONGEST_NAME {
        return false;
    }
    if !begins_name(bytes) {
        return false;
    }
    runs_as_name(bytes)
}

impl Name {
    /// None exactly where the bytes aren't a name.
    pub fn new(alloc: Global, bytes: &[u8]) -> Result<Option<Name>, Memory>
        ensures found { IfOk result (λ name. IsSome name ↔ IsName bytes.now) }
        ensures value { IfOk result (λ name. IfSome name (λ n. n ≡ bytes.now)) }
    {
        if !is_name(bytes) {
            return Ok(None);
        }
        Ok(Some(Name {
            bytes: Vec::from_slice(alloc, bytes)?,
        }))
    }

    /// The bytes of the name.
    pub fn bytes(&self) -> &[u8]
        ensures value { result.now ≡ self.now }
        ensures is_name { IsName self.now }
    {
        self.bytes.as_slice()
    }

    /// An equal name.
    pub fn try_clone(&self) -> Result<Name, Memory>
        ensures { IfOk result (λ n. n ≡ self.now) }
    {
        Ok(Name {
            bytes: self.bytes.clone()?,
        })
    }

    /// Whether two names are the same.
    pub fn same(&self, other: &Name) -> bool
        ensures { IsTrue result ↔ (self.now ≡ other.now) }
    {
        self.bytes.as_slice() == other.bytes.as_slice()
    }
}
