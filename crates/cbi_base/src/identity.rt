ghost use Rattle.std.specs.Prelude.{◌≡◌, ◌↔◌, IsSome, IfSome};
ghost use Rattle.cbi_base.specs.declared.identity.ProgramId.{ProgramId};
ghost use Rattle.cbi_base.specs.ProgramId.{IsId, IsIdText, text_of_id};

/// The identity of a program: a digest of its text.
#[derive(Clone, Copy, Debug, PartialEq, Eq)]
pub struct ProgramId {
    pub bytes: [u8; 32],
}

/// The 64 digits of an identity.
pub fn id_text(id: &ProgramId) -> [u8; 64]
    ensures { result ≡ text_of_id id.now }
{
    let mut text = [0; 64];
    hex::encode_to_slice(id.bytes.as_slice(), &mut text).unwrap();
    text
}

/// The identity whose text this is; None exactly where the text isn't 64 lower-case hexadecimal digits.
pub fn read_id(text: &[u8]) -> Option<ProgramId>
    ensures found { IsSome result ↔ IsIdText text.now }
    ensures value { IfSome result (λ id. text.now ≡ text_of_id id) }
    ensures only { (id : ProgramId) → IsId id → text.now ≡ text_of_id id → result ≡ Some id }
{
    let mut bytes = [0; 32];
    hex::decode_to_slice(text, &mut bytes).ok()?;
    let id = ProgramId { bytes };
    if id_text(&id).as_slice() == text {
        Some(id)
    } else {
        None
    }
}
