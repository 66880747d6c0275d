//! Which values may stand under a type.
ghost use Rattle.std.specs.Prelude.{◌≡◌, ◌↔◌, Bool, IsTrue, IsUtf8};
ghost use Rattle.std.specs.Str.{is_utf8};
ghost use Rattle.ts_base.specs.declared.values.Val.{Val as AnyVal};
ghost use Rattle.ts_base.specs.declared.values.ValType.{ValType as AnyType};
ghost use Rattle.ts_value.specs.Fill.{fill_of};
ghost use Rattle.ts_value.specs.Fits.{Fits, fits_of};

use ts_base::{Val, ValType};

/// Whether the value may stand under the type: null where the type is nullable, an integer in the
/// range of an integer type, UTF-8 bytes for a text, and any bytes for a blob.
pub fn fits(ty: ValType, nullable: bool, val: &Val) -> bool
    ensures test { result ≡ fits_of ty nullable val.now }
    ensures means { IsTrue result ↔ Fits ty nullable val.now }
{
    match val {
        Val::Null => nullable,
        Val::Int(number) => { ty.is_integer() && ty.least() <= *number && *number <= ty.greatest() }
        Val::Bytes(bytes) => match ty {
            ValType::Text => is_text(bytes.as_slice()),
            ValType::Blob => true,
            _ => false,
        },
    }
}

/// Whether bytes are text in UTF-8.
#[tactic(auto, using(crate::proofs::Texts::is_utf8_true, crate::proofs::Texts::is_utf8_false, crate::proofs::Texts::text_of_test))]
pub fn is_text(bytes: &[u8]) -> bool
    ensures test { result ≡ is_utf8 bytes.now }
    ensures means { IsTrue result ↔ IsUtf8 bytes.now }
{
    match str::from_utf8(bytes) {
        Ok(_) => true,
        Err(_) => false,
    }
}

/// A value fits a type exactly where it passes the test, and the default fill of a type fits it.
/// The call itself does nothing.
pub fn fits_are_tested()
    ensures tests { (ty : AnyType) (nullable : Bool) (val : AnyVal) → IsTrue (fits_of ty nullable val) ↔ Fits ty nullable val }
    ensures fills { (ty : AnyType) (nullable : Bool) → Fits ty nullable (fill_of ty nullable) }
{}
