//! What holds for each form, as functions that do nothing and whose contracts state it.

ghost use Rattle.std.specs.Prelude.{◌≡◌, ◌↔◌, ◌++◌, ℕ, List, Ok};
ghost use Rattle.xdr.specs.Reading.{Begins};

use crate::Wire;

/// A value that was written is read again, whatever follows it. The value read at the front of bytes is the one that
/// these bytes encode, so no bytes encode two values.
pub fn written_is_read_again<T: Wire>()
    ensures again { (value : T) (rest : List ℕ) → T.form.Fits value
        → T.form.at (T.form.encoding value ++ rest) ≡ Ok (value, rest) }
    ensures one { (value : T) (bytes rest : List ℕ)
        → (T.form.at bytes ≡ Ok (value, rest)) ↔ Begins (T.form.layout value) bytes rest }
{}
