//! Values one after the other, like the fields of a record: all of them are written, or none.

ghost use Rattle.std.specs.Prelude.{◌≡◌, ◌++◌};
ghost use Rattle.xdr.specs.Form.{◌and◌};
ghost use Rattle.xdr.specs.Writing.{Writes};

use crate::{Wire, WireError};

/// Writes two values at the end, or nothing.
pub fn write_two<A: Wire, B: Wire>(out: &mut Vec<u8>, a: &A, b: &B) -> Result<(), WireError>
    ensures { Writes out.old out.new result
        ((A.form and B.form).encoding (a.now, b.now)) ((A.form and B.form).Fits (a.now, b.now)) }
{
    let start = out.len();
    a.write(out)?;
    match b.write(out) {
        Ok(()) => Ok(()),
        Err(error) => {
            out.truncate(start);
            Err(error)
        }
    }
}

/// Writes three values at the end, or nothing.
pub fn write_three<A: Wire, B: Wire, C: Wire>(
    out: &mut Vec<u8>,
    a: &A,
    b: &B,
    c: &C,
) -> Result<(), WireError>
    ensures { Writes out.old out.new result
        ((A.form and B.form and C.form).encoding (a.now, (b.now, c.now)))
        ((A.form and B.form and C.form).Fits (a.now, (b.now, c.now))) }
{
    let start = out.len();
    a.write(out)?;
    match write_two(out, b, c) {
        Ok(()) => Ok(()),
        Err(error) => {
            out.truncate(start);
            Err(error)
        }
    }
}

/// Writes four values at the end, or nothing.
pub fn write_four<A: Wire, B: Wire, C: Wire, D: Wire>(
    out: &mut Vec<u8>,
    a: &A,
    b: &B,
    c: &C,
    d: &D,
) -> Result<(), WireError>
    ensures { Writes out.old out.new result
        ((A.form and B.form and C.form and D.form).encoding (a.now, (b.now, (c.now, d.now))))
        ((A.form and B.form and C.form and D.form).Fits (a.now, (b.now, (c.now, d.now)))) }
{
    let start = out.len();
    a.write(out)?;
    match write_three(out, b, c, d) {
        Ok(()) => Ok(()),
        Err(error) => {
            out.truncate(start);
            Err(error)
        }
    }
}

/// Writes five values at the end, or nothing.
pub fn write_five<A: Wire, B: Wire, C: Wire, D: Wire, E: Wire>(
    out: &mut Vec<u8>,
    a: &A,
    b: &B,
    c: &C,
    d: &D,
    e: &E,
) -> Result<(), WireError>
    ensures { Writes out.old out.new result
        ((A.form and B.form and C.form and D.form and E.form).encoding
        (a.now, (b.now, (c.now, (d.now, e.now)))))
        ((A.form and B.form and C.form and D.form and E.form).Fits
        (a.now, (b.now, (c.now, (d.now, e.now))))) }
{
    let start = out.len();
    a.write(out)?;
    match write_four(out, b, c, d, e) {
        Ok(()) => Ok(()),
        Err(error) => {
            out.truncate(start);
            Err(error)
        }
    }
}
