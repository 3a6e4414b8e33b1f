//! Values that are written to a sink one after the other, many together.

ghost use Rattle.std.specs.Prelude.{◌≡◌, ◌+◌, ◌-◌, ◌^◌, ◌<◌, ◌≤◌, vec_capacity, IsErrOf, OnErr, OnOk};
ghost use Rattle.nfs_server.specs.Device.{device_of_sink};
ghost use Rattle.nfs_program.specs.Pieces.{ArePut, HasPlace, HasRoom, HavePlace, HaveRoom, waiting};
ghost use Rattle.xdr.specs.Form.{many};
ghost use Rattle.xdr.specs.Layout.{NO_LIMIT};
ghost use Rattle.xdr.specs.declared.wire_error.WireError.TheVariants as errors;

use crate::values::Values;
use nfs_server::{DeviceFailed, Sink, write_to};
use xdr::{Wire, WireError};

/// Once more bytes than this wait, they are written before the next value is put behind them.
pub(crate) const WAIT_LIMIT: usize = 65_536;

/// Looks whether the value fits its form, and has the buffer grow until there is room for it behind the bytes that may
/// wait there. The bytes in the buffer are lost. TooLong if the value doesn't fit, Memory only if there was no room.
pub(crate) fn make_place<T: Wire>(buffer: &mut Vec<u8>, value: &T) -> Result<(), WireError>
    ensures ok { OnOk result (HasPlace T.form (vec_capacity buffer.new) value.now) }
    ensures memory { IsErrOf result errors.Memory
        → ¬ (HasRoom T.form (vec_capacity buffer.old) value.now) }
    ensures long { IsErrOf result errors.TooLong → ¬ (T.form.Fits value.now) }
    ensures short { IsErrOf result errors.Short → ⊥ }
    ensures room { vec_capacity buffer.old ≤ vec_capacity buffer.new }
{
    buffer.clear();
    value.write(buffer)?;
    buffer.reserve(WAIT_LIMIT)?;
    Ok(())
}

/// Looks whether each of the values and their count fits its form, and has the buffer grow as `make_place` does.
pub(crate) fn make_places<T: Wire, V: Values<T>>(
    buffer: &mut Vec<u8>,
    values: &V,
) -> Result<(), WireError>
    ensures ok { OnOk result (HavePlace T.form (vec_capacity buffer.new) (V.values values.now)) }
    ensures memory { IsErrOf result errors.Memory
        → ¬ (HaveRoom T.form (vec_capacity buffer.old) (V.values values.now)) }
    ensures long { IsErrOf result errors.TooLong
        → ¬ ((many NO_LIMIT T.form).Fits (V.values values.now)) }
    ensures short { IsErrOf result errors.Short → ⊥ }
    ensures room { vec_capacity buffer.old ≤ vec_capacity buffer.new }
{
    let Ok(count) = u32::try_from(values.count()) else {
        return Err(WireError::TooLong);
    };
    make_place(buffer, &count)?;
    for number in 0..values.count() {
        make_place(buffer, values.value(number))?;
    }
    Ok(())
}

/// Puts the bytes of a value behind those that wait, which are written first where there are many.
pub(crate) fn put<T: Wire, J: Sink>(
    file: &mut J,
    buffer: &mut Vec<u8>,
    value: &T,
) -> Result<(), DeviceFailed>
    requires writes { J.failures file.old < 2 ^ 64 - 1 }
    requires place { HasPlace T.form (vec_capacity buffer.old) value.now }
    ensures put { ArePut (device_of_sink J.takes J.fails) (waiting file.old buffer.old.items)
        (T.form.encoding value.now) result (waiting file.new buffer.new.items) }
    ensures kept { OnOk result (J.failures file.new ≡ J.failures file.old) }
    ensures failed { OnErr result (J.failures file.new ≡ J.failures file.old + 1) }
    ensures room { vec_capacity buffer.old ≤ vec_capacity buffer.new }
{
    if buffer.len() > WAIT_LIMIT {
        write_to(file, buffer.as_slice())?;
        buffer.clear();
    }
    value.write(buffer).unwrap();
    Ok(())
}

/// Puts the count of the values, and their bytes.
pub(crate) fn put_many<T: Wire, V: Values<T>, J: Sink>(
    file: &mut J,
    buffer: &mut Vec<u8>,
    values: &V,
) -> Result<(), DeviceFailed>
    requires writes { J.failures file.old < 2 ^ 64 - 1 }
    requires places { HavePlace T.form (vec_capacity buffer.old) (V.values values.now) }
    ensures put { ArePut (device_of_sink J.takes J.fails) (waiting file.old buffer.old.items)
        ((many NO_LIMIT T.form).encoding (V.values values.now)) result
        (waiting file.new buffer.new.items) }
    ensures kept { OnOk result (J.failures file.new ≡ J.failures file.old) }
    ensures failed { OnErr result (J.failures file.new ≡ J.failures file.old + 1) }
    ensures room { vec_capacity buffer.old ≤ vec_capacity buffer.new }
{
    put(file, buffer, &(values.count() as u32))?;
    for number in 0..values.count() {
        put(file, buffer, values.value(number))?;
    }
    Ok(())
}
