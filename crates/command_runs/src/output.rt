//! The program's output, which gathers short writes.
ghost use Rattle.std.specs.Prelude.{◌≡◌, [], IfOk, IfErr};
ghost use Rattle.std.specs.Io.Buffered.{writer_buffer, writer_capacity, writer_inner};
ghost use Rattle.byte_streams.specs.Device.{failures_of, inner_of};

use byte_streams::limits::MAX_PIECE_BYTES;
use byte_streams::{Device, Fault};
use std::alloc::Global;
use std::io::{BufWriter, Write};

/// A sink that gathers short writes, and passes them on where its room is taken or it is flushed.
///
/// # Errors
///
/// [`Fault::Memory`] where there is not enough memory for its room.
pub fn buffered<W: Write + Drop>(alloc: Global, output: W) -> Result<Device<BufWriter<W>>, Fault>
    ensures inner { IfOk result (λ device. writer_inner (inner_of device) ≡ output) }
    ensures empty { IfOk result (λ device. writer_buffer (inner_of device) ≡ []) }
    ensures room { IfOk result (λ device. writer_capacity (inner_of device) ≡ MAX_PIECE_BYTES) }
    ensures failures { IfOk result (λ device. failures_of device ≡ 0) }
    ensures fault { IfErr result (λ fault. fault ≡ Fault.Memory) }
{
    match BufWriter::with_capacity(alloc, MAX_PIECE_BYTES, output) {
        Ok(writer) => Ok(Device::new(writer)),
        Err(_) => Err(Fault::Memory),
    }
}
