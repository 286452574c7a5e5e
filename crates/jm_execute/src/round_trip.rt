// A class written as a class file, and read again.

ghost use Rattle.std.specs.Prelude.{◌≡◌, IfOk, IfErr, Err};
ghost use Rattle.jm_class_writer.specs.declared.fault.WriteFault.TheVariants.{OutOfMemory};
ghost use Rattle.jm_class_writer.specs.ClassParts.{written};

use jm_class_format::ReadFault;
use jm_class_reader::read_class;
use jm_class_writer::{WriteFault, write_class};
use jm_program::Class;
use std::alloc::Global;

/// The class that is read from the class file that is written for a class (JVMS 4.1): that very
/// class.
///
/// # Errors
/// Those of [`write_class`]; and `61 OutOfMemory` where a growth was refused while it was read.
pub fn written_and_read(alloc: Global, class: &Class) -> Result<Class, WriteFault>
    ensures same { IfOk result (λ again. again ≡ class.now) }
    // A fault is the one of writing, but for want of memory.
    ensures fault { IfErr result (λ e. ¬ (e ≡ OutOfMemory) → written class.now ≡ Err e) }
{
    let bytes = write_class(alloc, class)?;
    match read_class(alloc, &bytes) {
        Ok(again) => Ok(again),
        Err(ReadFault::OutOfMemory) => Err(WriteFault::OutOfMemory),
        Err(_) => unreachable!(),
    }
}
