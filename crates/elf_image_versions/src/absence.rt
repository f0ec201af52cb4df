ghost use Rattle.elf_image_versions.specs.WalkSteps.{IsFound};

use elf_format::view_fault::ViewFault;
use std::alloc::AllocError;

// What was read, or none where it isn't there.
pub(crate) fn allow_absent<T>(read: Result<T, ViewFault>) -> Result<Option<T>, AllocError>
    ensures { IsFound read result }
{
    match read {
        Ok(value) => Ok(Some(value)),
        Err(ViewFault::Absent) => Ok(None),
        Err(ViewFault::Memory) => Err(AllocError),
    }
}
