// The whole input of a console.
ghost use Rattle.commands.specs.Faults.{Admitted};

use crate::fault::ConsoleFault;

const MOST_BYTES: usize = 32768;

// Whether an input is short enough to be read.
pub fn admit(input: &[u8]) -> Result<(), ConsoleFault>
    ensures { Admitted input.now result }
{
    if input.len() > MOST_BYTES {
        return Err(ConsoleFault::Long);
    }
    Ok(())
}
