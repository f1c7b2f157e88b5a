//! What stands after the coded bytes of a slice.

ghost use Rattle.std.specs.Prelude.{◌≡◌, ◌<◌, ◌≤◌, ◌↔◌, IfOk, IfErr, IsErrOf, length, true, false};
ghost use Rattle.ffv1_slice.specs.Footer.{footer_of};
ghost use Rattle.ffv1_slice.specs.declared.fault.SliceFault.TheVariants as fault;

use crate::fault::SliceFault;
use crate::footer_bytes::Footer;
use ffv1_record::{parity, parity_behind};

/// The greatest number that a footer says in its three bytes.
const GREATEST_SIZE: usize = 16777215;

/// The footer of coded bytes: their number in three bytes, big end first, and with ec a status of 0
/// and the parity, by which the whole slice has the remainder 0. Answers `SliceTooLong` exactly
/// if there are more than 16777215 bytes, and no other fault: it takes no memory.
pub fn footer(coded: &[u8], ec: bool) -> Result<Footer, SliceFault>
    ensures ok { IfOk result (λ f. f ≡ footer_of ec coded.now) }
    ensures too_long { IsErrOf result SliceFault.SliceTooLong ↔ (16777215 < length coded.now) }
    ensures err { IfErr result (λ f. f ≡ fault.SliceTooLong) }
{
    if coded.len() > GREATEST_SIZE {
        return Err(SliceFault::SliceTooLong);
    }
    let size = coded.len() as u32;
    let (high, middle, low) = (
        (size / 65536) as u8,
        (size / 256 % 256) as u8,
        (size % 256) as u8,
    );
    if !ec {
        return Ok(Footer {
            bytes: [high, middle, low, 0, 0, 0, 0, 0],
            count: 3,
        });
    }
    let seal = parity_behind(parity(coded), &[high, middle, low, 0]);
    let [first, second, third, fourth] = seal.to_be_bytes();
    Ok(Footer {
        bytes: [high, middle, low, 0, first, second, third, fourth],
        count: 8,
    })
}
