//! Reads numbers.

ghost use Rattle.std.specs.Prelude.{◌≡◌, ◌+◌, ◌%◌, ◌^◌, ◌<◌, ◌≤◌, ◌++◌, IfOk, IfErr, IsErrOf};
ghost use Rattle.std.specs.Prelude.{take};
ghost use Rattle.std.specs.Int.{w32, leading_zeros};
ghost use Rattle.ffv1_rice.specs.Bits.{binary};
ghost use Rattle.ffv1_rice.specs.Number.{number_bits, IsShort, IsWhole, Ends, IsBad};

use crate::bits::Bits;
use crate::fault::Fault;

/// How many zeros begin a number that is written whole (RFC 9043, 3.8.2.1.1).
const LIMIT: u32 = 12;

/// The lowest bits of a number.
#[inline(always)]
pub(crate) fn lowest(number: u32, count: u32) -> u32
    requires { count < 32 }
    ensures { result ≡ number % 2 ^ count }
{
    number & ((1 << count) - 1)
}

/// The number whose zeros, a 1 and `k` bits begin a window.
#[inline(always)]
fn short_number(window: u32, zeros: u32, k: u32) -> u32
    requires zeros { zeros ≡ leading_zeros w32 window }
    requires few { zeros < 12 }
    requires k { k ≤ 9 }
    ensures { IsShort k result (take (zeros + 1 + k) (binary 32 window)) }
{
    (zeros << k) + lowest(window >> (31 - zeros - k), k)
}

/// The number that is written whole at the beginning of a window.
#[inline(always)]
fn whole_number(window: u32, bits: u32) -> u32
    requires zeros { 12 ≤ leading_zeros w32 window }
    requires bits { bits ≤ 9 }
    ensures { IsWhole bits result (take (12 + bits) (binary 32 window)) }
{
    LIMIT - 1 + lowest(window >> (20 - bits), bits)
}

impl<'a> Bits<'a> {
    /// Reads a number below `2^bits` of which `k` low bits are written as they are (RFC 9043,
    /// 3.8.2.1); `k` and `bits` are at most 9.
    ///
    /// `BitsEnd` if the bits end within a number. `BadCode` if it is `2^bits` or more, or is
    /// written whole though `2^k` is in it less than 12 times. Then no bit counts as read.
    #[inline(always)]
    pub fn read_number(&mut self, k: u32, bits: u32) -> Result<u32, Fault>
        requires k { k ≤ 9 }
        requires bits { bits ≤ 9 }
        ensures ok { IfOk result (λ n. self.old ≡ number_bits bits k n ++ self.new) }
        ensures few { IfOk result (λ n. n < 2 ^ bits) }
        ensures ends { IsErrOf result Fault.BitsEnd → Ends bits k self.old }
        ensures bad { IsErrOf result Fault.BadCode → IsBad bits k self.old }
        ensures stays { IfErr result (λ f. self.new ≡ self.old) }
    {
        let window = self.peek();
        let zeros = window.leading_zeros();
        if zeros < LIMIT {
            let number = short_number(window, zeros, k);
            let long = zeros + 1 + k;
            if !self.has(long) {
                return Err(Fault::BitsEnd);
            }
            if number >> bits != 0 {
                return Err(Fault::BadCode);
            }
            self.skip(long);
            return Ok(number);
        }
        let number = whole_number(window, bits);
        let long = LIMIT + bits;
        if !self.has(long) {
            return Err(Fault::BitsEnd);
        }
        if number >> bits != 0 {
            return Err(Fault::BadCode);
        }
        if number >> k < LIMIT {
            return Err(Fault::BadCode);
        }
        self.skip(long);
        Ok(number)
    }
}
