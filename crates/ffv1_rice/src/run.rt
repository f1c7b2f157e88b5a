//! Reads runs.

ghost use Rattle.std.specs.Prelude.{◌≡◌, ◌≤◌, ◌<◌, IfOk, IfErr, IsErrOf};
ghost use Rattle.ffv1_rice.specs.Run.{EndsInRun, IsRun, LeavesRow, run_log};

use crate::bits::Bits;
use crate::fault::Fault;
use crate::number::lowest;

/// The binary logarithm of how many differences a 1 of a run stands for (RFC 9043, 3.8.2.2.1).
const RUN_LOGS: [u8; 41] = [
    0, 0, 0, 0, 1, 1, 1, 1, 2, 2, 2, 2, 3, 3, 3, 3, 4, 4, 5, 5, 6, 6, 7, 7, 8, 9, 10, 11, 12, 13,
    14, 15, 16, 17, 18, 19, 20, 21, 22, 23, 24,
];

/// What comes next of a run of differences that are 0.
#[derive(Clone, Copy, Debug, PartialEq, Eq)]
pub struct Run {
    /// How many differences are 0.
    pub zeros: usize,
    /// Whether one follows that is not, and ends the run.
    pub is_broken: bool,
}

/// The logarithm by a run's index.
#[inline(always)]
fn run_log_of(index: u32) -> u32
    requires { index ≤ 40 }
    ensures value { result ≡ run_log index }
    ensures few { result ≤ 24 }
{
    u32::from(RUN_LOGS[index as usize])
}

/// Reads what comes next of a run where `left` places of a row are left, at least one. Behind a 1
/// of a run that does not end with the row the run's `index`, at most 40, is greater by 1; after a
/// run that is broken it is less by 1, if it was above 0 (RFC 9043, 3.8.2.2.1).
///
/// `BitsEnd` if the bits end there, `BadCode` if the run is broken where the row has ended. Then no
/// bit counts as read, and the index is as before.
#[inline(always)]
pub fn read_run(bits: &mut Bits<'_>, index: &mut u32, left: usize) -> Result<Run, Fault>
    requires some { 0 < left }
    requires index { index.old ≤ 40 }
    ensures ok { IfOk result (λ r. IsRun index.old left r bits.old bits.new index.new) }
    ensures inside { IfOk result (λ r. r.zeros ≤ left) }
    ensures ends { IsErrOf result Fault.BitsEnd → EndsInRun index.old bits.old }
    ensures bad { IsErrOf result Fault.BadCode → LeavesRow index.old left bits.old }
    ensures bits_stay { IfErr result (λ f. bits.new ≡ bits.old) }
    ensures index_stays { IfErr result (λ f. index.new ≡ index.old) }
{
    let window = bits.peek();
    let log = run_log_of(*index);
    if window >> 31 != 0 {
        bits.skip(1);
        let many = 1usize << log;
        if left < many {
            return Ok(Run {
                zeros: left,
                is_broken: false,
            });
        }
        *index += 1;
        return Ok(Run {
            zeros: many,
            is_broken: false,
        });
    }
    if !bits.has(1 + log) {
        return Err(Fault::BitsEnd);
    }
    let zeros = lowest(window >> (31 - log), log) as usize;
    if zeros >= left {
        return Err(Fault::BadCode);
    }
    bits.skip(1 + log);
    *index = index.saturating_sub(1);
    Ok(Run {
        zeros,
        is_broken: true,
    })
}
