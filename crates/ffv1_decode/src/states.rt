//! The states of a row of slices.

ghost use Rattle.std.specs.Prelude.{◌≡◌, true, false, length, replicate};
ghost use Rattle.ffv1_record.specs.Accepted.{is_rice};
ghost use Rattle.ffv1_decode.specs.Internal.LeftBits.{AreFresh, AreKept};
ghost use Rattle.ffv1_decode.specs.Internal.Tied.{IsFrame, row_slots};

use crate::parts::Frame;
use ffv1_line::reset as reset_line;
use ffv1_range::laws as range_laws;
use ffv1_record::laws as record_laws;
use ffv1_rice::kept::reset as reset_rice;
use std::alloc::Allocator;

/// Makes the states of a row of slices fresh: those of range coded samples are 128 (RFC 9043,
/// 3.8.1.3), those of Golomb-Rice coded ones say what is known before the first difference
/// (3.8.2.4).
pub(crate) fn renew_states<A: Allocator>(frame: &Frame<'_, A>, states: &mut [u8])
    requires frame { IsFrame frame.now }
    requires room { length states.old ≡ row_slots frame.now.checked.now.configuration }
    ensures range { is_rice frame.now.checked.now.configuration.coder ≡ false →
        states.new ≡ replicate (length states.old) 128 }
    ensures rice { is_rice frame.now.checked.now.configuration.coder ≡ true →
        AreFresh states.new }
    ensures kept { AreKept frame.now.checked.now states.new }
{
    range_laws::each_decision_has_a_state();
    record_laws::accepted_configuration_has_sound_parts();
    if frame.is_rice() {
        reset_rice(states);
        return;
    }
    reset_line(states);
}
