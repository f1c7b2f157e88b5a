//! Writes Clusters, one for each frame.

ghost use Rattle.std.specs.Prelude.{◌≡◌, ◌<◌, ◌-◌, ◌^◌, ◌++◌, length};
ghost use Rattle.ffv1_wire.specs.Passage.{passage};
ghost use Rattle.ffv1_reads.specs.Writes.{Writes};
ghost use Rattle.ffv1_matroska.specs.Written.{cluster_element};
ghost use Rattle.ffv1_matroska.specs.WrittenPlaces.{content_limit};

use crate::idents::{CLUSTER, SIMPLE_BLOCK, TIMESTAMP};
use crate::write::bytes::Bytes;
use crate::write::send::send;
use ffv1_reads::FileFault;
use ffv1_sum::more;
use ffv1_wire::ByteOut;

/// The header of a block: of the track 1, at the Cluster's own time, a key frame.
const BLOCK: &[u8] = &[0x81, 0, 0, 0x80];

/// A Cluster up to its frame, which ends it.
fn cluster_front(number: u64, frame: &[u8]) -> Bytes
    requires { length frame.now < content_limit }
    ensures { result ++ frame.now ≡ cluster_element number frame.now }
{
    let mut content = Bytes::new();
    content.number(TIMESTAMP, 8, number);
    content.long(SIMPLE_BLOCK, (4 + frame.len()) as u64);
    content.put(BLOCK);
    let sum = more(more(!0, content.as_slice()), frame) ^ !0;
    let mut front = Bytes::new();
    front.long(CLUSTER, (6 + content.len() + frame.len()) as u64);
    front.sum(sum);
    front.put(content.as_slice());
    front
}

/// Writes the Cluster of the frame that has so many before it.
pub(crate) fn put_cluster<W: ByteOut>(
    out: &mut W,
    number: u64,
    frame: &[u8],
) -> Result<(), FileFault>
    requires { length frame.now < content_limit }
    ensures { Writes (passage W.contents W.failures out.old out.new)
        (cluster_element number frame.now) result }
{
    send(out, cluster_front(number, frame).as_slice())?;
    send(out, frame)
}
