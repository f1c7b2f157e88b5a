//! Payloads are decoded, into sinks that keep, drop or refuse lines.

ghost use Rattle.std.specs.Prelude.{◌≡◌, ◌++◌};

use ffv1_codec::{CodecFault, DropLines, FrameDecoder, FrameFault, KeepLines};
use ffv1_doubles::made;
use ffv1_range::Tally;
use ffv1_record::Checked;
use ffv1_wire::{LineSink, SinkFault};
use std::alloc::Global;
use std::test::Fail;

/// Pictures of one plane of 2 by 2 samples.
fn square(alloc: Global) -> Result<Checked, Fail> {
    let checked = made::mono(alloc, 2, 2, 1, false)?.check()?;
    Ok(checked)
}

/// Pictures of one sample in each of three planes.
fn three(alloc: Global) -> Result<Checked, Fail> {
    let mut config = made::mono(alloc, 1, 1, 1, false)?;
    config.chroma_planes = true;
    let checked = config.check()?;
    Ok(checked)
}

/// A fault in a slice, with no other place.
fn fault(fault: CodecFault, slice: u16) -> Option<FrameFault> {
    Some(FrameFault {
        fault,
        slice,
        plane: 0,
        line: 0,
        x: 0,
    })
}

/// Keeps the samples of its lines, and refuses one line, after so many.
#[derive(Drop)]
struct KeepSamples {
    samples: Vec<u8>,
    before: u64,
    failures: u64,
}

impl KeepSamples {
    fn new(alloc: Global, before: u64) -> KeepSamples {
        KeepSamples {
            samples: Vec::new(alloc),
            before,
            failures: 0,
        }
    }

    fn samples(&self) -> &[u8] {
        self.samples.as_slice()
    }
}

impl LineSink for KeepSamples {
    ghost takes = { λ s _ _ samples t. t.samples.items ≡ s.samples.items ++ samples };

    ghost refuses = { λ s _ _ samples t. t.samples.items ≡ s.samples.items };

    ghost failures = { λ s. s.failures };

    fn line(&mut self, _plane: u8, _y: u16, samples: &[u8]) -> Result<(), SinkFault> {
        let before = self.before;
        self.before = before.wrapping_sub(1);
        if before != 0 && self.samples.extend_from_slice(samples).is_ok() {
            return Ok(());
        }
        self.failures = self.failures.wrapping_add(1);
        Err(SinkFault)
    }
}

/// The fault of a picture of two lines whose sink refuses one after so many, the decisions up to
/// there, and the refusals. Also whether the sink then has these samples, and takes all of the
/// picture when it is decoded again.
fn refused_line(
    alloc: Global,
    lines: u64,
    samples: &[u8],
) -> Result<(Option<FrameFault>, u64, u64, bool), Fail> {
    let checked = square(alloc)?;
    let mut sink = KeepSamples::new(alloc, lines);
    let mut decoder = FrameDecoder::new(alloc, checked)?;
    let payload = [0xFE, 0x6C, 0xAF, 0x59, 0x7A, 0x88, 0, 0, 6];
    let fault = decoder.decode(&payload, &mut sink).err();
    let (decisions, failures) = (decoder.decisions(), sink.failures);
    let before = sink.samples() == samples;
    let again = decoder.decode(&payload, &mut sink).is_ok();
    let after = sink.samples().strip_prefix(samples) == Some(&[10, 20, 30, 40]);
    Ok((fault, decisions, failures, before && again && after))
}

#[test]
fn refused_lines(rt: HostRuntime) -> Result<(), Fail> {
    let alloc = rt.alloc();
    let got = refused_line(alloc, 0, &[])?;
    assert!(rt; got == (fault(CodecFault::Sink, 0), 28, 1, true));
    let got = refused_line(alloc, 1, &[10, 20])?;
    let second = Some(FrameFault {
        fault: CodecFault::Sink,
        slice: 0,
        plane: 0,
        line: 1,
        x: 0,
    });
    assert!(rt; got == (second, 48, 1, true));
    let got = refused_line(alloc, 9, &[10, 20, 30, 40])?;
    assert!(rt; got == (None, 48, 0, true));
    Ok(())
}

/// What two frames in a row take, of one decoder, and whether the first one's picture stayed.
fn twice(alloc: Global) -> Result<(Tally, bool), Fail> {
    let checked = three(alloc)?;
    let mut sink = DropLines::new(&checked);
    let mut decoder = FrameDecoder::new(alloc, checked)?;
    let first = decoder.decode(&[0xFE, 0xDE, 0, 0, 2], &mut sink);
    let bad = decoder.decode(&[0, 0, 0], &mut sink);
    let again = decoder.decode(&[0xFE, 0xDE, 0, 0, 2], &mut sink);
    let right = first.is_ok() && bad.is_err() && first == again && sink.failures() == 0;
    Ok((
        decoder.tally(),
        right && decoder.config().held().offsets == 1025,
    ))
}

#[test]
fn one_decoder(rt: HostRuntime) -> Result<(), Fail> {
    let (tally, right) = twice(rt.alloc())?;
    let ones = Tally {
        ones: 13,
        zeros: 0,
        renormalisations: 1,
    };
    assert!(rt; right);
    assert!(rt; tally == ones);
    Ok(())
}

/// Whether a sink of one plane of 2 by 2 samples takes its lines, and no others.
fn takes_its_lines<S: LineSink>(sink: &mut S) -> bool {
    let first = sink.line(0, 0, &[1, 2]).is_ok();
    let last = sink.line(0, 1, &[3, 4]).is_ok();
    let plane = sink.line(1, 0, &[5, 6]).is_err();
    let height = sink.line(0, 2, &[5, 6]).is_err();
    let width = sink.line(0, 0, &[5]).is_err();
    first && last && plane && height && width
}

/// What is kept of those lines, and how many were refused.
fn kept(alloc: Global) -> Result<(bool, bool, u64, u64), Fail> {
    let checked = square(alloc)?;
    let mut keep = KeepLines::new(alloc, &checked)?;
    let mut drop = DropLines::new(&checked);
    let taken = takes_its_lines(&mut keep) && takes_its_lines(&mut drop);
    let stand = keep.planes().len() == 1 && keep.planes()[0].as_slice() == [1, 2, 3, 4].as_slice();
    Ok((taken, stand, keep.failures(), drop.failures()))
}

/// What a sink shows that keeps the second line of two alone, and what before it kept any.
fn second_alone(alloc: Global) -> Result<(bool, bool), Fail> {
    let checked = square(alloc)?;
    let mut keep = KeepLines::new(alloc, &checked)?;
    let none = keep.planes()[0].as_slice() == [0, 0, 0, 0].as_slice();
    let mut late = KeepLines::new(alloc, &checked)?;
    let taken = late.line(0, 1, &[3, 4]).is_ok();
    Ok((
        none,
        taken && late.planes()[0].as_slice() == [0, 0, 3, 4].as_slice(),
    ))
}

/// A line that is missing is zeros.
#[test]
fn missing_lines(rt: HostRuntime) -> Result<(), Fail> {
    let got = second_alone(rt.alloc())?;
    assert!(rt; got == (true, true));
    Ok(())
}

#[test]
fn sinks(rt: HostRuntime) -> Result<(), Fail> {
    let got = kept(rt.alloc())?;
    assert!(rt; got == (true, true, 3, 3));
    Ok(())
}
