//! Records that no encoder wrote: damaged bit by bit.

use super::orders::NO_COLOUR;
use ffv1_engine::{Choice, CodecIdChoice, CoderChoice, Fault, Profile, check, pack};
use ffv1_record::RecordFault;
use ffv1_wire::{FromRead, ToWrite};
use std::alloc::Global;
use std::test::Fail;

/// The file of the sample 0, with a parity.
fn file(alloc: Global) -> Result<Vec<u8>, Fault> {
    let choice = Choice {
        coder: CoderChoice::Standard,
        large: false,
        columns: 1,
        rows: 1,
        default_grid: false,
        ec: true,
        rate: 25,
        scale: 1,
        verify: false,
        codec_id: CodecIdChoice::Native,
        codec_id_given: false,
        rate_given: false,
        colour: NO_COLOUR,
    };
    let mut input = FromRead::new(b"YUV4MPEG2 W1 H1 Cmono\nFRAME\n\0".as_slice());
    let mut output = ToWrite::new(Vec::new(alloc));
    pack(alloc, Profile::Strict, &mut input, &mut output, &choice)?;
    Ok(output.into_inner())
}

/// What a check of a file with other bits in a byte answers, and how much it writes.
fn checked(alloc: Global, file: &mut [u8], place: usize, bits: u8) -> (Result<(), Fault>, usize) {
    if place < file.len() {
        file[place] ^= bits;
    }
    let mut output = ToWrite::new(Vec::new(alloc));
    let answer = check(
        alloc,
        Profile::Strict,
        &mut FromRead::new(&*file),
        &mut output,
        true,
    );
    if place < file.len() {
        file[place] ^= bits;
    }
    (answer.map(|_| ()), output.into_inner().len())
}

/// Each bit of the record of a file is flipped, which is the 26 bytes from the 212th on; then its
/// width is the greatest number.
#[test]
fn each_bit_of_a_record(rt: HostRuntime) -> Result<(), Fail> {
    let mut file = file(rt.alloc())?;
    for bit in 0..208usize {
        let got = checked(rt.alloc(), &mut file, 212 + bit / 8, 128 >> (bit % 8));
        assert!(rt; got == (Err(Fault::Record(RecordFault::Parity)), 0));
    }
    assert!(rt; checked(rt.alloc(), &mut file, 0, 0) == (Ok(()), 51));
    if file.len() >= 180 {
        file[176..180].fill(255);
    }
    assert!(rt; checked(rt.alloc(), &mut file, 0, 0) == (Err(Fault::Record(RecordFault::Size)), 0));
    Ok(())
}
