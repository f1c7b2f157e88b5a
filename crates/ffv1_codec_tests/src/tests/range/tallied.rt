//! Symbols of a row by their nonzero numbers, and zeros by one state.

use ffv1_range::{Fault, RangeDecoder, SignedNumber, StateTable, Tally};
use std::process::Abort;

/// What a code is read as by the states of the second row, and what the decoder counts of it.
fn tallies(code: &[u8]) -> Result<(Result<Option<SignedNumber>, Fault>, Tally), Fault> {
    let table = StateTable::standard();
    let mut states = [128; 64];
    let mut decoder = RangeDecoder::new(code)?;
    let mut nonzeros = decoder.nonzeros();
    let read = decoder.tally_signed_in_row(&mut nonzeros, &table, &mut states, 1);
    let sums = match read {
        Ok(_) => nonzeros.among(1),
        Err(_) => nonzeros.among_refused(0),
    };
    decoder.count_all(&sums);
    Ok((read, decoder.tally()))
}

/// A code is read as this number, by so many decisions 1 and 0, and so many renormalisations.
fn tallied(
    rt: &impl Abort,
    code: &[u8],
    number: Option<SignedNumber>,
    ones: u64,
    zeros: u64,
    renormalisations: u64,
) {
    let counted = Tally {
        ones,
        zeros,
        renormalisations,
    };
    assert!(rt; tallies(code) == Ok((Ok(number), counted)));
}

/// A number of a size.
fn signed(size: u32, negative: bool) -> Option<SignedNumber> {
    Some(SignedNumber { size, negative })
}

#[test]
fn numbers(rt: HostRuntime) {
    tallied(&rt, &[0x80], None, 1, 0, 0);
    tallied(&rt, &[0x20], signed(1, true), 1, 2, 0);
    tallied(&rt, &[0x50], signed(3, false), 2, 3, 0);
    tallied(&rt, &[0x5f, 0xa0], signed(4, false), 2, 5, 0);
    tallied(&rt, &[0x7e, 0x81, 0x80], signed(128, true), 8, 9, 2);
    let long = [0x7f, 0x7f, 0xfb, 0x49, 0x00, 0x00];
    tallied(&rt, &long, signed(1_073_741_824, false), 30, 33, 5);
}

/// Whether two zeros come next, each read by one state, the state after them, and the number that
/// comes then by states of its own.
fn takes(code: &[u8]) -> Result<(bool, bool, u8, Result<i32, Fault>), Fault> {
    let table = StateTable::standard();
    let (mut state, mut states) = (128, [128; 32]);
    let mut decoder = RangeDecoder::new(code)?;
    let first = decoder.take_zero(&table, &mut state);
    let second = decoder.take_zero(&table, &mut state);
    Ok((
        first,
        second,
        state,
        decoder.get_signed(&table, &mut states),
    ))
}

#[test]
fn zeros(rt: HostRuntime) {
    assert!(rt; takes(&[0x20]) == Ok((false, false, 128, Ok(-1))));
    assert!(rt; takes(&[0xb2, 0x4d]) == Ok((true, false, 134, Ok(-5))));
    assert!(rt; takes(&[0xd8, 0x6c]) == Ok((true, true, 140, Ok(7))));
}
