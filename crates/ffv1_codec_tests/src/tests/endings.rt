//! Slices that end where their coder does, and slices that do not: refused at the wide profile, and
//! taken at the strict one. The answers are the model's.

use ffv1_codec::{CodecFault, DropLines, FrameDecoder, FrameFault};
use ffv1_doubles::made;
use ffv1_record::{Checked, Colour, Profile};
use std::alloc::Global;
use std::process::Abort;
use std::test::Fail;

/// Pictures without parity: their size, how many columns of slices they have, and their planes.
#[derive(Clone, Copy)]
struct Kind {
    width: u32,
    height: u32,
    columns: u32,
    colour: Colour,
    chroma_planes: bool,
}

static ONE: Kind = Kind {
    width: 1,
    height: 1,
    columns: 1,
    colour: Colour::YCbCr,
    chroma_planes: false,
};

static FOUR: Kind = Kind {
    width: 2,
    height: 2,
    ..ONE
};

static TWO: Kind = Kind {
    width: 2,
    columns: 2,
    ..ONE
};

static THREE: Kind = Kind {
    chroma_planes: true,
    ..ONE
};

static RED: Kind = Kind {
    colour: Colour::Rct,
    ..THREE
};

/// Pictures of a kind, in a profile.
fn pictures(alloc: Global, kind: Kind, profile: Profile) -> Result<Checked, Fail> {
    let mut config = made::mono(alloc, kind.width, kind.height, kind.columns, false)?;
    config.colour = kind.colour;
    config.chroma_planes = kind.chroma_planes;
    Ok(config.check_in(profile, 8, 8)?)
}

/// Why a payload is not decoded in a profile, and how many decisions were made.
fn answer(
    alloc: Global,
    kind: Kind,
    profile: Profile,
    payload: &[u8],
) -> Result<(Option<FrameFault>, u64), Fail> {
    let checked = pictures(alloc, kind, profile)?;
    let mut sink = DropLines::new(&checked);
    let mut decoder = FrameDecoder::new(alloc, checked)?;
    let fault = decoder.decode(payload, &mut sink).err();
    let tally = decoder.tally();
    Ok((fault, tally.ones.saturating_add(tally.zeros)))
}

/// No end after this line of a plane of a slice.
fn ending(slice: u16, plane: u8, line: u16) -> Option<FrameFault> {
    Some(FrameFault {
        fault: CodecFault::Ending,
        slice,
        plane,
        line,
        x: 0,
    })
}

/// Whether a payload is answered so at the wide profile, and decoded at the strict one.
fn ends(
    rt: &impl Abort,
    alloc: Global,
    kind: Kind,
    payload: &[u8],
    wide: (Option<FrameFault>, u64),
) -> Result<(), Fail> {
    assert!(rt; answer(alloc, kind, Profile::Wide, payload)? == wide);
    assert!(rt; answer(alloc, kind, Profile::Strict, payload)?.0 == None);
    Ok(())
}

#[test]
fn another_last_byte(rt: HostRuntime) -> Result<(), Fail> {
    let alloc = rt.alloc();
    ends(&rt, alloc, ONE, b"\xFE\x7B\0\0\x02", (None, 11))?;
    ends(&rt, alloc, ONE, b"\xFE\xBC\0\0\x02", (None, 11))?;
    ends(&rt, alloc, ONE, b"\xFE\xBD\0\0\x02", (ending(0, 0, 0), 11))?;
    ends(
        &rt,
        alloc,
        FOUR,
        b"\xFE\x6C\xAF\x59\x7A\x89\0\0\x06",
        (None, 48),
    )?;
    Ok(())
}

#[test]
fn bytes_cut_off(rt: HostRuntime) -> Result<(), Fail> {
    let alloc = rt.alloc();
    ends(&rt, alloc, ONE, b"\xFE\0\0\x01", (ending(0, 0, 0), 13))?;
    ends(
        &rt,
        alloc,
        FOUR,
        b"\xFE\x6C\xAF\x59\x7A\0\0\x05",
        (ending(0, 0, 1), 46),
    )?;
    ends(
        &rt,
        alloc,
        FOUR,
        b"\xFE\x6C\xAF\x59\0\0\x04",
        (ending(0, 0, 1), 38),
    )?;
    Ok(())
}

#[test]
fn bytes_too_many(rt: HostRuntime) -> Result<(), Fail> {
    let alloc = rt.alloc();
    ends(
        &rt,
        alloc,
        ONE,
        b"\xFE\x7B\0\0\0\x03",
        (ending(0, 0, 0), 11),
    )?;
    ends(
        &rt,
        alloc,
        THREE,
        b"\xFE\xDE\0\0\0\x03",
        (ending(0, 2, 0), 13),
    )?;
    let red = b"\xFE\x78\xDF\x83\xD9\x2C\0\0\0\x07";
    ends(&rt, alloc, RED, red, (ending(0, 2, 0), 45))?;
    Ok(())
}

#[test]
fn one_slice_of_two(rt: HostRuntime) -> Result<(), Fail> {
    let alloc = rt.alloc();
    let first = b"\xFE\x7B\0\0\0\x03\x3F\x76\0\0\x02";
    ends(&rt, alloc, TWO, first, (ending(0, 0, 0), 21))?;
    let second = b"\xFE\x7B\0\0\x02\x3F\x76\0\0\0\x03";
    ends(&rt, alloc, TWO, second, (ending(1, 0, 0), 22))?;
    Ok(())
}

/// A colour that is none, of a slice that lost its last byte: that it does not end comes first.
#[test]
fn before_a_colour(rt: HostRuntime) -> Result<(), Fail> {
    let red = b"\xFE\x78\xDF\x83\xD9\0\0\x05";
    let wide = answer(rt.alloc(), RED, Profile::Wide, red)?;
    let strict = answer(rt.alloc(), RED, Profile::Strict, red)?;
    let colour = FrameFault {
        fault: CodecFault::Colour,
        slice: 0,
        plane: 0,
        line: 0,
        x: 0,
    };
    assert!(rt; wide == (ending(0, 2, 0), 43));
    assert!(rt; strict == (Some(colour), 43));
    Ok(())
}
