//! Whole frames, encoded and decoded.

use anyhow::{Context, Result, bail, ensure};
use ffv1_codec::{CodecFault, DropLines, FrameDecoder, FrameEncoder, Info, KeepLines, Picture};
use ffv1_plane::QuantSet;
use ffv1_record::{Checked, Coder, Colour, Config, Profile, Sets};
use ffv1_slice::Grid;
use std::alloc::Global;
use std::env::Args;
use std::fs;
use std::rt::{Clock, Env, Files};
use std::time::Instant;

/// The next word, as a number.
fn number(words: &mut Args, name: &'static str) -> Result<u32> {
    Ok(words.next().context(name)?.parse::<u32>()?)
}

/// The configuration of a format: `mono`, `420`, `422`, `444` or `rgb`, of 8 bits, `422p10` or
/// `rgbp10`, of 10, or `rgbp16`, of 16.
fn configuration(alloc: Global, format: &str, sizes: [u32; 4]) -> Result<Checked> {
    let [width, height, columns, rows] = sizes;
    let (colour, chroma_planes, log2_h, log2_v, depth) = match format {
        "mono" => (Colour::YCbCr, false, 0, 0, 8),
        "420" => (Colour::YCbCr, true, 1, 1, 8),
        "422" => (Colour::YCbCr, true, 1, 0, 8),
        "422p10" => (Colour::YCbCr, true, 1, 0, 10),
        "444" => (Colour::YCbCr, true, 0, 0, 8),
        "rgb" => (Colour::Rct, true, 0, 0, 8),
        "rgbp10" => (Colour::Rct, true, 0, 0, 10),
        "rgbp16" => (Colour::Rct, true, 0, 0, 16),
        _ => bail!("no such format"),
    };
    let mut sets = Sets::new(alloc);
    sets.push(QuantSet::small(alloc)?)?;
    let config = Config {
        width,
        height,
        coder: Coder::One,
        colour,
        chroma_planes,
        extra_plane: false,
        log2_h,
        log2_v,
        columns,
        rows,
        sets,
        ec: true,
        intra: true,
    };
    Ok(config.check_in(Profile::Wide, depth, 16)?)
}

/// The planes of a raw picture, one after the other. A sample of more than 8 bits takes two bytes.
fn planes(alloc: Global, checked: &Checked, samples: &[u8]) -> Result<Vec<Vec<u8>>> {
    let grid = Grid::of(checked);
    let mut planes = Vec::new(alloc);
    let mut rest = samples;
    for plane in 0..grid.planes() {
        let places = grid.width(plane) as usize * grid.height(plane) as usize;
        let size = if grid.depth() > 8 {
            places.saturating_mul(2)
        } else {
            places
        };
        ensure!(size <= rest.len(), "samples are missing");
        planes.push(rest[..size].to_vec(alloc)?)?;
        rest = &rest[size..];
    }
    Ok(planes)
}

/// Encodes the picture once: its frame, and the time.
fn encode<R: AllocGlobal + Clock>(
    rt: &R,
    encoder: &mut FrameEncoder,
    picture: &Picture,
    info: Info,
) -> Result<(Vec<u8>, u128)> {
    ensure!(picture.fits(encoder.config()), "another picture");
    let start = Instant::now(rt)?;
    match encoder.encode(picture, info) {
        Ok(frame) => Ok((frame, start.elapsed(rt)?.as_micros())),
        Err(CodecFault::SliceTooLong) => bail!("40 SliceTooLong"),
        Err(_) => bail!("2 OutOfMemory"),
    }
}

/// The same, without the frame.
fn encoding_time<R: AllocGlobal + Clock>(
    rt: &R,
    encoder: &mut FrameEncoder,
    picture: &Picture,
    info: Info,
) -> Result<u128> {
    Ok(encode(rt, encoder, picture, info)?.1)
}

/// Decodes the frame once, and drops its lines: the time.
fn decode<R: AllocGlobal + Clock>(
    rt: &R,
    decoder: &mut FrameDecoder,
    frame: &[u8],
) -> Result<u128> {
    let mut sink = DropLines::new(decoder.config());
    let start = Instant::now(rt)?;
    match decoder.decode(frame, &mut sink) {
        Ok(_) => Ok(start.elapsed(rt)?.as_micros()),
        Err(_) => bail!("not decoded"),
    }
}

/// Whether the frame is decoded to the planes of the picture.
fn comes_back(
    alloc: Global,
    decoder: &mut FrameDecoder,
    frame: &[u8],
    picture: &Picture,
) -> Result<bool> {
    let Ok(mut sink) = KeepLines::new(alloc, decoder.config()) else {
        bail!("2 OutOfMemory");
    };
    ensure!(decoder.decode(frame, &mut sink).is_ok(), "not decoded");
    let mut same = sink.planes().len() == picture.planes().len();
    for (kept, plane) in sink.planes().iter().zip(picture.planes().iter()) {
        same = same && kept.as_slice() == plane.as_slice();
    }
    Ok(same)
}

/// The frame of the picture, encoded some times over, and the least time.
fn least_encoding<R: AllocGlobal + Clock>(
    rt: &R,
    encoder: &mut FrameEncoder,
    picture: &Picture,
    info: Info,
    times: u32,
) -> Result<(Vec<u8>, u128)> {
    let (frame, mut least) = encode(rt, encoder, picture, info)?;
    for _ in 1..times {
        least = least.min(encoding_time(rt, encoder, picture, info)?);
    }
    Ok((frame, least))
}

/// Decodes the frame some times over, and says whether the picture comes back and the least time.
fn least_decoding<R: AllocGlobal + Clock>(
    rt: &R,
    decoder: &mut FrameDecoder,
    frame: &[u8],
    picture: &Picture,
    times: u32,
) -> Result<(bool, u128)> {
    let mut least = u128::MAX;
    for _ in 0..times {
        least = least.min(decode(rt, decoder, frame)?);
    }
    Ok((comes_back(rt.alloc(), decoder, frame, picture)?, least))
}

/// Decodes the frame by a decoder of this configuration, and prints what came of it.
fn time_decoding<R: AllocGlobal + Clock + Print>(
    rt: &R,
    checked: Checked,
    picture: &Picture,
    frame: &[u8],
    encoding: u128,
    times: u32,
) -> Result<()> {
    let Ok(mut decoder) = FrameDecoder::new(rt.alloc(), checked) else {
        bail!("2 OutOfMemory");
    };
    let (same, decoding) = least_decoding(rt, &mut decoder, frame, picture, times)?;
    let bytes = frame.len();
    Ok(rt.println(format_args!(
        "bytes {bytes} encoding {encoding} us decoding {decoding} us same {same}"
    ))?)
}

/// Encodes the picture by an encoder of this configuration: its frame, and the least time.
fn time_encoding<R: AllocGlobal + Clock>(
    rt: &R,
    checked: Checked,
    picture: &Picture,
    times: u32,
) -> Result<(Vec<u8>, u128)> {
    let info = Info::new(3, 1, 1).context("info")?;
    let mut encoder = FrameEncoder::new(rt.alloc(), checked);
    least_encoding(rt, &mut encoder, picture, info, times)
}

/// Encodes and decodes a picture of the format, and prints its bytes and the least times.
fn time<R: AllocGlobal + Clock + Print>(
    rt: &R,
    format: &str,
    sizes: [u32; 4],
    picture: &Picture,
    times: u32,
) -> Result<()> {
    let (frame, encoding) = time_encoding(
        rt,
        configuration(rt.alloc(), format, sizes)?,
        picture,
        times,
    )?;
    let bytes = frame.as_slice();
    time_decoding(
        rt,
        configuration(rt.alloc(), format, sizes)?,
        picture,
        bytes,
        encoding,
        times,
    )
}

/// The picture of a format that has these samples.
fn picture(alloc: Global, format: &str, sizes: [u32; 4], samples: &[u8]) -> Result<Picture> {
    let checked = configuration(alloc, format, sizes)?;
    let planes = planes(alloc, &checked, samples)?;
    Ok(Picture::new(&checked, planes).context("no such picture")?)
}

/// The numbers of a line: width, height, columns and rows.
fn sizes(words: &mut Args) -> Result<[u32; 4]> {
    Ok([
        number(words, "width")?,
        number(words, "height")?,
        number(words, "columns")?,
        number(words, "rows")?,
    ])
}

/// Encodes and decodes the samples of a line, or says why not.
fn time_samples<R: AllocGlobal + Clock + Print>(
    rt: &R,
    format: &str,
    sizes: [u32; 4],
    samples: &[u8],
    times: u32,
) -> Result<()> {
    let picture = picture(rt.alloc(), format, sizes, samples)?;
    time(rt, format, sizes, &picture, times)
}

/// Encodes and decodes the picture of a line, or says why not.
pub(crate) fn run<R: AllocGlobal + Files + Env + Clock + Print>(
    rt: &R,
    words: &mut Args,
) -> Result<()> {
    let path = words.next().context("path")?;
    let samples = fs::read(rt, path.as_str())?;
    let format = words.next().context("format")?;
    let sizes = sizes(words)?;
    let times = number(words, "times")?;
    time_samples(rt, format.as_str(), sizes, samples.as_slice(), times)
}
