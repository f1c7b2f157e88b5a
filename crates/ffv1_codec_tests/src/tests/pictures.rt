//! Pictures and what they say.

use ffv1_codec::{Info, Picture};
use ffv1_doubles::made;
use ffv1_record::Checked;
use std::alloc::Global;
use std::process::Abort;
use std::test::Fail;

/// Pictures of 5 by 3 samples in 4:2:0, or of one plane.
fn pictures(alloc: Global, chroma_planes: bool) -> Result<Checked, Fail> {
    let mut config = made::mono(alloc, 5, 3, 1, true)?;
    config.chroma_planes = chroma_planes;
    config.log2_h = u32::from(chroma_planes);
    config.log2_v = u32::from(chroma_planes);
    let checked = config.check()?;
    Ok(checked)
}

/// Planes of these lengths.
fn planes(alloc: Global, lengths: &[usize]) -> Result<Vec<Vec<u8>>, Fail> {
    let mut planes = Vec::new(alloc);
    for length in lengths {
        planes.push(vec![in alloc; 7u8; *length]?)?;
    }
    Ok(planes)
}

/// Whether planes of these lengths make a picture.
fn is_picture(alloc: Global, checked: &Checked, lengths: &[usize]) -> Result<bool, Fail> {
    let made = planes(alloc, lengths)?;
    Ok(Picture::new(checked, made).is_some())
}

#[test]
fn sizes(rt: HostRuntime) -> Result<(), Fail> {
    let checked = pictures(rt.alloc(), true)?;
    assert!(rt; is_picture(rt.alloc(), &checked, &[15, 6, 6])?);
    assert!(rt; !is_picture(rt.alloc(), &checked, &[15, 6])?);
    assert!(rt; !is_picture(rt.alloc(), &checked, &[15, 6, 6, 15])?);
    assert!(rt; !is_picture(rt.alloc(), &checked, &[15, 6, 5])?);
    assert!(rt; !is_picture(rt.alloc(), &checked, &[15, 2, 6])?);
    assert!(rt; !is_picture(rt.alloc(), &checked, &[14, 6, 6])?);
    Ok(())
}

/// Whether a picture of these lengths fits.
fn fits(alloc: Global, of: &Checked, other: &Checked, lengths: &[usize]) -> Result<bool, Fail> {
    let made = planes(alloc, lengths)?;
    match Picture::new(of, made) {
        Some(picture) => Ok(picture.fits(other) && picture.planes().len() == lengths.len()),
        None => Err(Fail::new("no picture")),
    }
}

#[test]
fn of_another_configuration(rt: HostRuntime) -> Result<(), Fail> {
    let three = pictures(rt.alloc(), true)?;
    let one = pictures(rt.alloc(), false)?;
    assert!(rt; fits(rt.alloc(), &three, &three, &[15, 6, 6])?);
    assert!(rt; fits(rt.alloc(), &one, &one, &[15])?);
    assert!(rt; !fits(rt.alloc(), &one, &three, &[15])?);
    Ok(())
}

#[test]
fn infos(rt: HostRuntime) -> Result<(), Fail> {
    let known = Info::new(1, 65535, 11).map(|i| (i.structure(), i.sar_num(), i.sar_den()));
    assert!(rt; known == Some((1, 65535, 11)));
    assert!(rt; Info::new(0, 0, 0).is_some());
    assert!(rt; Info::new(4, 0, 0).is_none());
    assert!(rt; Info::new(2, 0, 1).is_none());
    assert!(rt; Info::new(2, 1, 0).is_none());
    Ok(())
}
