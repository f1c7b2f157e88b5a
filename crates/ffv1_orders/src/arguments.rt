//! The words of a command line of which some are not UTF-8.

use ffv1_words::Order;
use std::alloc::Global;
use std::env::{Env, FillError};
use std::{io, str};

/// The most bytes of a word: Linux gives a program none that is longer.
const LONGEST: usize = 131072;

/// Whether an order looks at files, and makes none.
pub fn looks(order: Order<'_>) -> bool {
    matches!(
        order,
        Order::Check { .. } | Order::Show { .. } | Order::Info { .. } | Order::FrameMd5 { .. }
    )
}

/// Takes a word that is UTF-8; of another one it says on standard error that it is not, with U+FFFD
/// in place of what is none. Answers whether it took it.
fn take_word(
    rt: &impl Eprint,
    alloc: Global,
    word: &[u8],
    texts: &mut Vec<String>,
) -> io::Result<bool> {
    if let Ok(text) = str::from_utf8(word) {
        texts.push(String::from_str(alloc, text)?)?;
        return Ok(true);
    }
    let name = String::from_utf8_lossy(alloc, word)?;
    eprintln!(rt; "ffv1: {name}: an argument is not UTF-8")?;
    eprintln!(rt; "  Give the file another name, or give its bytes: ffv1 COMMAND - < FILE")?;
    Ok(false)
}

/// The words of the command line that are UTF-8; of each other one it says on standard error that
/// it is not. There are none if one of those cannot be the name of a file: it is one of the first
/// two, or begins with a hyphen, or is too long.
pub fn other_words(rt: &(impl Env + Eprint), alloc: Global) -> io::Result<Option<Vec<String>>> {
    let mut room = vec![in alloc; 0u8; LONGEST]?;
    let mut texts = Vec::new(alloc);
    let mut are_names = true;
    for place in 0..usize::MAX {
        let len = match rt.arg(place, room.as_mut_slice()) {
            Ok(len) => len,
            Err(FillError::NotPresent) => break,
            Err(FillError::TooLong) => return Ok(None),
        };
        let word = &room[..len];
        if !take_word(rt, alloc, word, &mut texts)? {
            are_names = are_names && place >= 2 && !word.starts_with(b"-");
        }
    }
    Ok(if are_names { Some(texts) } else { None })
}
