//! The names of what files say by numbers.

ghost use Rattle.std.specs.Prelude.{◌≡◌};
ghost use Rattle.ffv1_info.specs.Names.{fields_name, matrix_name, primaries_name, range_name};
ghost use Rattle.ffv1_info.specs.Names.{siting_name, transfer_name};

/// The name of ColourPrimaries, or an empty one if the number has none.
#[tactic(auto, unfolding(crate::specs::Names::primaries_name))]
pub(crate) fn primaries_name(number: u8) -> &'static [u8]
    ensures { result.now ≡ primaries_name number }
{
    match number {
        1 => b"bt709",
        4 => b"bt470m",
        5 => b"bt470bg",
        6 => b"smpte170m",
        7 => b"smpte240m",
        8 => b"film",
        9 => b"bt2020",
        10 => b"smpte428",
        11 => b"smpte431",
        12 => b"smpte432",
        22 => b"ebu3213",
        _ => b"",
    }
}

/// The name of TransferCharacteristics, or an empty one if the number has none.
#[tactic(auto, unfolding(crate::specs::Names::transfer_name))]
pub(crate) fn transfer_name(number: u8) -> &'static [u8]
    ensures { result.now ≡ transfer_name number }
{
    match number {
        1 => b"bt709",
        4 => b"bt470m",
        5 => b"bt470bg",
        6 => b"smpte170m",
        7 => b"smpte240m",
        8 => b"linear",
        9 => b"log100",
        10 => b"log316",
        11 => b"iec61966-2-4",
        12 => b"bt1361e",
        13 => b"iec61966-2-1",
        14 => b"bt2020-10",
        15 => b"bt2020-12",
        16 => b"smpte2084",
        17 => b"smpte428",
        18 => b"arib-std-b67",
        _ => b"",
    }
}

/// The name of MatrixCoefficients, or an empty one if the number has none.
#[tactic(auto, unfolding(crate::specs::Names::matrix_name))]
pub(crate) fn matrix_name(number: u8) -> &'static [u8]
    ensures { result.now ≡ matrix_name number }
{
    match number {
        0 => b"gbr",
        1 => b"bt709",
        4 => b"fcc",
        5 => b"bt470bg",
        6 => b"smpte170m",
        7 => b"smpte240m",
        8 => b"ycgco",
        9 => b"bt2020nc",
        10 => b"bt2020c",
        11 => b"smpte2085",
        12 => b"chroma-derived-nc",
        13 => b"chroma-derived-c",
        14 => b"ictcp",
        _ => b"",
    }
}

/// The name of a range, or an empty one if the number has none.
#[tactic(auto, unfolding(crate::specs::Names::range_name))]
pub(crate) fn range_name(number: u8) -> &'static [u8]
    ensures { result.now ≡ range_name number }
{
    match number {
        1 => b"limited",
        2 => b"full",
        _ => b"",
    }
}

/// The name of where chroma lies, or an empty one if it has none.
#[tactic(auto, unfolding(crate::specs::Names::siting_name))]
pub(crate) fn siting_name(across: u8, down: u8) -> &'static [u8]
    ensures { result.now ≡ siting_name across down }
{
    match (across, down) {
        (1, 1) => b"topleft",
        (1, 2) => b"left",
        (2, 2) => b"centre",
        _ => b"",
    }
}

/// The name of a picture structure, or an empty one if the number has none.
#[tactic(auto, unfolding(crate::specs::Names::fields_name))]
pub(crate) fn fields_name(number: u8) -> &'static [u8]
    ensures { result.now ≡ fields_name number }
{
    match number {
        1 => b"top field first",
        2 => b"bottom field first",
        3 => b"progressive",
        _ => b"",
    }
}
