//! Parts and interleaves samples of two bytes: the high byte first in a text, the low byte first
//! in a plane.

ghost use Rattle.std.specs.Prelude.{◌≡◌, ◌≤◌, ◌+◌, ◌*◌, ◌%◌, ◌++◌, List, [], ◌∷◌, length, take};
ghost use Rattle.ffv1_y4m.specs.Ppm.{bytes_of_pairs, each_third, in_turn, pairs_of, turned};

/// Stores two bytes after the first so many.
fn put_pair(bytes: &mut [u8], at: usize, first: u8, second: u8)
    requires { at + 2 ≤ length bytes.old }
    ensures { take (at + 2) bytes.new ≡ take at bytes.old ++ (first ∷ second ∷ []) }
{
    bytes[at] = first;
    bytes[at + 1] = second;
}

/// Each third sample after the first so many.
pub(crate) fn part_pairs(text: &[u8], first: usize, plane: &mut [u8])
    requires long { length text.now ≡ 3 * length plane.old }
    requires whole { length plane.old % 2 ≡ 0 }
    requires first { first ≤ 2 }
    ensures { plane.new ≡ bytes_of_pairs (each_third first (turned (pairs_of text.now))) }
{
    for place in 0..plane.len() / 2 {
        let high = 6 * place + 2 * first;
        put_pair(plane, 2 * place, text[high + 1], text[high]);
    }
}

/// Red, green and blue of each place, one after the other.
pub(crate) fn interleave_pairs(red: &[u8], green: &[u8], blue: &[u8], text: &mut [u8])
    requires whole { length red.now % 2 ≡ 0 }
    requires green { length green.now ≡ length red.now }
    requires blue { length blue.now ≡ length red.now }
    requires text { length text.old ≡ 3 * length red.now }
    ensures { text.new ≡ bytes_of_pairs
        (turned (in_turn (pairs_of red.now) (pairs_of green.now) (pairs_of blue.now))) }
{
    for place in 0..red.len() / 2 {
        let low = 2 * place;
        put_pair(text, 6 * place, red[low + 1], red[low]);
        put_pair(text, 6 * place + 2, green[low + 1], green[low]);
        put_pair(text, 6 * place + 4, blue[low + 1], blue[low]);
    }
}
