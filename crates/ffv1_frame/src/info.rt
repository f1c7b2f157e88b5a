//! What each slice of a frame says of its picture.

ghost use Rattle.std.specs.Prelude.{◌≡◌, IfSome, IsNone};
ghost use Rattle.ffv1_frame.specs.SliceList.{Said};
ghost use Rattle.ffv1_frame.specs.Frame.{IsSaid};

use std::marker::Model;

/// How a picture is interlaced, and its sample aspect (RFC 9043, 4.6.7 to 4.6.9). It is seen as
/// what it says.
#[derive(Clone, Copy, Debug, PartialEq, Eq)]
pub struct Info {
    structure: u8,
    sar_num: u16,
    sar_den: u16,
}

impl Model for Info {
    ghost use Rattle.ffv1_frame.specs.SliceList.{Said};
    ghost use Rattle.ffv1_frame.specs.Frame.{IsSaid};

    ghost Value = { Said };

    ghost view = { λ i. record {
      structure = i.structure;
      sar_num = i.sar_num;
      sar_den = i.sar_den;
    } };

    ghost inverse = { λ s. record {
      structure = s.structure;
      sar_num = s.sar_num;
      sar_den = s.sar_den;
    } };

    ghost invariant = { λ i. IsSaid (record {
      structure = i.structure;
      sar_num = i.sar_num;
      sar_den = i.sar_den;
    }) };
}

impl Info {
    /// What a picture says: its structure, 0 unknown, 1 top field first, 2 bottom field first or 3
    /// progressive, and the width and the height of a sample, both 0 or neither. None exactly if
    /// the structure is above 3, or if one number of the aspect is 0 and the other is not. It takes
    /// no memory.
    pub fn new(structure: u8, sar_num: u16, sar_den: u16) -> Option<Info>
        ensures some { IfSome result (λ i. i ≡ record {
          structure = structure;
          sar_num = sar_num;
          sar_den = sar_den;
        }) }
        ensures said { IfSome result IsSaid }
        ensures none { IsNone result → IsSaid (record {
          structure = structure;
          sar_num = sar_num;
          sar_den = sar_den;
        }) → ⊥ }
    {
        if structure > 3 || (sar_num == 0) != (sar_den == 0) {
            return None;
        }
        Some(Info {
            structure,
            sar_num,
            sar_den,
        })
    }

    /// How the picture is interlaced: 0 unknown, 1 top field first, 2 bottom field first, 3
    /// progressive.
    pub fn structure(&self) -> u8
        ensures value { result ≡ self.now.structure }
        ensures said { IsSaid self.now }
    {
        self.structure
    }

    /// The width of a sample in the unit of its height, or 0 if the aspect is unknown.
    pub fn sar_num(&self) -> u16
        ensures { result ≡ self.now.sar_num }
    {
        self.sar_num
    }

    /// The height of a sample, or 0 if the aspect is unknown.
    pub fn sar_den(&self) -> u16
        ensures { result ≡ self.now.sar_den }
    {
        self.sar_den
    }
}
