//! Checked configurations for tests of slices.

ghost use Rattle.std.specs.Prelude.{◌≡◌, IfOk, length, false};

use ffv1_doubles::made;
use ffv1_record::{Checked, Profile};
use std::alloc::Global;
use std::test::Fail;

/// Pictures of one plane in one row of slices, by the small set.
pub(super) fn mono(
    alloc: Global,
    width: u32,
    height: u32,
    columns: u32,
    ec: bool,
) -> Result<Checked, Fail>
    ensures columns { IfOk result (λ c. c.configuration.columns ≡ columns) }
    ensures rows { IfOk result (λ c. c.configuration.rows ≡ 1) }
    ensures sets { IfOk result (λ c. length c.configuration.sets ≡ 1) }
    ensures extra { IfOk result (λ c. c.configuration.extra_plane ≡ false) }
{
    let config = made::mono(alloc, width, height, columns, ec)?;
    let checked = config.check()?;
    Ok(checked)
}

/// Pictures of two samples beside one another, each a slice, in a profile.
pub(super) fn pair(alloc: Global, profile: Profile) -> Result<Checked, Fail>
    ensures columns { IfOk result (λ c. c.configuration.columns ≡ 2) }
    ensures rows { IfOk result (λ c. c.configuration.rows ≡ 1) }
    ensures sets { IfOk result (λ c. length c.configuration.sets ≡ 1) }
    ensures extra { IfOk result (λ c. c.configuration.extra_plane ≡ false) }
{
    let config = made::mono(alloc, 2, 1, 2, false)?;
    let checked = config.check_in(profile, 8, 8)?;
    Ok(checked)
}
