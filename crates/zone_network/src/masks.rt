ghost use Rattle.std.specs.Prelude.{◌≡◌, ◌<◌};
ghost use Rattle.ra_base.specs.declared.limits.TheConstants.{MOST_ZONES};
ghost use Rattle.zone_network.specs.Sums.{inside};
ghost use Rattle.zone_network.specs.Masks.{AddsNumber};

/// Whether a mask has the bit of a zone.
#[inline]
pub fn has_zone(mask: u32, zone: u8) -> bool
    requires { zone < MOST_ZONES }
    ensures { result ≡ inside mask zone }
{
    (mask >> zone) & 1 == 1
}

/// The mask with the bit of this zone too.
#[inline]
pub fn with_zone(mask: u32, zone: u8) -> u32
    requires { zone < MOST_ZONES }
    ensures { AddsNumber mask zone result }
{
    mask | (1 << zone)
}
