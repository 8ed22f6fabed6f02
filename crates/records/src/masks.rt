// Masks of 8 bits, one bit a site: site s has the bit worth 2 to the power s.
ghost use Rattle.std.specs.Prelude.{◌≡◌, ◌<◌, ◌^◌};
ghost use Rattle.std.specs.Int.Count.{ones};
ghost use Rattle.rules.specs.Records.{is_in, sites_of, full_not_sent};

// The ones of a mask.
pub(crate) fn ones(mask: u8) -> u64
    ensures { result ≡ ones mask }
{
    u64::from(mask.count_ones())
}

// The mask of one site.
pub(crate) fn bit(site: u64) -> u8
    requires { site < 8 }
    ensures { result ≡ 2 ^ site }
{
    1u8 << site
}

// Whether a site is one of a mask's.
pub(crate) fn has_site(mask: u8, site: u64) -> bool
    ensures { result ≡ is_in site (sites_of mask) }
{
    site < 8 && (mask >> site) & 1 == 1
}

// Whether a full copy is at a site that the operation was not sent to.
pub(crate) fn is_outside(sent: u8, full: u8) -> bool
    ensures { result ≡ full_not_sent (sites_of sent) (sites_of full) }
{
    full & sent != full
}
