//! What follows from the definitions alone.
ghost use Rattle.std.specs.Prelude.{◌≡◌, ◌<◌, ℕ, List, length};
ghost use Rattle.std.specs.List.{slice_index_or};
ghost use Rattle.sites.specs.Ranges.{AreSites, Takes};
ghost use Rattle.sites.specs.declared.site.Site.{Site};

/// At most one gateway takes an SPI: two places of a list whose gateways do are one. Does nothing.
pub fn an_spi_is_of_one_site()
    ensures { (sites : List Site) (spi i j : ℕ) (site : Site) → AreSites sites → i < length sites → j < length sites
        → Takes spi (slice_index_or sites i site) → Takes spi (slice_index_or sites j site) → i ≡ j }
{}
