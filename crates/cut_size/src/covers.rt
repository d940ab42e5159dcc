// How far the rebate must cover a sheet along each edge: specs/EdgeCover.antt.
ghost use Rattle.std.specs.Prelude.{◌≡◌};
ghost use Rattle.cut_size.specs.EdgeCover.{edge_cover};

// In mm, by the nominal thickness, a number of the glass's line: NZS 4223.1:2008, Table 5, column "Edge cover".
pub fn edge_cover(thick: u32) -> u32
    ensures { result ≡ edge_cover thick }
{
    match thick {
        6 => 6,
        8 | 10 => 8,
        _ => 9,
    }
}
