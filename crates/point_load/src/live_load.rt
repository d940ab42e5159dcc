// The live load on a pane: specs/LiveLoad.antt.
ghost use Rattle.std.specs.Prelude.{◌≡◌};
ghost use Rattle.point_load.specs.LiveLoad.{live_load};

// In tenths of a kN, by the angle from horizontal and whether it is an awning: a number of the pane's line, 1 where it is one.
pub fn live_load(angle: u32, awning: u32) -> u32
    ensures { result ≡ live_load angle awning }
{
    match (awning, angle) {
        (1, _) => 18,
        (_, 0..=29) => 11,
        _ => 5,
    }
}
