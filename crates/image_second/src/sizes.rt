ghost use Rattle.std.specs.Prelude.{◌≡◌};
ghost use Rattle.image_second.specs.Second.{second_sizes};

use mdc_types::Geometry;

/// The same sizes of image version 2.
pub(crate) fn second_of(g: &Geometry) -> Geometry
    ensures { result ≡ second_sizes g.now }
{
    // The room is what tells that the sizes are within their bounds.
    let room = g.room();
    match Geometry::second(g.legs(), g.sectors(), room, g.chunk()) {
        Ok(second) => second,
        Err(_) => unreachable!(),
    }
}
