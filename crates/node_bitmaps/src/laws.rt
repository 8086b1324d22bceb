ghost use Rattle.std.specs.Prelude.{◌≡◌, ℕ};
ghost use Rattle.node_bitmaps.specs.Map.{Map, bitmap_of, HasSize};

/// Two maps of one size that stand for one bitmap are one. So what the calls say of the bitmap says
/// all of the map.
pub fn bitmap_tells_the_map()
    ensures { (a b : Map) (chunks pages : ℕ) → HasSize a chunks pages → HasSize b chunks pages → bitmap_of a ≡ bitmap_of b → a ≡ b }
{}
