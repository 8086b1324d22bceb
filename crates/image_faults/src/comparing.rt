ghost use Rattle.std.specs.Prelude.{◌≡◌, ◌<◌, length};
ghost use Rattle.image_faults.specs.Compare.{differs_at, first_difference};

use mdc_types::Sector;

fn differs_at(a: &[Sector], b: &[Sector], i: usize) -> bool
    requires a { i < length a.now }
    requires b { i < length b.now }
    ensures { result ≡ differs_at a.now b.now i }
{
    a[i].bytes != b[i].bytes
}

/// The first place in which two rows of sectors differ, None exactly where all are equal.
pub fn compare(a: &[Sector], b: &[Sector]) -> Option<usize>
    requires { length b.now ≡ length a.now }
    ensures { result ≡ first_difference a.now b.now }
{
    for i in 0..a.len() {
        if differs_at(a, b, i) {
            return Some(i);
        }
    }
    None
}
