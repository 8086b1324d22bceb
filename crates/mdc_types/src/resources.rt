ghost use Rattle.std.specs.Prelude.{◌≡◌, ◌<◌};
ghost use Rattle.mdc_types.specs.Resources.{IsResource, number_of, word_of, bitmap_word};

use crate::NodeId;

/// A lock resource of the mirror.
#[derive(Clone, Copy, PartialEq, Eq, Debug)]
pub enum Res {
    /// The lock on a node's bitmap slot.
    Bitmap(NodeId),
    Token,
    Message,
    Ack,
    NoNewDev,
    Resync,
}

impl Res {
    /// The number of the resource in a lock space: the sixteen bitmaps, then the five others.
    pub fn number(&self) -> usize
        requires { IsResource self.now }
        ensures value { result ≡ number_of self.now }
        ensures range { result < 21 }
    {
        match self {
            Res::Bitmap(n) => *n as usize,
            Res::Token => 16,
            Res::Message => 17,
            Res::Ack => 18,
            Res::NoNewDev => 19,
            Res::Resync => 20,
        }
    }

    /// The word of the resource, as `bitmap003` or `no-new-dev`.
    pub fn word(&self) -> &'static str
        requires { IsResource self.now }
        ensures { result.now ≡ word_of self.now }
    {
        match self {
            Res::Bitmap(n) => bitmap_word(*n),
            Res::Token => "token",
            Res::Message => "message",
            Res::Ack => "ack",
            Res::NoNewDev => "no-new-dev",
            Res::Resync => "resync",
        }
    }
}

fn bitmap_word(n: NodeId) -> &'static str
    requires { n < 16 }
    ensures { result.now ≡ bitmap_word n }
{
    match n {
        0 => "bitmap000",
        1 => "bitmap001",
        2 => "bitmap002",
        3 => "bitmap003",
        4 => "bitmap004",
        5 => "bitmap005",
        6 => "bitmap006",
        7 => "bitmap007",
        8 => "bitmap008",
        9 => "bitmap009",
        10 => "bitmap010",
        11 => "bitmap011",
        12 => "bitmap012",
        13 => "bitmap013",
        14 => "bitmap014",
        _ => "bitmap015",
    }
}
