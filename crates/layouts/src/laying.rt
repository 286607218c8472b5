//! How values lie in memory, as far as memory can reach (Component Model, CanonicalABI.md, "Alignment" and "Element Size").

ghost use Rattle.std.specs.Prelude.{◌≡◌, ◌≤◌, ◌+◌, ◌^◌};
ghost use Rattle.layouts.specs.Layout.{aligned, tag_size, bits_size};

/// No memory holds so many bytes.
const MOST: u128 = 1 << 64;

/// How values of a type lie in memory.
#[derive(Clone, Copy)]
pub struct Laying {
    /// How many bytes a value takes, or `MOST` where it takes more.
    pub size: u128,
    /// The number of which a value's place is a multiple.
    pub align: u32,
}

/// The first multiple of an alignment at or behind a place.
pub fn aligned(place: u128, align: u32) -> u128
    requires place { place ≤ 2 ^ 65 }
    requires align { (1 ≤ align) × (align ≤ 8) }
    ensures value { result ≡ aligned place align }
    ensures bound { result ≤ place + 8 }
{
    let align = u128::from(align);
    place + (align - place % align) % align
}

/// How many bytes tell one of so many cases.
pub fn tag_size(count: usize) -> u32
    ensures value { result ≡ tag_size count }
    ensures bounds { (1 ≤ result) × (result ≤ 4) }
{
    if count <= 256 {
        1
    } else if count <= 65_536 {
        2
    } else {
        4
    }
}

/// How many bytes hold so many bits, of which there are at most 32.
pub fn bits_size(count: usize) -> u32
    ensures value { result ≡ bits_size count }
    ensures bounds { (1 ≤ result) × (result ≤ 4) }
{
    if count <= 8 {
        1
    } else if count <= 16 {
        2
    } else {
        4
    }
}

impl Laying {
    ghost use Rattle.layouts.specs.Layout.{scalar};
    ghost use Rattle.layouts.specs.Limited.{as_laid, InReach, nothing, followed, closed, joined, tagged};

    /// What takes no room.
    pub fn nothing() -> Laying
        ensures value { as_laid result ≡ nothing }
        ensures reach { InReach (as_laid result) }
    {
        Laying { size: 0, align: 1 }
    }

    /// A value of so many bytes, at a multiple of them.
    pub fn scalar(bytes: u32) -> Laying
        requires { (1 ≤ bytes) × (bytes ≤ 8) }
        ensures value { as_laid result ≡ scalar bytes }
        ensures reach { InReach (as_laid result) }
    {
        Laying {
            size: u128::from(bytes),
            align: bytes,
        }
    }

    /// A place in memory and a length.
    pub fn slice() -> Laying
        ensures value { as_laid result ≡ record { size = 8; align = 4 } }
        ensures reach { InReach (as_laid result) }
    {
        Laying { size: 8, align: 4 }
    }

    /// A part at the first place behind this that suits it.
    pub fn followed(self, part: Laying) -> Laying
        requires row { InReach (as_laid self) }
        requires part { InReach (as_laid part) }
        ensures value { as_laid result ≡ followed (as_laid self) (as_laid part) }
        ensures reach { InReach (as_laid result) }
    {
        let end = aligned(self.size, part.align) + part.size;
        Laying {
            size: end.min(MOST),
            align: self.align.max(part.align),
        }
    }

    /// This with padding behind it, up to a multiple of its alignment.
    pub fn closed(self) -> Laying
        requires { InReach (as_laid self) }
        ensures value { as_laid result ≡ closed (as_laid self) }
        ensures reach { InReach (as_laid result) }
    {
        Laying {
            size: aligned(self.size, self.align).min(MOST),
            align: self.align,
        }
    }

    /// Room for either of two.
    pub fn joined(self, other: Laying) -> Laying
        requires one { InReach (as_laid self) }
        requires other { InReach (as_laid other) }
        ensures value { as_laid result ≡ joined (as_laid self) (as_laid other) }
        ensures reach { InReach (as_laid result) }
    {
        Laying {
            size: self.size.max(other.size),
            align: self.align.max(other.align),
        }
    }

    /// The number of one of so many cases, and behind it room for this as a payload.
    pub fn tagged(self, count: usize) -> Laying
        requires { InReach (as_laid self) }
        ensures value { as_laid result ≡ tagged count (as_laid self) }
        ensures reach { InReach (as_laid result) }
    {
        let tag = Laying::scalar(tag_size(count));
        tag.followed(self).closed()
    }

    /// Where this stands as a payload, behind the number of one of so many cases.
    pub fn behind_tag(self, count: usize) -> u32
        requires { InReach (as_laid self) }
        ensures { result ≡ aligned (tag_size count) self.align }
    {
        aligned(u128::from(tag_size(count)), self.align) as u32
    }
}
