// What a speed and a kind of set allow, and whether a number is allowed.
ghost use Rattle.std.specs.Prelude.{◌≡◌};
ghost use Rattle.descriptors.specs.Limits.{ranges_of, full_speed, paired_full, high_speed, super_speed, within, doubled, named, refused_types};
ghost use Rattle.descriptors.specs.Descriptor.{good_address, sized};

// A range of numbers, both ends in it.
// Kept: a RangeInclusive is not Copy.
#[derive(Clone, Copy)]
pub struct Range {
    pub least: u16,
    pub most: u16,
}

// What a speed allows of endpoints. `polling` and `period` are the bInterval of interrupt and isochronous endpoints; `bursts` is the largest number in
// wMaxPacketSize's bits 15-11.
#[derive(Clone, Copy)]
pub struct Ranges {
    pub bulk: Range,
    pub interrupt: Range,
    pub polling: Range,
    pub isochronous: Range,
    pub period: Range,
    pub bursts: u16,
}

// The speeds. Each has its ranges.
#[derive(Clone, Copy)]
pub enum Speed {
    Full,
    High,
    Super,
}

// What a kind of set allows. `control` is bMaxPacketSize0; bit t of `entries` stands for descriptor type t; `companions` asks for one after every
// endpoint.
#[derive(Clone, Copy)]
pub struct Limits {
    pub control: Range,
    pub speed: Speed,
    pub entries: u16,
    pub companions: bool,
}

// What full speed, high speed and SuperSpeed allow of endpoints.
const FULL_RANGES: Ranges = Ranges {
    bulk: Range { least: 8, most: 64 },
    interrupt: Range { least: 0, most: 64 },
    polling: Range {
        least: 1,
        most: 255,
    },
    isochronous: Range {
        least: 0,
        most: 1023,
    },
    period: Range { least: 1, most: 16 },
    bursts: 0,
};

const HIGH_RANGES: Ranges = Ranges {
    bulk: Range {
        least: 512,
        most: 512,
    },
    interrupt: Range {
        least: 0,
        most: 1024,
    },
    polling: Range { least: 1, most: 16 },
    isochronous: Range {
        least: 0,
        most: 1024,
    },
    period: Range { least: 1, most: 16 },
    bursts: 2,
};

const SUPER_RANGES: Ranges = Ranges {
    bulk: Range {
        least: 1024,
        most: 1024,
    },
    interrupt: Range {
        least: 1,
        most: 1024,
    },
    polling: Range { least: 1, most: 16 },
    isochronous: Range {
        least: 0,
        most: 1024,
    },
    period: Range { least: 1, most: 16 },
    bursts: 0,
};

impl Speed {
    // What the speed allows of endpoints.
    pub fn ranges(self) -> Ranges
        ensures { result ≡ ranges_of self }
    {
        match self {
            Speed::Full => FULL_RANGES,
            Speed::High => HIGH_RANGES,
            Speed::Super => SUPER_RANGES,
        }
    }
}

// ---- the limits of each kind of set
// Kept: docs/TRACE.md names these four by what they promise, and a constant would have no contract.
// The limits of full speed.
pub fn full_speed() -> Limits
    ensures { result ≡ full_speed }
{
    Limits {
        control: Range { least: 8, most: 64 },
        speed: Speed::Full,
        entries: 0x0E,
        companions: false,
    }
}

// The limits of SuperSpeed.
pub fn super_speed() -> Limits
    ensures { result ≡ super_speed }
{
    Limits {
        control: Range { least: 9, most: 9 },
        speed: Speed::Super,
        entries: 0x800E,
        companions: true,
    }
}

// The limits of the full-speed set of a pair.
pub fn paired_full() -> Limits
    ensures { result ≡ paired_full }
{
    Limits {
        control: Range { least: 8, most: 64 },
        speed: Speed::Full,
        entries: 0xCE,
        companions: false,
    }
}

// The limits of the high-speed set.
pub fn high_speed() -> Limits
    ensures { result ≡ high_speed }
{
    Limits {
        control: Range {
            least: 64,
            most: 64,
        },
        speed: Speed::High,
        entries: 0xCE,
        companions: false,
    }
}

// ---- a number by these limits
pub fn is_within(range: Range, x: u16) -> bool
    ensures { result ≡ within range x }
{
    (range.least <= x) & (x <= range.most)
}

// The range's least, or that doubled once, twice or three times.
pub fn is_doubled(range: Range, x: u16) -> bool
    ensures { result ≡ doubled range x }
{
    let least = range.least as u32;
    let size = x as u32;
    ((size == least) | (size == 2 * least) | (size == 4 * least) | (size == 8 * least))
        & (x <= range.most)
}

// Whether bit t of `types` is set.
pub fn is_named(types: u16, t: u8) -> bool
    ensures { result ≡ named types t }
{
    if t < 16 {
        return octets::test_bit(types as u32, t as u32);
    }
    false
}

// Whether a type is refused behind a body's first descriptor.
pub fn is_refused(t: u8) -> bool
    ensures { result ≡ named refused_types t }
{
    is_named(0xCE, t)
}

pub fn good_address(address: u8) -> bool
    ensures { result ≡ good_address address }
{
    (address / 16 % 8 == 0) & (1 <= address % 16)
}

pub fn is_sized(bursts: u16, range: Range, size: u16) -> bool
    ensures { result ≡ sized bursts range size }
{
    (range.least <= size % 2048) & (size % 2048 <= range.most) & (size / 2048 <= bursts)
}
