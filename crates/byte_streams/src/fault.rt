//! The list of faults: why a call was refused, with a number and a text each.
ghost use Rattle.std.specs.Prelude.{◌≡◌, ◌⊎◌, ◌<◌, ◌≤◌, length, IfSome, IfNone};
ghost use Rattle.byte_streams.specs.Faults.{number_of, text_of};

use std::alloc::{AllocError, AllocFailed};
use std::error::Error;
use std::fmt;

/// Why a call was refused. The number, from 1 to 32, is the place in this list; the text is what a fault
/// line shows.
#[derive(Clone, Copy, Debug, PartialEq, Eq)]
pub enum Fault {
    NoHeader = 1,
    NotUtf8,
    Syntax,
    TooDeep,
    DuplicateName,
    NotCityJson,
    Version,
    NoTransform,
    Decimal,
    ScaleNotPositive,
    HeaderNotEmpty,
    ScaleDiffers,
    CrsDiffers,
    OffGrid,
    ShiftRange,
    ExtensionClash,
    TemplatesDiffer,
    NotAFeature,
    VertexShape,
    VertexNotInteger,
    VertexRange,
    LineTooLong,
    TileTooLong,
    Read,
    Write,
    Memory,
    NoThread,
    Handoff,
    TooManyTiles,
    ChildMissing,
    Orphan,
    BoundaryIndex,
}

impl Fault {
    /// The fault's number.
    pub fn number(&self) -> u8
        ensures { result ≡ number_of self.now }
    {
        *self as u8
    }

    /// The fault of a number, or none for 0 and for numbers above 32.
    pub fn of(number: u8) -> Option<Fault>
        ensures found { IfSome result (λ fault. number_of fault ≡ number) }
        ensures none { IfNone result ((number ≡ 0) ⊎ (32 < number)) }
    {
        Some(match number {
            1 => Fault::NoHeader,
            2 => Fault::NotUtf8,
            3 => Fault::Syntax,
            4 => Fault::TooDeep,
            5 => Fault::DuplicateName,
            6 => Fault::NotCityJson,
            7 => Fault::Version,
            8 => Fault::NoTransform,
            9 => Fault::Decimal,
            10 => Fault::ScaleNotPositive,
            11 => Fault::HeaderNotEmpty,
            12 => Fault::ScaleDiffers,
            13 => Fault::CrsDiffers,
            14 => Fault::OffGrid,
            15 => Fault::ShiftRange,
            16 => Fault::ExtensionClash,
            17 => Fault::TemplatesDiffer,
            18 => Fault::NotAFeature,
            19 => Fault::VertexShape,
            20 => Fault::VertexNotInteger,
            21 => Fault::VertexRange,
            22 => Fault::LineTooLong,
            23 => Fault::TileTooLong,
            24 => Fault::Read,
            25 => Fault::Write,
            26 => Fault::Memory,
            27 => Fault::NoThread,
            28 => Fault::Handoff,
            29 => Fault::TooManyTiles,
            30 => Fault::ChildMissing,
            31 => Fault::Orphan,
            32 => Fault::BoundaryIndex,
            _ => return None,
        })
    }

    /// The fault's text, in ASCII and without a full stop.
    pub fn text(&self) -> &'static str
        ensures text { result.now ≡ text_of self.now }
        ensures short { length result.now ≤ 48 }
    {
        match self {
            Fault::NoHeader => "the stream has no header line",
            Fault::NotUtf8 => "the line is not UTF-8",
            Fault::Syntax => "the line is not a JSON text",
            Fault::TooDeep => "the JSON text is nested too deeply",
            Fault::DuplicateName => "a name is repeated in an object",
            Fault::NotCityJson => "the object is not a CityJSON object",
            Fault::Version => "the version is not 2.0",
            Fault::NoTransform => "the transform is missing or malformed",
            Fault::Decimal => "a transform number is outside the profile",
            Fault::ScaleNotPositive => "a scale is not above zero",
            Fault::HeaderNotEmpty => "the header holds city objects or vertices",
            Fault::ScaleDiffers => "the scale differs from tile 1",
            Fault::CrsDiffers => "the reference system differs from tile 1",
            Fault::OffGrid => "the translation is off the grid",
            Fault::ShiftRange => "the shift is out of range",
            Fault::ExtensionClash => "an extension differs between tiles",
            Fault::TemplatesDiffer => "geometry templates differ between tiles",
            Fault::NotAFeature => "the line is not a CityJSONFeature",
            Fault::VertexShape => "a vertex is not three numbers",
            Fault::VertexNotInteger => "a vertex number is not written as a whole number",
            Fault::VertexRange => "a vertex number is out of range",
            Fault::LineTooLong => "the line is too long",
            Fault::TileTooLong => "the tile is too long",
            Fault::Read => "the tile could not be read",
            Fault::Write => "the output could not be written",
            Fault::Memory => "there is not enough memory",
            Fault::NoThread => "a thread could not be started",
            Fault::Handoff => "the hand-off could not be confirmed",
            Fault::TooManyTiles => "there are more than 64 tiles",
            Fault::ChildMissing => "a child is missing",
            Fault::Orphan => "a city object belongs to no feature",
            Fault::BoundaryIndex => "a boundary index is wrong",
        }
    }
}

impl fmt::Display for Fault {
    ghost use Rattle.std.specs.Prelude.{Some};
    ghost use Rattle.byte_streams.specs.Faults.{text_of};

    ghost output = { λ fault. Some (text_of fault) };

    fn fmt<W: fmt::Write>(&self, f: &mut fmt::Formatter<W>) -> fmt::Result {
        f.write_str(self.text())
    }
}

impl Error for Fault {}

/// Out of memory is one fault, whatever was to grow.
impl From<AllocError> for Fault {
    ghost use Rattle.std.specs.Prelude.{◌≡◌};
    ghost use Rattle.byte_streams.specs.declared.fault.Fault.TheVariants.{Memory};

    ghost from_gives = { λ _ fault. fault ≡ Memory };

    fn from(_: AllocError) -> Fault {
        Fault::Memory
    }
}

impl<T: Drop> From<AllocFailed<T>> for Fault {
    ghost use Rattle.std.specs.Prelude.{◌≡◌};
    ghost use Rattle.byte_streams.specs.declared.fault.Fault.TheVariants.{Memory};

    ghost from_gives = { λ _ fault. fault ≡ Memory };

    fn from(_: AllocFailed<T>) -> Fault {
        Fault::from(AllocError)
    }
}
