//! The transform that joined tiles share.
ghost use Rattle.std.specs.Prelude.{◌≡◌, ◌++◌, ◌<◌, [], ◌∷◌, List, length, map, if◌then◌else◌};
ghost use Rattle.std.specs.Int.Signed.{lt_z};
ghost use Rattle.city_grid.specs.Axes.{number_texts};
ghost use Rattle.city_grid.specs.Transform.{IsAboveZero};
ghost use Rattle.city_feature.specs.Header.{HeaderValue};
ghost use Rattle.city_feature.specs.Origin.{HasTranslation, IsOrigin};
ghost use Rattle.city_feature.specs.Values.{header_value};

use crate::base::Base;
use crate::headers::Header;
use city_grid::{Axes, Decimal, Transform, least_of, three_numbers};
use city_json::NumText;

/// What shifts are told against, and how its translation is written.
#[derive(Clone, Copy)]
pub(crate) struct Origin<'a> {
    pub transform: Transform,
    pub translation: Axes<&'a NumText>,
}

/// A header's translation as it is written.
fn written_translation(header: &Header) -> Axes<&NumText>
    ensures { HasTranslation (header_value header.now) (number_texts result) }
{
    let Some(transform) = header.json().get("transform") else {
        unreachable!();
    };
    let Some(translate) = transform.get("translate") else {
        unreachable!();
    };
    let Some(numbers) = three_numbers(translate) else {
        unreachable!();
    };
    numbers
}

/// The header's own transform.
fn own_origin(header: &Header) -> Origin<'_>
    ensures transform { result.transform ≡ header.now.grid }
    ensures translation { HasTranslation (header_value header.now) (number_texts result.translation) }
{
    Origin {
        transform: *header.transform(),
        translation: written_translation(header),
    }
}

/// How the lesser of two components is written; of equal ones the known one.
fn text_of_lesser<'a>(
    known: Decimal,
    known_text: &'a NumText,
    new: Decimal,
    new_text: &'a NumText,
) -> &'a NumText
    ensures { result.now ≡ (if lt_z new known then new_text.now else known_text.now) }
{
    if new.units() < known.units() {
        new_text
    } else {
        known_text
    }
}

/// The origin of the headers before, lowered to the header's translation where that is less.
fn lowered<'a>(before: &Origin<'a>, header: &'a Header) -> Origin<'a>
    ensures { (first : HeaderValue) (others : List HeaderValue)
        → IsOrigin Base.Least first others before.now.transform (number_texts before.now.translation)
        → IsOrigin Base.Least first (others ++ header_value header.now ∷ [])
        result.transform (number_texts result.translation) }
{
    let own = own_origin(header);
    let (known, new) = (before.transform.translate(), own.transform.translate());
    let (old, text) = (before.translation, own.translation);
    Origin {
        transform: least_of(&before.transform, &own.transform),
        translation: Axes {
            x: text_of_lesser(known.x, old.x, new.x, text.x),
            y: text_of_lesser(known.y, old.y, new.y, text.y),
            z: text_of_lesser(known.z, old.z, new.z, text.z),
        },
    }
}

/// The transform of the first header, or with the least translation of all, in each component as
/// the first header writes it that has it.
pub(crate) fn origin_of<'a>(headers: &'a [Header], base: Base) -> Origin<'a>
    requires { 0 < length headers.now }
    ensures origin { (first : HeaderValue) (others : List HeaderValue)
        → map header_value headers.now ≡ first ∷ others
        → IsOrigin base first others result.transform (number_texts result.translation) }
    ensures above_zero { IsAboveZero result.transform.scale }
{
    let [first, others @ ..] = headers else {
        unreachable!();
    };
    let origin = match base {
        Base::First => own_origin(first),
        Base::Least => least_origin(first, others),
    };
    let _ = origin.transform.scale();
    origin
}

fn least_origin<'a>(first: &'a Header, others: &'a [Header]) -> Origin<'a>
    ensures { IsOrigin Base.Least (header_value first.now) (map header_value others.now)
        result.transform (number_texts result.translation) }
{
    let mut origin = own_origin(first);
    for header in others {
        origin = lowered(&origin, header);
    }
    origin
}
