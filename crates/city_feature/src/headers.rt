//! A header, with its transform.
ghost use Rattle.std.specs.Prelude.{◌≡◌};
ghost use Rattle.city_json.specs.Tree.{tree};
ghost use Rattle.city_feature.specs.Header.{IsHeader};

pub(crate) mod reader;
pub(crate) mod texts;

use city_grid::Transform;
use city_json::Json;
use std::marker::Model;

/// A header: the CityJSON object in the first line of a stream, with its transform (CityJSON 2.0,
/// CityJSON Object).
#[derive(Debug)]
pub struct Header {
    json: Json,
    transform: Transform,
}

impl Drop for Header {
    fn drop(self) {
        let Header {
            json: _json,
            transform: _transform,
        } = self;
    }
}

impl Model for Header {
    ghost use Rattle.std.specs.Coded.{codes};
    ghost use Rattle.city_json.specs.Tree.{tree};
    ghost use Rattle.city_json.specs.contracts.json.Json as json_type;
    ghost use Rattle.city_feature.specs.Header.{IsHeader};
    ghost use Rattle.city_feature.specs.Values.{HeaderJson};

    ghost Value = { HeaderJson };

    ghost coded = { Prim.hlevel (codes, json_type.the_row.coded) };

    ghost view = { λ header. record { json = header.json; grid = header.transform } };

    ghost invariant = { λ header. IsHeader (tree header.json) header.transform };
}

impl Header {
    /// Its whole value.
    pub fn json(&self) -> &Json
        ensures value { result.now ≡ self.now.json }
        ensures header { IsHeader (tree self.now.json) self.now.grid }
    {
        &self.json
    }

    /// The grid of the vertices of the features that follow it.
    pub fn transform(&self) -> &Transform
        ensures { result.now ≡ self.now.grid }
    {
        &self.transform
    }
}
