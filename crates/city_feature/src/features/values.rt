//! A feature by its value, which no line and no document needs whose text tells it: what is one, moved, written, with its
//! vertices in steps of the grid.
ghost use Rattle.std.specs.Prelude.{◌≡◌};
ghost use Rattle.city_json.specs.Tree.{tree};
ghost use Rattle.city_feature.specs.Feature.{IsFeature};

pub(crate) mod moving;
pub(crate) mod reader;
pub(crate) mod writer;

use city_grid::Vertex;
use city_json::Json;
use std::marker::Model;

/// A feature: a CityJSONFeature object with its vertices in steps of the grid (CityJSON 2.0, Text
/// sequences and streaming with CityJSONFeature).
#[derive(Debug, Drop)]
pub struct Feature {
    json: Json,
    vertices: Vec<Vertex>,
}

impl Model for Feature {
    ghost use Rattle.std.specs.Coded.{codes};
    ghost use Rattle.city_json.specs.Tree.{tree};
    ghost use Rattle.city_json.specs.contracts.json.Json as json_type;
    ghost use Rattle.city_feature.specs.Feature.{IsFeature};
    ghost use Rattle.city_feature.specs.Values.{FeatureJson};

    ghost Value = { FeatureJson };

    ghost coded = { Prim.hlevel (codes, json_type.the_row.coded) };

    ghost view = { λ feature. record { json = feature.json; vertices = feature.vertices.items } };

    ghost invariant = { λ feature. IsFeature (tree feature.json) feature.vertices.items };
}

impl Feature {
    /// Its whole value, the vertices among it.
    pub fn json(&self) -> &Json
        ensures value { result.now ≡ self.now.json }
        ensures feature { IsFeature (tree self.now.json) self.now.vertices }
    {
        &self.json
    }

    /// Its vertices, in their order, in grid units.
    pub fn vertices(&self) -> &[Vertex]
        ensures { result.now ≡ self.now.vertices }
    {
        &self.vertices
    }
}
