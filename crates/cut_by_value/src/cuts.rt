//! What a document is cut into: a header, and features or their texts.
use byte_streams::{Line, Sequence};
use city_feature::{Feature, Header};

/// The features of a document, in the order of the city objects that begin them.
pub type Features = Sequence<Feature>;

/// A document that was cut.
#[derive(Debug, Drop)]
pub struct Cut {
    pub header: Header,
    pub features: Features,
}

/// A document that was cut, its features written out.
#[derive(Debug, Drop)]
pub struct OpenCut {
    pub header: Header,
    /// The compact text of each feature without the brace that closes it, in their order, with nothing between them.
    pub own: Line,
    /// Where each of them ends.
    pub ends: Vec<usize>,
}
