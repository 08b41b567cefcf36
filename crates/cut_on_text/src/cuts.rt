//! What a document is cut into: a header, and the texts of its features.
use crate::held::FeatureTexts;
use city_feature::Header;

/// A document that was cut, its features written out.
#[derive(Debug, Drop)]
pub struct CutTexts {
    pub header: Header,
    /// The compact text of each feature, in their order.
    pub texts: FeatureTexts,
}
