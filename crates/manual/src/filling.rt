//! The parts of a file, filled with what each entry says.
use crate::entries::{Entry, EntryKind};
use crate::output::Output;
use crate::page::add_told;

/// A part of a file: what stands there for each entry. A word between `~` is a place that is filled
/// with something of the entry.
pub(crate) struct Section<'a> {
    pub(crate) program: &'a str,
    pub(crate) command: &'a str,
    pub(crate) flag: &'a str,
    pub(crate) valued: &'a str,
    pub(crate) types: &'a str,
    pub(crate) files: &'a str,
    pub(crate) no_files: &'a str,
}

pub(crate) const NOTHING: Section<'static> = Section {
    program: "",
    command: "",
    flag: "",
    valued: "",
    types: "",
    files: "",
    no_files: "",
};

/// The types of city objects of CityJSON 2.0. Those of extensions begin with `+` and are no part of it.
static TYPES: &str = "\
Bridge BridgeConstructiveElement BridgeFurniture BridgeInstallation BridgePart BridgeRoom Building \
BuildingConstructiveElement BuildingFurniture BuildingInstallation BuildingPart BuildingRoom \
BuildingStorey BuildingUnit CityFurniture CityObjectGroup LandUse OtherConstruction PlantCover \
Railway Road SolitaryVegetationObject TINRelief TransportSquare Tunnel TunnelConstructiveElement \
TunnelFurniture TunnelHollowSpace TunnelInstallation TunnelPart WaterBody Waterway";

/// Adds the sections, each filled with all entries; the texts `escapes` stand for characters of
/// their help.
pub(crate) fn add_sections(
    out: &mut Output,
    sections: &[Section<'_>],
    escapes: &[(char, &str)],
    entries: &[Entry<'_>],
) {
    for section in sections {
        for entry in entries {
            add_filled(out, text_for(section, entry.kind), escapes, entry);
        }
    }
}

fn text_for<'a>(section: &Section<'a>, kind: EntryKind) -> &'a str {
    match kind {
        EntryKind::Program => section.program,
        EntryKind::Command => section.command,
        EntryKind::Flag => section.flag,
        EntryKind::Valued => section.valued,
        EntryKind::Types => section.types,
        EntryKind::Files => section.files,
        EntryKind::NoFiles => section.no_files,
    }
}

fn add_filled(out: &mut Output, text: &str, escapes: &[(char, &str)], entry: &Entry<'_>) {
    for part in text.split('~') {
        match part {
            "command" => out.add(entry.command),
            "option" => out.add(entry.option),
            "help" => out.add_escaped(entry.help, escapes),
            "purpose" => out.add_uncapitalized(entry.help),
            "types" => out.add(TYPES),
            _ => add_told(out, part, entry.command),
        }
    }
}
