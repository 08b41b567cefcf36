//! Documents and what they are cut into, and tables of these, a row on each line.
use byte_streams::{Fault, Line};
use city_cut::{Cut, CutTexts, cut, cut_texts};
use city_feature::line;
use city_json::{print, read};
use std::alloc::{AllocError, AllocGlobal, Global};
use std::process::Abort;

/// The first members of a document, without its end.
const HEAD: &str =
    r#"{"type":"CityJSON","version":"2.0","transform":{"scale":[0.001,0.001,0.001],"translate":[0,0,0]}"#;

const POINTS: &str = "[[0,0,0],[1,1,1],[2,2,2],[3,3,3]]";

/// The text, in which this row stands for `ROW`, and those above for `HEAD` and `POINTS`.
pub(crate) fn filled(alloc: Global, text: &str, row: &str) -> Result<String, AllocError> {
    text.replace(alloc, "ROW", row)?
        .replace(alloc, "HEAD", HEAD)?
        .replace(alloc, "POINTS", POINTS)
}

fn put_numbered(
    text: &mut String,
    alloc: Global,
    form: &str,
    number: u32,
) -> Result<(), AllocError> {
    text.push_str(&form.replace(alloc, "NUMBER", &format!(in alloc; "{number}")?)?)
}

/// The form so many times, in which the numbers from 0 on stand for `NUMBER`.
pub(crate) fn repeated(alloc: Global, form: &str, count: u32) -> Result<String, AllocError> {
    let mut text = String::new(alloc);
    for number in 0..count {
        put_numbered(&mut text, alloc, form, number)?;
    }
    Ok(text)
}

/// The text, in which these stand for the word.
pub(crate) fn with_repeated(
    alloc: Global,
    text: &str,
    word: &str,
    form: &str,
    count: u32,
) -> Result<String, AllocError> {
    text.replace(alloc, word, &repeated(alloc, form, count)?)
}

pub(crate) fn cut_text(alloc: Global, document: &str) -> Result<Cut, Fault> {
    cut(alloc, read(alloc, document.as_bytes())?)
}

/// Adds the header and the features, with a space before each of these.
fn put_features(stream: &mut Line, alloc: Global, cut: &Cut) -> Result<(), Fault> {
    print(cut.header.json(), stream)?;
    for feature in cut.features.items() {
        stream.append(b" ")?;
        stream.append(line(alloc, feature)?.items())?;
    }
    Ok(())
}

/// The same of the texts of features.
pub(crate) fn put_texts(stream: &mut Line, alloc: Global, cut: &mut CutTexts) -> Result<(), Fault> {
    print(cut.header.json(), stream)?;
    for at in 0..cut.texts.len() {
        stream.append(b" ")?;
        cut.texts.append_own(alloc, at, stream)?;
        stream.append(cut.texts.common())?;
    }
    Ok(())
}

fn cut_into_features(stream: &mut Line, alloc: Global, document: &str) -> Result<(), Fault> {
    put_features(stream, alloc, &cut_text(alloc, document)?)
}

fn cut_into_texts(stream: &mut Line, alloc: Global, document: &str) -> Result<(), Fault> {
    put_texts(
        stream,
        alloc,
        &mut cut_texts(alloc, read(alloc, document.as_bytes())?)?,
    )
}

/// Whether the document is cut into these texts, or refused for this fault.
pub(crate) fn texts_are(
    alloc: Global,
    document: &str,
    wanted: &[u8],
    fault: Option<Fault>,
) -> bool {
    let mut stream = Line::new(alloc);
    cut_into_texts(&mut stream, alloc, document).err() == fault && stream.items() == wanted
}

/// Whether the stream is what is wanted, or the fault has that name.
fn is_wanted(alloc: Global, stream: &[u8], fault: Option<Fault>, wanted: &str) -> bool {
    let Some(fault) = fault else {
        return stream == wanted.as_bytes();
    };
    match format!(in alloc; "{fault:?}") {
        Ok(name) => name.as_str() == wanted,
        Err(_) => false,
    }
}

/// Whether the document is cut into this, or refused so, where it is cut into features and where into texts.
fn is_cut(alloc: Global, document: &str, wanted: &str) -> bool {
    let mut stream = Line::new(alloc);
    let fault = cut_into_features(&mut stream, alloc, document).err();
    is_wanted(alloc, stream.items(), fault, wanted)
        && texts_are(alloc, document, stream.items(), fault)
}

/// Whether the row holds: what stands for `ROW` in the form of the document, and what in that of its answer.
fn holds(alloc: Global, form: &str, answer: &str, row: &str) -> Result<bool, AllocError> {
    let Some((given, wanted)) = row.split_once(" => ") else {
        return Ok(false);
    };
    let document = filled(alloc, form, given)?;
    let wanted = filled(alloc, answer, wanted)?;
    Ok(is_cut(alloc, &document, &wanted))
}

/// The rows of a table hold.
pub(crate) fn expect(rt: &(impl Abort + AllocGlobal), form: &str, answer: &str, table: &str) {
    for row in table.lines() {
        assert!(rt; holds(rt.alloc(), form, answer, row) == Ok(true), "{row}");
    }
}
