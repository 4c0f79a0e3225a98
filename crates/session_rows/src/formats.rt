//! The formats of data objects.
ghost use Rattle.std.specs.Prelude.{◌≡◌, IfOk, OnOk, Some, map};
ghost use Rattle.std.specs.List.{list_any};
ghost use Rattle.session_rows.specs.Formats.{format_of, format_text, formats_of, same_format};
ghost use Rattle.session_rows.specs.ObjectChecks.{format_among};
ghost use Rattle.session_rows.specs.Once.{with_new};

use etp_values::{List, NoMemory, Text};
use std::alloc::Global;

/// A format of data objects.
#[derive(Clone, Copy, Debug, PartialEq, Eq, Drop)]
pub enum Format {
    Xml,
    Json,
}

impl Format {
    /// The format's text.
    pub fn text(self) -> &'static str
        ensures { result.now ≡ format_text self }
    {
        match self {
            Format::Xml => "xml",
            Format::Json => "json",
        }
    }

    /// The format of a text.
    pub fn of_text(text: &str) -> Option<Format>
        ensures { result ≡ format_of text.now }
    {
        if text == "xml" {
            Some(Format::Xml)
        } else if text == "json" {
            Some(Format::Json)
        } else {
            None
        }
    }
}

fn has_format(formats: &[Format], format: Format) -> bool
    ensures { result ≡ list_any (same_format format) formats.now }
{
    for other in formats {
        if format.text() == other.text() {
            return true;
        }
    }
    false
}

/// The format, if it is one of these.
pub(crate) fn among(formats: &[Format], format: Format) -> Option<Format>
    ensures { result ≡ format_among formats.now (Some format) }
{
    if has_format(formats, format) {
        return Some(format);
    }
    None
}

fn put_format(formats: &mut Vec<Format>, format: Format) -> Result<(), NoMemory>
    ensures { OnOk result (formats.new.items ≡ with_new same_format formats.old.items format) }
{
    if has_format(formats, format) {
        return Ok(());
    }
    formats.push(format)?;
    Ok(())
}

/// The formats of a session, out of those that were asked for.
pub(crate) fn formats_of(alloc: Global, texts: &[Text]) -> Result<List<Format>, NoMemory>
    ensures { IfOk result (λ l. l ≡ formats_of texts.now) }
{
    let mut formats = Vec::new(alloc);
    if texts.len() == 0 {
        formats.push(Format::Xml)?;
        return Ok(List::from_vec(formats));
    }
    for text in texts {
        if let Some(format) = Format::of_text(text.as_str()) {
            put_format(&mut formats, format)?;
        }
    }
    Ok(List::from_vec(formats))
}

/// The texts of these formats.
pub(crate) fn format_texts(alloc: Global, formats: &[Format]) -> Result<List<Text>, NoMemory>
    ensures { IfOk result (λ l. l ≡ map format_text formats.now) }
{
    let mut texts = Vec::new(alloc);
    for format in formats {
        let text = Text::copy(alloc, format.text())?;
        texts.push(text)?;
    }
    Ok(List::from_vec(texts))
}
