//! Laws of the names and of the texts. Each function does nothing: its contract is the law.
ghost use Rattle.capture_text.specs.Laws.{FieldsAreNamed, PartsAreTheSchemas, MessagesAreNamed, MessagesHaveTheirNames, NamesDiffer, OneNumber, OneRunOfBytes, OneQuotedText, OneText};

/// Each record has as many names as fields, and its fields' schemas are where its names look for them; each message that a side sends has
/// the name of its number, and no other one has that name.
pub fn names_fit()
    ensures fields { FieldsAreNamed }
    ensures parts { PartsAreTheSchemas }
    ensures messages { MessagesAreNamed }
    ensures own { MessagesHaveTheirNames }
    ensures differ { NamesDiffer }
{}

/// A number, bytes and a text can be parsed from their own texts, whatever follows them, unless that begins with a digit.
pub fn one_piece()
    ensures number { OneNumber }
    ensures bytes { OneRunOfBytes }
    ensures quoted { OneQuotedText }
{}

/// A value can be parsed from its text, whatever follows it, unless that begins with a digit: two values of one schema that differ have
/// different texts.
pub fn one_text()
    ensures { OneText }
{}
