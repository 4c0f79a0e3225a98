//! Laws of the encoding. Each function does nothing: its contract is the law.
ghost use Rattle.avro_bin.specs.Laws.{OneSpelling, SomeOutcome, NotBoth, OneRefusal, ReadsExactly, RefusesExactly, PlainSpells, ReadsBack, ReadsLonger, RefusesLonger, SpelledHasSchema};

/// Bytes begin with at most one spelling of a schema, and it denotes one value: no spelling is a prefix of another.
pub fn one_spelling()
    ensures { OneSpelling }
{}

/// Bytes either begin with a value or are refused, and in one way.
pub fn one_outcome()
    ensures some { SomeOutcome }
    ensures not_both { NotBoth }
    ensures one_refusal { OneRefusal }
{}

/// Reading is a function of the bytes, `read_value` of `specs/Laws`, which answers exactly what the grammar says.
pub fn reading_is_exact()
    ensures read { ReadsExactly }
    ensures refused { RefusesExactly }
{}

/// What is written for a value is a spelling of it, so it reads back whatever follows it.
pub fn reads_back()
    ensures spelled { PlainSpells }
    ensures read { ReadsBack }
{}

/// What is spelled as a value of a schema is a value of it.
pub fn spelled_has_schema()
    ensures { SpelledHasSchema }
{}

/// Bytes that follow change nothing of what is read, nor of what is refused for another reason than that the input ended inside an item.
pub fn read_longer()
    ensures read { ReadsLonger }
    ensures refused { RefusesLonger }
{}
