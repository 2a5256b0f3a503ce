//! The keys of a plan's document.
use std::fmt;

/// A key of a plan's document.
#[derive(Clone, Copy, Debug, PartialEq, Eq)]
pub enum Key {
    /// The length of a period, in milliseconds.
    Period,
    /// The accounts.
    Account,
    /// The kind of the meter of an account or a term.
    Meter,
    /// The start of a term, in milliseconds.
    From,
    /// An account's name.
    Name,
    /// Whether precolours count.
    Aware,
    /// The colour of a code point that has none of its own.
    Other,
    /// Whether a packet may take all tokens of a bucket (RFC 4115).
    ExactFit,
    /// The committed information rate.
    Cir,
    /// The committed burst size.
    Cbs,
    /// The excess burst size (RFC 2697 and RFC 4115).
    Ebs,
    /// The peak information rate (RFC 2698).
    Pir,
    /// The peak burst size (RFC 2698).
    Pbs,
    /// The excess information rate (RFC 4115).
    Eir,
    /// The pairs that an account owns.
    Keys,
    /// The terms of an account's meter.
    Term,
}

impl Key {
    ghost use Rattle.std.specs.Prelude.{◌≡◌};
    ghost use Rattle.tca_accounts.specs.Documents.{key_name};

    /// The key as TOML writes it.
    pub fn name(self) -> &'static str
        ensures { result.now ≡ key_name self }
    {
        match self {
            Key::Period => "period",
            Key::Account => "account",
            Key::Meter => "meter",
            Key::From => "from",
            Key::Name => "name",
            Key::Aware => "aware",
            Key::Other => "other",
            Key::ExactFit => "exact_fit",
            Key::Cir => "cir",
            Key::Cbs => "cbs",
            Key::Ebs => "ebs",
            Key::Pir => "pir",
            Key::Pbs => "pbs",
            Key::Eir => "eir",
            Key::Keys => "keys",
            Key::Term => "term",
        }
    }
}

impl fmt::Display for Key {
    fn fmt<W: fmt::Write>(&self, f: &mut fmt::Formatter<W>) -> fmt::Result {
        f.write_str(self.name())
    }
}
