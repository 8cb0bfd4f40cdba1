ghost use Rattle.std.specs.Prelude.{◌≡◌, ◌==◌, List, ℕ, string_bytes};
ghost use Rattle.std.specs.Cmp.Lexicographic.{pointwise};
ghost use Rattle.std.specs.Cmp.Rules.{comparing};
ghost use Rattle.std.proofs.Common.{rules};

use std::marker::Model;

/// A short text, as the name of a VM or of a file.
#[derive(Debug, Drop)]
pub struct Label {
    text: String,
}

impl Model for Label {
    ghost Value = { List ℕ };

    ghost view = { λ l. string_bytes l.text };
}

impl Label {
    /// The label of this text. It takes no memory.
    pub fn new(text: String) -> Self
        ensures { result ≡ string_bytes text }
    {
        Label { text }
    }

    pub fn as_str(&self) -> &str
        ensures { result.now ≡ self.now }
    {
        self.text.as_str()
    }

    /// Gives the text back. It takes no memory.
    pub fn into_string(self) -> String
        ensures { string_bytes result ≡ self }
    {
        self.text
    }
}

impl PartialEq for Label {
    ghost eq = { pointwise ◌==◌ };

    ghost laws = { Prim.search (comparing, rules) };

    fn eq(&self, other: &Self) -> bool {
        self.text.as_str() == other.text.as_str()
    }
}

impl Eq for Label {
    ghost laws = { Prim.search (comparing, rules) };
}
