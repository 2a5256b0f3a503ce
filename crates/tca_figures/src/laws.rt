//! What the octets of statements are, as contracts.
ghost use Rattle.std.specs.Prelude.{◌≡◌, List, ℕ};
ghost use Rattle.tca_figures.specs.Figures.{Stated};
ghost use Rattle.tca_figures.specs.Lines.{IsTextOf};
ghost use Rattle.tca_figures.specs.Totals.{IsSumOf};

/// No octets are the text of two statements (`text`), and no texts have two sums (`sum`).
pub fn a_statement_has_one_reading()
    ensures text { (octets : List ℕ) (s t : Stated) → IsTextOf octets s → IsTextOf octets t → s ≡ t }
    ensures sum { (texts : List (List ℕ)) (s t : Stated) → IsSumOf texts s → IsSumOf texts t → s ≡ t }
{}
