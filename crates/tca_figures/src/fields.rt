//! The numbers of a line.
ghost use Rattle.std.specs.Prelude.{◌≡◌, ◌<◌, ◌^◌, ℕ, Some, IfSome, decimal, List, ◌∷◌, ◌++◌};
ghost use Rattle.std.specs.Option.{MatchOption};
ghost use Rattle.tca_figures.specs.Figures.{AreFigures, IsFigure};
ghost use Rattle.tca_figures.specs.Lines.{colour_fields};
ghost use Rattle.tca_figures.specs.declared.figures.ColourFigures.{ColourFigures};
ghost use Rattle.tca_figures.specs.declared.figures.Figure.{Figure};

use crate::figures::{ColourFigures, Figure};
use itoa::Buffer;

/// The number that a text is: decimal, without leading zeros or a sign, below 2^64.
pub(crate) fn number_of(text: &str) -> Option<u64>
    ensures found { IfSome result (λ n. text.now ≡ decimal n) }
    ensures only { (n : ℕ) → n < 2 ^ 64 → text.now ≡ decimal n → result ≡ Some n }
{
    let Ok(number) = text.parse::<u64>() else {
        return None;
    };
    let mut buffer = Buffer::new();
    if buffer.format(number) == text {
        Some(number)
    } else {
        None
    }
}

/// The number before the first space, and what is behind that space.
pub(crate) fn next_of(text: &str) -> Option<(u64, &str)>
    ensures found { IfSome result (λ p. text.now ≡ decimal p.0 ++ 32 ∷ p.1.now) }
    ensures only { (n : ℕ) (rest : List ℕ) → n < 2 ^ 64 → text.now ≡ decimal n ++ 32 ∷ rest
        → MatchOption result ⊥ (λ p. (p.0 ≡ n) × (p.1.now ≡ rest)) }
{
    let Some((word, rest)) = text.split_once(' ') else {
        return None;
    };
    let Some(number) = number_of(word) else {
        return None;
    };
    Some((number, rest))
}

// The figure at the front of a text, and what is behind the space after it.
fn next_figure(text: &str) -> Option<(Figure, &str)>
    ensures found { IfSome result (λ p. text.now ≡ decimal p.0.octets ++ (32 ∷ (decimal p.0.packets ++ 32 ∷ p.1.now))) }
    ensures sound { IfSome result (λ p. IsFigure p.0) }
    ensures only { (f : Figure) (rest : List ℕ) → IsFigure f → text.now ≡ decimal f.octets ++ (32 ∷ (decimal f.packets ++ 32 ∷ rest))
        → MatchOption result ⊥ (λ p. (p.0 ≡ f) × (p.1.now ≡ rest)) }
{
    let Some((octets, behind)) = next_of(text) else {
        return None;
    };
    let Some((packets, rest)) = next_of(behind) else {
        return None;
    };
    let Some(figure) = figure_of(octets, packets) else {
        return None;
    };
    Some((figure, rest))
}

// The figure that is a text.
fn last_figure(text: &str) -> Option<Figure>
    ensures found { IfSome result (λ f. text.now ≡ decimal f.octets ++ (32 ∷ decimal f.packets)) }
    ensures sound { IfSome result IsFigure }
    ensures only { (f : Figure) → IsFigure f → text.now ≡ decimal f.octets ++ (32 ∷ decimal f.packets) → result ≡ Some f }
{
    let Some((octets, behind)) = next_of(text) else {
        return None;
    };
    let Some(packets) = number_of(behind) else {
        return None;
    };
    figure_of(octets, packets)
}

// Octets and packets together, unless just one of them is 0.
fn figure_of(octets: u64, packets: u64) -> Option<Figure>
    ensures found { IfSome result (λ f. (f ≡ record { octets = octets; packets = packets }) × IsFigure f) }
    ensures only { IsFigure (record { octets = octets; packets = packets }) → result ≡ Some (record { octets = octets; packets = packets }) }
{
    if (octets == 0) == (packets == 0) {
        Some(Figure { octets, packets })
    } else {
        None
    }
}

/// The octets and packets of each colour that a text is.
pub(crate) fn figures_of(text: &str) -> Option<ColourFigures>
    ensures found { IfSome result (λ c. text.now ≡ colour_fields c) }
    ensures sound { IfSome result AreFigures }
    ensures only { (c : ColourFigures) → AreFigures c → text.now ≡ colour_fields c → result ≡ Some c }
{
    let Some((green, behind_green)) = next_figure(text) else {
        return None;
    };
    let Some((yellow, behind_yellow)) = next_figure(behind_green) else {
        return None;
    };
    let Some(red) = last_figure(behind_yellow) else {
        return None;
    };
    Some(ColourFigures { green, yellow, red })
}
