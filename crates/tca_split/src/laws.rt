//! What is read of the parts of a capture, as a contract.
ghost use Rattle.tca_split.specs.Losses.{SplittingLosesNothing};

/// The law of splitting: where a capture is read without a fault, each domain's part of it is too, in the same session; the reports of the
/// part are the capture's reports of that domain, in their order; and the notes of the parts add up to the capture's.
///
/// Templates belong to an observation domain (RFC 7011, section 8), so each part brings its own. The limit on templates is over all
/// domains, and no part has more of them than the capture.
pub fn splitting_loses_nothing()
    ensures { SplittingLosesNothing }
{}
