//! A program with its text.
ghost use Rattle.std.specs.Prelude.{◌≡◌};
ghost use Rattle.report.specs.Report.{byte_places};

use control_points::Flow;
use px_base::Pos;

mod parts;

/// A program with its points, and the text in which it lies.
#[derive(Clone, Copy)]
pub(crate) struct Source<'a> {
    pub text: &'a [u8],
    /// The line and the column of each byte, and of the end.
    pub places: &'a [Pos],
    pub flow: &'a Flow,
    pub ghost placed: { places.now ≡ byte_places text.now },
}
