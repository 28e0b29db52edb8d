ghost use Rattle.std.specs.Prelude.{◌≡◌};
ghost use Rattle.worksheet_check.specs.Findings.{verdict_by};

use worksheet::{Shown, Verdict, WsPlace};

/// What is found wrong at a place of a worksheet, and what is due there.
#[derive(Debug, Drop)]
pub(crate) struct Finding {
    pub place: WsPlace,
    pub found: Shown,
    pub due: Shown,
}

/// The verdict by the first finding.
pub(crate) fn verdict_by(finding: Option<Finding>) -> Verdict
    ensures { result ≡ verdict_by finding }
{
    match finding {
        None => Verdict::Right,
        Some(Finding { place, found, due }) => Verdict::Wrong { place, found, due },
    }
}
