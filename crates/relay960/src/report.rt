//! What is written to standard error about a fault.

use std::fmt;
use std::fmt::Display;

/// The lines about a fault: its own, and behind it that of what failed, if something did.
#[derive(Clone, Copy)]
pub struct Report<F, D> {
    /// The fault.
    pub fault: F,
    /// What failed.
    pub failure: Option<D>,
}

impl<F: Display, D: Display> Display for Report<F, D> {
    ghost use Rattle.relay960.specs.Reports.{report_text};
    ghost use Rattle.std.specs.Prelude.{option_map};

    ghost output = { λ report. report_text (F.output report.fault) (option_map D.output report.failure) };

    fn fmt<W: fmt::Write>(&self, f: &mut fmt::Formatter<W>) -> fmt::Result {
        match &self.failure {
            Some(failure) => writeln!(f, "{}\n{}", self.fault, failure),
            None => writeln!(f, "{}", self.fault),
        }
    }
}
