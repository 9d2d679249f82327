//! Does a row keep the rules of a kind?

ghost use Rattle.std.specs.Prelude.{◌≡◌, ◌≤◌};
ghost use Rattle.kinds.specs.Rows.{row_lawful, row_runs};
ghost use Rattle.kinds.specs.Shapes.{runs_fit};

use super::{MAX_FIELDS, Row};

impl Row {
    /// Does each run fit, and begin past the end of the run before?
    fn runs_fit(&self) -> bool
        requires { self.now.fields ≤ 62 }
        ensures { result ≡ runs_fit 0 self.now.fields (row_runs self.now) }
    {
        let mut low = 0;
        for run in self.runs.as_slice() {
            if !run.fits(low, self.fields) {
                return false;
            }
            low = run.end() + 1;
        }
        true
    }

    /// Does the row keep the rules of a kind?
    pub(crate) fn lawful(&self) -> bool
        ensures { result ≡ row_lawful self.now }
    {
        self.fields <= MAX_FIELDS && self.runs_fit()
    }
}
