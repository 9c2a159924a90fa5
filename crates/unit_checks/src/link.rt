// The rules of a touch's links: where it comes from, and where it leads on to.
ghost use Rattle.std.specs.Prelude.{◌≡◌};
ghost use Rattle.rules.specs.Checks.{checked_origin, checked_next};

use crate::turn::Turn;
use dossier::questions::Dossier;
use dossier::record::Row;
use rules::finding::{Finding, Rule};
use run_log::links::{is_from_step, leads_to, opens};

impl Turn {
    // Rule 31: the line, or the earlier row, is asked for only where there is one.
    #[inline(always)]
    pub(crate) fn check_origin<D: Dossier>(self, dossier: &mut D, row: Row) -> Result<(), Finding>
        requires { D.Dossier.rule dossier.old }
        ensures kept { D.Dossier.rule dossier.new }
        ensures same { D.Dossier.meaning dossier.new ≡ D.Dossier.meaning dossier.old }
        ensures answer { result ≡ checked_origin (D.Dossier.meaning dossier.old) self.head self.unit row }
    {
        match row {
            Row::FromLine(touch) => {
                self.check(touch.origin < self.head.lines, Rule::Origin)?;
                let line = self.need(dossier.line(touch.origin))?;
                self.check(opens(line, touch, self.step()), Rule::Origin)
            }
            Row::FromStep(touch) => {
                let is_earlier = (1..=self.place()).contains(&touch.origin);
                self.check(is_earlier, Rule::Origin)?;
                let former = self.need(dossier.row(touch.origin - 1))?;
                self.check(leads_to(former, touch, self.step()), Rule::Origin)
            }
            _ => Ok(()),
        }
    }

    // Rule 32: next is 0, or a later row, which is then asked for.
    #[inline(always)]
    pub(crate) fn check_next<D: Dossier>(self, dossier: &mut D, next: u32) -> Result<(), Finding>
        requires { D.Dossier.rule dossier.old }
        ensures kept { D.Dossier.rule dossier.new }
        ensures same { D.Dossier.meaning dossier.new ≡ D.Dossier.meaning dossier.old }
        ensures answer { result ≡ checked_next (D.Dossier.meaning dossier.old) self.head self.unit next }
    {
        if next == 0 {
            return Ok(());
        }
        let is_later = self.step() < u64::from(next) && next <= self.head.rows;
        self.check(is_later, Rule::Next)?;
        let row = self.need(dossier.row(next - 1))?;
        self.check(is_from_step(row, self.step()), Rule::Next)
    }
}
