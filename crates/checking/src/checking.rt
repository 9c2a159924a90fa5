// A checking, which takes a dossier's units by turns.
ghost use Rattle.std.specs.Prelude.{◌≡◌, ◌+◌, ◌^◌, ◌<◌};
ghost use Rattle.dossier.specs.Meaning.{Made};
ghost use Rattle.rules.specs.Checks.{judged};
ghost use Rattle.rules.specs.Course.{begun, took, taking, advanced, advance_answer, reported, closing};
ghost use Rattle.checking.specs.Laws.{Advances, ClosesAt};
ghost use Rattle.checking.specs.Taking.{in_stage, stage_now, checked_now, settled, passed};

use course::verdict::Verdict;
use dossier::opened::Opened;
use dossier::questions::Dossier;
use dossier::record::Row;
use outset::{admit, begin_under, left_of};
use rules::call::{Advanced, Refused, Report};
use rules::finding::Finding;
use rules::progress::{Item, Progress, Stage};
use unit_checks::turn::Turn;

// A dossier, and how far its checking has come.
#[derive(Drop)]
pub struct Checking<D: Dossier> {
    dossier: Opened<D>,
    progress: Progress,
}

impl<D: Dossier> Checking<D> {
    // A new checking, which never refuses: a missing head and one past the limits are findings.
    pub fn begin(dossier: D) -> Checking<D>
        requires { D.Dossier.rule dossier }
        ensures same { result.dossier ≡ D.Dossier.meaning dossier }
        ensures progress { result.progress ≡ begun (D.Dossier.meaning dossier) }
        ensures made { Made (D.Dossier.meaning dossier) }
    {
        let dossier = Opened::new(dossier);
        let progress = begin_under(dossier.head());
        Checking { dossier, progress }
    }

    // Checks an item in its stage, which changes in place.
    fn judge(&mut self, turn: Turn, item: Item) -> Result<(), Finding>
        ensures same { self.new.dossier ≡ self.old.dossier }
        ensures progress { self.new.progress ≡ in_stage self.old.progress (settled self.old.progress.stage (judged self.old.dossier turn.head turn.unit self.old.progress.stage item)) }
        ensures answer { result ≡ passed (judged self.old.dossier turn.head turn.unit self.old.progress.stage item) }
    {
        match (&mut self.progress.stage, item) {
            (Stage::Instructions, Item::Instruction(instruction)) => {
                turn.check_instruction(instruction)?;
            }
            (Stage::Lines { former }, Item::Line(line)) => {
                turn.check_line(&mut self.dossier, *former, line)?;
                *former = Some(line.cell);
            }
            (Stage::Rows { cpu, ended }, Item::Row(row)) => {
                *cpu = turn.check_row(&mut self.dossier, cpu, *ended, row)?;
                *ended = *ended || matches!(row, Row::AdviceEnd);
            }
            // a word has no rule; the item is of the kind that the stage takes, so no other pair comes
            _ => {}
        }
        Ok(())
    }

    // Checks the next unit in its stage.
    fn check_unit(&mut self) -> Result<(), Finding>
        ensures same { self.new.dossier ≡ self.old.dossier }
        ensures progress { self.new.progress ≡ in_stage self.old.progress (settled (stage_now self.old.progress) (checked_now self.old.dossier self.old.progress)) }
        ensures answer { result ≡ passed (checked_now self.old.dossier self.old.progress) }
    {
        let turn = Turn::new(self.progress.head, self.progress.taken);
        self.progress.stage = turn.stage(self.progress.stage);
        let item = turn.item(&mut self.dossier)?;
        self.judge(turn, item)
    }

    // Takes the next unit, or finds something at it.
    fn take(&mut self)
        requires { self.old.progress.taken + 1 < 2 ^ 32 }
        ensures same { self.new.dossier ≡ self.old.dossier }
        ensures progress { self.new.progress ≡ took self.old.dossier self.old.progress }
    {
        match self.check_unit() {
            Ok(()) => self.progress.taken += 1,
            Err(finding) => self.progress.finding = Some(finding),
        }
    }

    // Takes the next `k` units, or up to a finding.
    fn take_units(&mut self, k: u32)
        requires { self.old.progress.taken + k < 2 ^ 32 }
        ensures same { self.new.dossier ≡ self.old.dossier }
        ensures progress { self.new.progress ≡ taking self.old.dossier self.old.progress k }
    {
        for _ in 0..k {
            if self.progress.finding.is_some() {
                return;
            }
            self.take();
        }
    }

    // Takes the next `k` units and answers `k`, or stops at a finding and answers that.
    pub fn advance(&mut self, k: u32) -> Result<Advanced, Refused>
        ensures same { self.new.dossier ≡ self.old.dossier }
        ensures progress { self.new.progress ≡ advanced self.old.dossier self.old.progress k }
        ensures answer { result ≡ advance_answer self.old.dossier self.old.progress k }
        ensures law { Advances self.old.dossier self.old.progress k result }
    {
        // asked when the dossier was opened: it says that the head counts the lists, which the law is about
        let _ = self.dossier.head();
        admit(&self.progress, k)?;
        self.take_units(k);
        Ok(
            self.progress
                .finding
                .map_or(Advanced::Took(k), Advanced::Found),
        )
    }

    // Tells the units taken and left, and the finding, if there is one.
    pub fn ask(&self) -> Report
        ensures { result ≡ reported self.now.progress }
    {
        Report {
            taken: self.progress.taken,
            left: left_of(&self.progress),
            finding: self.progress.finding,
        }
    }

    // Uses the checking up.
    pub fn close(self) -> Verdict
    where
        D: Drop,
        ensures outcome { result.outcome ≡ closing self.progress }
        ensures head { result.head ≡ self.progress.head }
        ensures law { ClosesAt self.dossier self.progress result.outcome }
    {
        // as in an advance, for the law
        let _ = self.dossier.head();
        Verdict::new(&self.progress)
    }
}
