// How a checking begins under a head, and when it may go on.
#![tactic(auto)]

ghost use Rattle.std.specs.Prelude.{◌≡◌, ◌+◌, ◌^◌, ◌<◌, Ok};
ghost use Rattle.rules.specs.Course.{in_limits, stopped, begun_by, refused, left};
ghost use Rattle.outset.specs.Admitted.{admitted};

use dossier::record::Head;
use dossier::refusal::{Part, Refusal};
use rules::call::Refused;
use rules::finding::{Finding, Rule};
use rules::progress::{Progress, Stage};

// The limits on the program, the primary words, the rows and the bound. Crate `runner` has its own, which happen to have
// the same numbers: neither crate is below the other.
const INSTRUCTIONS: u32 = 4_096;

const WORDS: u32 = 4_096;

const STEPS: u32 = 1_000_000;

fn in_limits(head: Head) -> bool
    ensures { result ≡ in_limits head }
{
    (1..=INSTRUCTIONS).contains(&head.instructions)
        && head.words <= WORDS
        && (1..=STEPS).contains(&head.rows)
        && (1..=STEPS).contains(&head.bound)
        && head.rows <= head.bound
        && head.lines <= head.rows
}

// Findings 20 and 21 are made at the beginning, with no unit taken and none left.
fn stop(head: Head, rule: Rule) -> Progress
    ensures { result ≡ stopped head rule }
{
    Progress {
        head,
        total: 0,
        taken: 0,
        stage: Stage::Instructions,
        finding: Some(Finding::Broken {
            rule,
            part: Part::Head,
            place: 0,
        }),
    }
}

// The beginning of a checking under a head, or under none: then all the head's numbers are 0.
pub fn begin_under(answer: Result<Head, Refusal>) -> Progress
    ensures { result ≡ begun_by answer }
{
    match answer {
        Ok(head) if in_limits(head) => Progress {
            head,
            total: head.instructions + head.words + head.lines + head.rows,
            taken: 0,
            stage: Stage::Instructions,
            finding: None,
        },
        Ok(head) => stop(head, Rule::Limits),
        Err(_) => stop(Head::default(), Rule::Head),
    }
}

// The units that are not yet taken.
pub fn left_of(progress: &Progress) -> u32
    ensures value { result ≡ left progress.now }
    ensures fits { progress.now.total < 2 ^ 32 }
{
    progress.total.saturating_sub(progress.taken)
}

// Refuses an advance after a finding, by 0, and by more than is left.
pub fn admit(progress: &Progress, k: u32) -> Result<(), Refused>
    ensures answer { result ≡ admitted (refused progress.now k) }
    ensures few { result ≡ Ok tt → progress.now.taken + k < 2 ^ 32 }
{
    let left = left_of(progress);
    match progress.finding {
        Some(finding) => Err(Refused::AfterFinding(finding)),
        None if k == 0 => Err(Refused::ByZero),
        None if left < k => Err(Refused::TooMany(left)),
        None => Ok(()),
    }
}
