// The numbers of findings and of refusals to advance, and the values that they return.
ghost use Rattle.std.specs.Prelude.{◌≡◌, ℕ, List};
ghost use Rattle.std.specs.List.{slice_get};
ghost use Rattle.course.specs.Numbers.{finding_number, finding_values, refused_number, refused_values};

use rules::call::Refused;
use rules::finding::Finding;

// What has a number and values of 32 bits. The refusals of other crates tell theirs by methods of the same names: a
// write returns 64 bits, and a run may be refused with no number.
pub trait Numbered {
    ghost assigned: { Self → ℕ };

    ghost returned: { Self → List ℕ };

    fn number(&self) -> u8
        ensures { result ≡ assigned self.now };

    // The value at a place among those that are returned.
    fn value(&self, place: usize) -> Option<u32>
        ensures { result ≡ slice_get (returned self.now) place };
}

impl Numbered for Finding {
    ghost assigned = { finding_number };

    ghost returned = { finding_values };

    fn number(&self) -> u8 {
        match *self {
            Finding::Broken { rule, .. } => u8::from(rule),
            Finding::Unreadable { .. } => 22,
        }
    }

    fn value(&self, place: usize) -> Option<u32> {
        match *self {
            Finding::Broken {
                part,
                place: at,
                ..
            } => [u32::from(part), at].get(place).copied(),
            Finding::Unreadable {
                part,
                place: at,
                fault,
            } => [
                u32::from(part),
                at,
                u32::from(fault.part),
                fault.place,
                fault.layer,
            ]
            .get(place)
            .copied(),
        }
    }
}

impl Numbered for Refused {
    ghost assigned = { refused_number };

    ghost returned = { refused_values };

    fn number(&self) -> u8 {
        match self {
            Refused::ByZero => 3,
            Refused::TooMany(_) => 4,
            Refused::AfterFinding(_) => 5,
        }
    }

    // Refusal 5 returns the finding: its number, and then its values.
    fn value(&self, place: usize) -> Option<u32> {
        match (*self, place) {
            (Refused::ByZero, 0) => Some(0),
            (Refused::TooMany(left), 0) => Some(left),
            (Refused::AfterFinding(finding), 0) => Some(u32::from(finding.number())),
            (Refused::AfterFinding(finding), _) => finding.value(place - 1),
            _ => None,
        }
    }
}
