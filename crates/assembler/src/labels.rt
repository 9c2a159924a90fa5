// What the lines so far define: labels, and how many instructions there are.
ghost use Rattle.std.specs.Prelude.{◌≡◌, ◌≤◌, length};

// A label, and the number that it stands for.
#[derive(Clone, Copy)]
pub struct Label<'a> {
    pub name: &'a str,
    pub number: u32,
}

// At most 256 labels, in the value itself, since assembling takes no heap.
#[derive(Drop)]
pub struct Labels<'a> {
    pub labels: [Label<'a>; 256],
    // how many of them the lines define
    pub count: usize,
    pub instructions: u32,
    // behind a reference a proof knows the array's length only by this
    ghost room: { length labels ≡ 256 },
    ghost fits: { count ≤ 256 },
}

impl<'a> Labels<'a> {
    ghost use Rattle.std.specs.Prelude.{take};
    ghost use Rattle.std.specs.Option.{option_map};
    ghost use Rattle.assembler.specs.Labels.{label_in, known, found, summary, none};

    // Before any line.
    pub(crate) fn new() -> Labels<'a>
        ensures { summary result ≡ none }
    {
        Labels {
            labels: [Label {
                name: "",
                number: 0,
            }; 256],
            count: 0,
            instructions: 0,
        }
    }

    // The first label of a name.
    fn label(&self, name: &str) -> Option<&Label<'a>>
        ensures { option_map (λ x. x.now) result ≡ label_in name.now (take self.now.count self.now.labels) }
    {
        self.labels[..self.count]
            .iter()
            .find(|label| label.name == name)
    }

    // The number that a label stands for.
    #[tactic(auto, using(crate::proofs::Tables::found_entries))]
    pub(crate) fn find(&self, name: &str) -> Option<u32>
        ensures { result ≡ found name.now (known self.now) }
    {
        self.label(name).map(|label| label.number)
    }
}
