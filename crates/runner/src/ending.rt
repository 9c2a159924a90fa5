// The answer of a run, and the step, counted from 1, that executes `answer` with it.
#[derive(Clone, Copy, PartialEq, Eq, Debug)]
pub struct Answered {
    pub value: u32,
    pub step: u32,
}

// How a run ends: with its answer, or with none where no step within the bound answers; and how many cells it has touched.
#[derive(Clone, Copy, PartialEq, Eq, Debug)]
pub struct Run {
    pub answer: Option<Answered>,
    pub cells: u32,
}
