/// A task of a queue: the number of its stage, and its own number in that stage.
#[derive(Clone, Copy, Debug, PartialEq, Eq)]
pub struct TaskId {
    pub stage: u32,
    pub task: u32,
}
