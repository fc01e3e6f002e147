/// The name of a task in the queue: the second from which on it may be leased, the number of its stage, its own number in
/// that stage, and how often it was leased.
#[derive(Clone, Copy, Debug, PartialEq, Eq)]
pub struct QueueName {
    pub visible: u64,
    pub stage: u32,
    pub task: u32,
    pub attempt: u32,
}
