/// As what a process works on a queue: alone, as a maker of stages, or as a worker. It says what others may do beside it.
#[derive(Clone, Copy, Debug, PartialEq, Eq)]
pub enum Role {
    Local,
    Maker,
    Worker,
}
