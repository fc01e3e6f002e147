use ig_space::{Path, TryClone};
use ig_store::{Act, Steps};
use std::alloc::{AllocError, Global};

/// What a call told: its answer, what it wrote on both outputs, and its own steps, each in a line.
#[derive(Drop)]
pub struct Told {
    pub answer: String,
    pub out: String,
    pub err: String,
    pub steps: String,
}

impl Told {
    /// An answer alone.
    pub fn of(alloc: Global, answer: &str) -> Result<Told, AllocError> {
        Ok(Told::new(alloc, String::from_str(alloc, answer)?))
    }

    /// The same.
    pub fn new(alloc: Global, answer: String) -> Told {
        Told {
            answer,
            out: String::new(alloc),
            err: String::new(alloc),
            steps: String::new(alloc),
        }
    }

    /// Adds a line to the output.
    pub(crate) fn say(&mut self, line: &str) -> Result<(), AllocError> {
        self.out.push_str(line)?;
        self.out.push('\n')
    }
}

/// The bytes as a text; each is an ASCII character.
pub fn text_of(alloc: Global, bytes: &[u8]) -> Result<String, AllocError> {
    let mut text = String::new(alloc);
    for byte in bytes {
        text.push(*byte as char)?;
    }
    Ok(text)
}

/// The word of an act, its path, and the second one if there is one.
fn words_of(act: &Act) -> (&'static str, &Path, Option<&Path>) {
    match act {
        Act::Read(path) => ("read", path, None),
        Act::List(dir, _) => ("list", dir, None),
        Act::Put(path, _) => ("put", path, None),
        Act::Move(from, to) => ("move", from, Some(to)),
        Act::Remove(path) => ("remove", path, None),
    }
}

/// Adds the line of an act.
fn add_act(text: &mut String, act: &Act) -> Result<(), AllocError> {
    let (word, path, second) = words_of(act);
    text.push_str(word)?;
    text.push(' ')?;
    text.push_str(path.as_str())?;
    if let Some(second) = second {
        text.push(' ')?;
        text.push_str(second.as_str())?;
    }
    text.push('\n')
}

/// The steps, each in a line.
pub fn steps_text(alloc: Global, steps: &Steps) -> Result<String, AllocError> {
    let mut text = String::new(alloc);
    for step in steps.copy()?.as_slice() {
        add_act(&mut text, &step.act)?;
    }
    Ok(text)
}
