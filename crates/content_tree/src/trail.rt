//! The steps that lead to what was refused. An error keeps them, added from the inside out.

ghost use Rattle.std.specs.Prelude.{◌≡◌, ◌∷◌, [], Some, IfOk, map};
ghost use Rattle.content_tree.specs.Errors.Where.{place_of, trail_places, IsInside, IsKept};
ghost use Rattle.content_tree.specs.Errors.Where.{places_of, item, under};

use std::alloc::{AllocError, Global};

/// A step into a value: a `Place` in the words of contracts.
#[derive(Drop)]
pub(crate) enum Step {
    /// To the item of this index.
    Index(usize),
    /// To what has this name: a field, a key or a variant.
    Name(String),
}

/// The steps that lead to what was refused.
#[derive(Drop)]
pub(crate) enum Trail {
    /// None: the whole value was refused.
    Here,
    /// These, the innermost first.
    Steps(Box<Vec<Step>>),
    /// Unknown: memory ran out while they were kept.
    Unknown,
}

impl Step {
    /// The step to a name.
    fn named(alloc: Global, name: &str) -> Result<Step, AllocError>
        ensures { IfOk result (λ step. place_of step ≡ under name.now) }
    {
        Ok(Step::Name(String::from_str(alloc, name)?))
    }

    /// A copy.
    fn try_clone(&self, alloc: Global) -> Result<Step, AllocError>
        ensures { IfOk result (λ step. place_of step ≡ place_of self.now) }
    {
        match self {
            Step::Index(index) => Ok(Step::Index(*index)),
            Step::Name(name) => Step::named(alloc, name.as_str()),
        }
    }
}

impl Trail {
    /// This trail, with a step to the item of this index put before it.
    pub(crate) fn in_item(self, alloc: Global, index: usize) -> Trail
        ensures { IsInside (item index) (trail_places self) (trail_places result) }
    {
        self.after(alloc, Step::Index(index))
    }

    /// This trail, with a step to this name put before it.
    pub(crate) fn in_named(self, alloc: Global, name: &str) -> Trail
        ensures { IsInside (under name.now) (trail_places self) (trail_places result) }
    {
        match Step::named(alloc, name) {
            Ok(step) => self.after(alloc, step),
            Err(_) => Trail::Unknown,
        }
    }

    /// This trail, with this step put before it.
    fn after(self, alloc: Global, step: Step) -> Trail
        ensures { IsInside (place_of step) (trail_places self) (trail_places result) }
    {
        match self {
            Trail::Here => Trail::single(alloc, step).unwrap_or(Trail::Unknown),
            Trail::Steps(mut steps) => match steps.push(step) {
                Ok(()) => Trail::Steps(steps),
                Err(_) => Trail::Unknown,
            },
            Trail::Unknown => Trail::Unknown,
        }
    }

    /// The trail of one step.
    fn single(alloc: Global, step: Step) -> Result<Trail, AllocError>
        ensures { IfOk result (λ trail. trail_places trail ≡ Some (place_of step ∷ [])) }
    {
        Ok(Trail::Steps(Box::new(alloc, vec![in alloc; step]?)?))
    }

    /// A copy, or unknown if memory ran out.
    pub(crate) fn try_clone(&self, alloc: Global) -> Trail
        ensures path { IsKept (trail_places self.now) (trail_places result) }
        ensures whole { trail_places self.now ≡ Some [] → trail_places result ≡ Some [] }
    {
        match self {
            Trail::Here => Trail::Here,
            Trail::Steps(steps) if steps.is_empty() => Trail::Here,
            Trail::Steps(steps) => clone_trail(alloc, steps).unwrap_or(Trail::Unknown),
            Trail::Unknown => Trail::Unknown,
        }
    }
}

/// The trail of a copy of these steps.
fn clone_trail(alloc: Global, steps: &Vec<Step>) -> Result<Trail, AllocError>
    ensures { IfOk result (λ trail. trail_places trail ≡ Some (places_of steps.now.items)) }
{
    Ok(Trail::Steps(Box::new(alloc, clone_steps(alloc, steps)?)?))
}

/// A copy of steps.
fn clone_steps(alloc: Global, steps: &Vec<Step>) -> Result<Vec<Step>, AllocError>
    ensures { IfOk result (λ copies. map place_of copies.items ≡ map place_of steps.now.items) }
{
    let mut copies = Vec::with_capacity(alloc, steps.len())?;
    for step in steps {
        copies.push(step.try_clone(alloc)?)?;
    }
    Ok(copies)
}
