use crate::frame::Frame;
use ddl_base::NoMemory;
use std::alloc::Global;

/// The forms that are open, the innermost last.
#[derive(Drop)]
pub struct Stack {
    frames: Vec<Frame>,
}

impl Stack {
    ghost use Rattle.std.specs.Prelude.{◌≡◌, [], ◌∷◌, OnOk, MatchOption};
    ghost use Rattle.ddl_states.specs.FrameView.{frame_view};
    ghost use Rattle.ddl_states.specs.StackView.{forms};
    ghost use Rattle.ddl_reader.specs.StepExpr as step;

    /// Nothing is open.
    pub fn new(alloc: Global) -> Self
        ensures { forms result ≡ [] }
    {
        Stack {
            frames: Vec::new(alloc),
        }
    }

    /// Opens a form.
    pub fn push(&mut self, frame: Frame) -> Result<(), NoMemory>
        ensures { OnOk result (forms self.new ≡ frame_view frame ∷ forms self.old) }
    {
        self.frames.push(frame)?;
        Ok(())
    }

    /// Takes the innermost form away.
    pub fn pop(&mut self) -> Option<Frame>
        ensures { MatchOption result ((forms self.old ≡ []) × (forms self.new ≡ [])) (λ frame.
            forms self.old ≡ frame_view frame ∷ forms self.new) }
    {
        self.frames.pop()
    }

    /// The forms, the innermost last.
    pub fn frames(&self) -> &[Frame]
        ensures { result.now ≡ self.now.frames.items }
    {
        &self.frames
    }

    /// The widest nonterminal of an expression at the hole.
    pub fn least(&self) -> u8
        ensures { result ≡ step.least (forms self.now) }
    {
        match self.frames.last() {
            None => 1,
            Some(frame) => frame.hole(),
        }
    }
}
