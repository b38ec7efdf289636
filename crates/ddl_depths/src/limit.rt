ghost use Rattle.std.specs.Prelude.{◌≡◌, ◌≤◌, [], nat_lt};
ghost use Rattle.ddl_reader.specs.Depths.{around_in, low, lowest};
ghost use Rattle.ddl_states.specs.FrameView.{frame_view, inner_frame_view, last_frame_view};
ghost use Rattle.ddl_states.specs.Gives.{state_of};
ghost use Rattle.ddl_depths.specs.Limit as limit;
ghost use Rattle.ddl_states.specs.StackView.{stack_view};

use crate::depth::{around_frame, need};
use ddl_states::{Focus, Frame, InnerFrame, LastFrame, Stack};
use ddl_tree::Bound;

/// How many forms a module may nest.
const DEEPEST: u64 = 200;

fn is_inner_paren(frame: &InnerFrame) -> bool
    ensures { result ≡ limit.is_paren (inner_frame_view frame.now) }
{
    matches!(frame, InnerFrame::Paren(_))
}

#[tactic(auto, using(crate::proofs::Limits::not_paren))]
fn is_paren(frame: &Frame) -> bool
    ensures { result ≡ limit.is_paren (frame_view frame.now) }
{
    match frame {
        Frame::Inner(frame) => is_inner_paren(frame),
        Frame::Type(_) | Frame::Class(_) | Frame::Last(_) | Frame::List(_) | Frame::Decl(_) => {
            false
        }
    }
}

#[tactic(auto, using(ddl_tree::proofs::Layers::layers))]
fn is_last_free_many(frame: &LastFrame) -> bool
    ensures { result ≡ limit.is_free_many (last_frame_view frame.now) }
{
    match frame {
        LastFrame::Many { bound, .. } => matches!(bound, Bound::Free),
        _other => false,
    }
}

#[tactic(auto, using(crate::proofs::Limits::not_many))]
fn is_free_many(frame: &Frame) -> bool
    ensures { result ≡ limit.is_free_many (frame_view frame.now) }
{
    match frame {
        Frame::Last(frame) => is_last_free_many(frame),
        Frame::Type(_) | Frame::Class(_) | Frame::Inner(_) | Frame::List(_) | Frame::Decl(_) => {
            false
        }
    }
}

/// Whether the innermost of these forms is `Many` with no bound yet.
fn opens_free_many(frames: &[Frame]) -> bool
    ensures { result ≡ limit.opens_free_many (stack_view frames.now []) }
{
    match frames.split_last() {
        Some((frame, _outer)) => is_free_many(frame),
        None => false,
    }
}

/// How deep a form is around a part of this depth, where it stands in the others.
fn around_within(frame: &Frame, outer: &[Frame], deep: u64) -> u64
    requires { deep ≤ 200 }
    ensures { result ≡ around_in (frame_view frame.now) (stack_view outer.now []) deep }
{
    if is_paren(frame) && opens_free_many(outer) {
        deep
    } else {
        around_frame(frame, deep)
    }
}

/// Whether the outermost of these forms is too deep around a part of this depth.
fn passes(frames: &[Frame], need: u64) -> bool
    ensures { result ≡ nat_lt 200 (low (stack_view frames.now []) need) }
{
    let mut deep = need;
    let mut rest = frames;
    while let Some((frame, outer)) = rest.split_last() {
        if deep > DEEPEST {
            return true;
        }
        deep = around_within(frame, outer, deep);
        rest = outer;
    }
    deep > DEEPEST
}

/// Whether each module that begins with what has been read nests too many forms.
pub fn is_too_deep(stack: &Stack, focus: &Focus) -> bool
    ensures { result ≡ nat_lt 200 (lowest (state_of stack.now focus.now)) }
{
    passes(stack.frames(), need(stack.frames(), focus))
}
