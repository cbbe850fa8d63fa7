//! How a frame that waits takes the value of the awaited task.
ghost use Rattle.std.specs.Prelude.{◌≡◌};
ghost use Rattle.seg_meaning.specs.Giving.{body_with, given};

use crate::frame::{Frame, Next, OpenBody};

/// Assigns the value to the variable that takes it, if one does.
fn put(body: &mut Option<OpenBody>, into: Option<u32>, value: i32)
    ensures { body.new ≡ body_with into value body.old }
{
    let Some(var) = into else {
        return;
    };
    let Some(body) = body else {
        return;
    };
    let at = var as usize;
    if at < body.vars.len() {
        body.vars.set(at, value);
    }
}

impl Frame {
    /// Gives a frame that waits the value of the awaited task. The variable that takes the value is assigned, a child
    /// that was joined is removed from the unjoined children, and the frame can run its next segment. A frame that does
    /// not wait stays as it is. It takes no memory.
    pub fn give(&mut self, value: i32)
        ensures { self.new ≡ given self.old value }
    {
        match self.next {
            Next::Go => {}
            Next::Ended => {}
            Next::Get { into, .. } => {
                put(&mut self.body, into, value);
                self.next = Next::Go;
            }
            Next::Join { on, into } => {
                put(&mut self.body, into, value);
                self.out.remove(on);
                self.next = Next::Go;
            }
            Next::Closing { on } => {
                self.out.remove(on);
                self.next = Next::Go;
            }
        }
    }
}
