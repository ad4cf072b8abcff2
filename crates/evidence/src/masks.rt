// Masks: a byte for each frame, 1 where the frame has the mark and 0 where it has not.

ghost use Rattle.std.specs.Prelude.{◌≡◌, ◌+◌, ◌<◌, ◌^◌};
ghost use Rattle.evidence.specs.Masks.{marked, all_marked};

// No mask has a byte above this.
pub const HIGHEST: u8 = 1;

// Whether a frame is within the mask and has the mark.
pub fn marked(mask: &[u8], frame: usize) -> bool
    ensures { result ≡ marked mask.now frame }
{
    mask.get(frame).is_some_and(|byte| *byte == 1)
}

// Whether `count` frames from `first` on all are within the mask and have the mark.
pub fn all_marked(mask: &[u8], first: usize, count: usize) -> bool
    requires { first + count < 2 ^ 64 }
    ensures { result ≡ all_marked mask.now first count }
{
    (first..first + count).all(|frame| marked(mask, frame))
}
