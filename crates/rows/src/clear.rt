// The work areas back to zero bits.

ghost use Rattle.std.specs.Prelude.{◌++◌, ◌≡◌, ◌≤◌, length, drop, replicate};
ghost use Rattle.std.specs.Float.{binary64};
ghost use Rattle.std.specs.Float.Ieee.{of_bits};

// Whatever the first cells held, they are zero bits; cells beyond are untouched.
pub fn clear(best: &mut [f64], back: &mut [u32], cells: usize)
    requires { (cells ≤ length best.old) × (cells ≤ length back.old) }
    ensures best_after { best.new ≡ replicate cells (of_bits binary64 0) ++ drop cells best.old }
    ensures back_after { back.new ≡ replicate cells 0 ++ drop cells back.old }
{
    best[..cells].fill(0.0);
    back[..cells].fill(0);
}
