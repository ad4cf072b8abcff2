// Tables written entry by entry.

ghost use Rattle.std.specs.Prelude.{◌≡◌, ℕ, ◌<◌, length};
ghost use Rattle.laws.specs.Listed.{listed};

// Each entry of a table: what the rule gives for its place.
pub fn write_each<T: Copy, F: Fn(usize) -> T>(table: &mut [T], entry: F)
    requires { (j : ℕ) → j < length table.old → F.pre entry j }
    ensures { (f : ℕ → T)
        → ((j : ℕ) (x : T) → j < length table.old → F.post entry j x → x ≡ f j)
        → table.new ≡ listed f (length table.old) }
{
    for j in 0..table.len() {
        table[j] = entry(j);
    }
}
