// The first boundary that each count of units reaches, from the origins of the units that end at each boundary.

ghost use Rattle.std.specs.Prelude.{◌≡◌, ◌<◌, ◌≤◌, ◌^◌, length};
ghost use Rattle.laws.specs.Listed.{listed};
ghost use Rattle.laws.specs.Inner.Range.{first_from};
ghost use Rattle.paths.specs.Inner.Ranges.{arrives_from, first_reached};
ghost use Rattle.stages.specs.Ranges.{entry_of, Ends};

// The first of `n` boundaries to which a unit goes from one that is not before `from`. Nothing goes from there to a boundary up to `from`.
// Where there is none it is `n`, from which the search has no boundary to walk over, so that it tests nothing.
fn next_reached(low: &[u32], ends: &[u32], n: usize, from: usize) -> usize
    requires { Ends low.now ends.now n × (from ≤ n) }
    ensures { result ≡ first_from n (arrives_from (entry_of low.now) (entry_of ends.now) from) 0 n }
{
    for j in from..n {
        let end = ends[j] as usize;
        if (from < end) & ((low[j] as usize) < end) {
            return j;
        }
    }
    n
}

// By count of units, from none on.
pub fn lay_since(low: &[u32], ends: &[u32], n: usize, since: &mut [u32])
    requires { Ends low.now ends.now n × (n < 2 ^ 32) }
    ensures { since.new
        ≡ listed (first_reached (entry_of low.now) (entry_of ends.now) n) (length since.old) }
{
    let mut reached: usize = 0;
    for first in since.iter_mut() {
        *first = reached as u32;
        reached = next_reached(low, ends, n, reached);
    }
}
