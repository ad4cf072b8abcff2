// Where the best path through a row ends.

ghost use Rattle.std.specs.Prelude.{◌≡◌, ◌≤◌, ◌<◌, length};
ghost use Rattle.paths.specs.Problem.{Problem};
ghost use Rattle.rows.specs.Ends.{or_end, StopsOf, EndOf};

// A path's sum, and the boundary where it ends.
#[derive(Clone, Copy)]
pub struct End {
    pub sum: f64,
    pub boundary: usize,
}

impl End {
    // "Of equal ends the lowest boundary wins": a later one replaces only when strictly greater. `Way::or` does so with ways: a trait for
    // both, with the figure that each compares, its law and two impls, would be longer than these two lines.
    #[tactic(auto, unfolding(crate::specs::Ends::or_end))]
    pub fn or(self, later: End) -> End
        ensures { result ≡ or_end self later }
    {
        if later.sum > self.sum { later } else { self }
    }
}

// "The end subtracts cost(b, F)." The row reaches its boundaries from `since` on.
pub fn best_end(best: &[f64], stop: &[f64], n: usize, since: usize) -> End
    requires { (since < n) × (n ≤ length best.now) × (n ≤ length stop.now) }
    ensures { (q : Problem) → StopsOf q stop.now n → EndOf q best.now n since result }
{
    let mut end = End {
        sum: best[since] - stop[since],
        boundary: since,
    };
    for j in since + 1..n {
        end = end.or(End {
            sum: best[j] - stop[j],
            boundary: j,
        });
    }
    end
}
