// The gaps between frames that ascend, neither listed nor sorted: each is worked out from its two frames wherever it is counted.

ghost use Rattle.std.specs.Prelude.{◌≡◌, ◌+◌, ◌-◌, ◌<◌, length, slice_index};
ghost use Rattle.rate.specs.Rate.{gaps, below};
ghost use Rattle.rate.specs.Place.{FoundAt};
ghost use Rattle.rate.specs.Inner.Largest.{largest_below};

use crate::ascending::Ascending;

impl Ascending<'_> {
    // The gap to a frame from the one before it.
    fn gap_to(&self, i: usize) -> u32
        requires { (0 < i) × (i < length self.now.frames.now) }
        ensures { result ≡ slice_index self.now.frames.now i - slice_index self.now.frames.now (i - 1) }
    {
        self.frames[i] - self.frames[i - 1]
    }

    // How many gaps are below a limit. The count is a u32, like the frames, so that the walk compiles to vector code.
    fn gaps_below(&self, limit: u32) -> u32
        ensures { result ≡ below limit (gaps self.now.frames.now) }
    {
        let mut count = 0;
        for i in 1..self.frames.len() {
            count += u32::from(self.gap_to(i) < limit);
        }
        count
    }

    // The gap at a place, counted from 0 in ascending order, which is no larger than `most`. It is sought among `low` and the `range`
    // numbers after it, and each turn leaves half of them: where at most `place` gaps are below the middle, it is the middle or above. No
    // list holds these numbers, of which `partition_point` could ask for the first.
    pub(crate) fn gap_at(&self, place: u32, most: u32) -> u32
        requires { place < below (most + 1) (gaps self.now.frames.now) }
        ensures { FoundAt (gaps self.now.frames.now) place result }
    {
        let mut low = 0;
        let mut range = most;
        while 0 < range {
            let half = range.div_ceil(2);
            if self.gaps_below(low + half) <= place {
                low += half;
            }
            range -= half;
        }
        low
    }

    // The largest gap below a limit, or 0 where there is none, which its one caller does not meet.
    fn largest_below(&self, limit: u32) -> u32
        ensures { result ≡ largest_below limit (gaps self.now.frames.now) }
    {
        let mut largest = 0;
        for i in 1..self.frames.len() {
            let gap = self.gap_to(i);
            largest = largest.max(if gap < limit { gap } else { 0 });
        }
        largest
    }

    // The gap at the place before that of a gap: the same, where it stands there too, and else the next smaller one.
    pub(crate) fn gap_before(&self, place: u32, gap: u32) -> u32
        requires { (0 < place) × FoundAt (gaps self.now.frames.now) place gap }
        ensures { FoundAt (gaps self.now.frames.now) (place - 1) result }
    {
        if self.gaps_below(gap) < place {
            gap
        } else {
            self.largest_below(gap)
        }
    }
}
