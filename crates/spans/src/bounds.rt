// What the edges of spans are taken from.

// The boundaries of a stage, and for frames that lie beyond them the low and the high edge of speech. The frames are lent beside it, and not
// in it: they are another list of the C interface's, and `uncut` with `cut` would have to take it apart again. That boundaries ascend is
// asked in walk.rt alone, since `tbu_spans` takes them in any order.
#[derive(Clone, Copy)]
pub struct Bounds<'a> {
    pub boundaries: &'a [u32],
    pub lo_edge: u32,
    pub hi_edge: u32,
}
