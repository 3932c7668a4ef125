// Lent memory: words that were there before and are only read, and after them those that values are made in, which are in use below `top` and free from
// there on.
ghost use Rattle.std.specs.Prelude.{◌+◌, ◌^◌, ◌<◌, ◌≤◌, length};

#[derive(Drop)]
pub struct Memory<'a> {
    pub kept: &'a [u64],
    pub made: &'a mut [u64],
    pub top: usize,
    ghost fits: { length kept.now + length made.now < 2 ^ 64 },
    ghost over: { length kept.now ≤ top },
    ghost within: { top ≤ length kept.now + length made.now },
}
