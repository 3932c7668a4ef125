// Words in a row that are only read: first those that were there before, and after them those that were made.
ghost use Rattle.std.specs.Prelude.{◌+◌, ◌^◌, ◌<◌, length};

#[derive(Clone, Copy)]
pub struct Row<'a> {
    pub kept: &'a [u64],
    pub made: &'a [u64],
    ghost fits: { length kept.now + length made.now < 2 ^ 64 },
}
