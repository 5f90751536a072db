ghost use Rattle.std.specs.Prelude.{◌≡◌, true, false};

use spv_blocks::Labels;
use spv_sources::Source;
use spv_walking::Walked;

/// What a tree is read from: the blocks of a function, their labels, and the walk through them.
#[derive(Drop)]
pub(crate) struct Scene<'a> {
    pub(crate) source: &'a Source<'a>,
    pub(crate) labels: &'a Labels<'a>,
    pub(crate) walked: &'a Walked,
}
