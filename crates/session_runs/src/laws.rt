// Laws about requests that run blocks.

ghost use Rattle.session_runs.specs.Laws.{ImagesEvaluateBlocks};

/// What holds of every run of an image on rows: where the image means a block, its reply and its writes are those to which the
/// block comes on these rows.
pub fn laws_of_blocks()
    ensures evaluates { ImagesEvaluateBlocks }
{}
