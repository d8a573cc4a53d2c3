// Laws about images.

ghost use Rattle.stack_code.specs.Means.{ImagesMean};

/// What holds of every program: its image is checked, and on each tape its machine asks what a block of the program asks, or ends as
/// it does, and in no other way.
pub fn laws_of_images()
    ensures means { ImagesMean }
{}
