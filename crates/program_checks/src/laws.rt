// Laws about images.

ghost use Rattle.stack_code.specs.Checked.{IsChecked};
ghost use Rattle.stack_code.specs.Images.{image_of};
ghost use Rattle.typed_program.specs.declared.program.Program.{Program};

/// The image of every program is checked.
pub fn images_are_checked()
    ensures { (program : Program) → IsChecked (image_of program) }
{}
