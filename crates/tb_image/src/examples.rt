//! Small images that compute.

ghost use Rattle.tb_image.specs.Examples.{SmallImages};

/// An image of one instruction, and bytes that are refused with their offset.
pub fn images_compute()
    ensures { SmallImages }
{}
