//! Laws of images.

ghost use Rattle.tb_image.specs.FormatLaws.{FollowsOn, OneAnswer, OneOffset, OneValue, SomeAnswer};
ghost use Rattle.tb_image.specs.Instructions.{Counts};
ghost use Rattle.tb_image.specs.Images.{Imaged, image_format};

/// Bytes are those of an image, or they are refused, and not both; of one image, and at one offset.
pub fn bytes_have_one_answer()
    ensures some { SomeAnswer image_format }
    ensures one { OneAnswer image_format }
    ensures value { OneValue image_format }
    ensures offset { OneOffset image_format }
{}

/// The parts of an image follow one another: its bytes, behind the version, are those of its counts and then those
/// of what the counts announce.
pub fn parts_follow_one_another()
    ensures { FollowsOn Counts Imaged }
{}
